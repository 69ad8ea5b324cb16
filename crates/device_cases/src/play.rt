// The events:
//   HEX, -                   a request of these bytes, or of none
//   fresh                    new sessions
//   connect, disconnect      of the connection said
//   press, release           the programming button on, off
use crate::image::Image;
use crate::setup::Setup;
use arrayvec::ArrayVec;
use device::{Done, Sessions};
use lines::{first, unhex};

#[derive(Drop)]
pub(crate) enum Event {
    Fresh,
    Connect,
    Disconnect,
    Button(bool),
    Request(ArrayVec<u8, 64>),
}

impl Event {
    pub(crate) fn parse(text: &[u8]) -> Option<Event> {
        match text {
            b"fresh" => Some(Event::Fresh),
            b"connect" => Some(Event::Connect),
            b"disconnect" => Some(Event::Disconnect),
            b"press" => Some(Event::Button(true)),
            b"release" => Some(Event::Button(false)),
            _ => unhex(text).map(Event::Request),
        }
    }
}

fn silent(outcome: u8, sessions: Sessions) -> Done {
    Done {
        outcome,
        count: 0,
        sessions,
    }
}

// An event on a sheet. The answer buffer is as long as the setup says.
pub(crate) fn play(event: Event, setup: Setup, image: &mut Image, out: &mut [u8]) -> Done {
    let Setup {
        sessions,
        mode,
        connection,
        group,
        room,
        ..
    } = setup;
    match event {
        Event::Fresh => silent(1, device::fresh()),
        Event::Connect => device::connect(sessions, connection),
        Event::Disconnect => device::disconnect(sessions, connection),
        Event::Button(on) => match device::button(image.sheet(), on) {
            Ok(()) => silent(1, sessions),
            Err(refused) => silent(refused.number(), sessions),
        },
        Event::Request(apdu) => {
            device::request(
                sessions,
                mode,
                connection,
                group,
                apdu.as_slice(),
                image.sheet(),
                first(out, room),
            )
            .done
        }
    }
}
