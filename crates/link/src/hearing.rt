// The event of a frame, or the number of why there is none.
ghost use Rattle.std.specs.Prelude.{◌≡◌};
ghost use Rattle.link.specs.Partners.{nobody};
ghost use Rattle.link.specs.Refusal.{number_of};
ghost use Rattle.link.specs.Hearing.{own_of, for_us, to_itself, meant, from_other, judged, heard_of};
ghost use Rattle.link.specs.declared.Arrived.TheVariants.{Nothing};

use crate::{Arrived, Link, Refusal, places};
use cemi::{Fields, Frame, Meaning, NoMeaning};

// Connected data's mode, as cemi and the device number it.
const CONNECTED: u8 = 3;

// The address of this device, as the sheet has it; 0 where the sheet ends before it, which `own_of` of specs/ gives to all theorems.
#[tactic(auto, unfolding(crate::specs::Hearing::own_of))]
pub fn own_of(sheet: &[u8]) -> u16
    ensures { result ≡ own_of sheet.now }
{
    if sheet.len() < 18 {
        0
    } else {
        octets::word(sheet, 16)
    }
}

// Whether a frame to this destination, a group's or an individual address, is for the device with this address.
#[tactic(auto, unfolding(crate::specs::Hearing::for_us))]
fn is_for_us(control2: u8, destination: u16, own: u16) -> bool
    ensures { result ≡ for_us control2 destination own }
{
    128 <= control2 || destination == own
}

// Whether a frame for the device with this address, from this source, is from itself to itself alone.
#[tactic(auto, unfolding(crate::specs::Hearing::to_itself))]
fn is_to_itself(control2: u8, source: u16, own: u16) -> bool
    ensures { result ≡ to_itself control2 source own }
{
    control2 < 128 && source == own
}

// No event, and nobody's.
fn nothing(why: Refusal) -> Arrived
    ensures { result ≡ Nothing (number_of why) nobody }
{
    Arrived::Nothing {
        number: why.number(),
        connection: places::NOBODY,
    }
}

// What a frame for this device means to it. Connected data is its partner's alone; data without a connection is nobody's.
#[tactic(auto, unfolding(crate::specs::Hearing::meant, crate::specs::Hearing::on_place, crate::specs::Hearing::connects, crate::specs::Hearing::disconnects))]
fn means(link: Link, f: Fields, m: Result<Meaning, NoMeaning>) -> Arrived
    ensures { result ≡ meant link f.source f.destination m }
{
    let place = places::place_of(link, f.source);
    match (m, place) {
        (Ok(Meaning::Data(CONNECTED)), Some(c)) => Arrived::Request {
            mode: CONNECTED,
            connection: c,
            group: f.destination,
        },
        (Ok(Meaning::Data(CONNECTED)), None) => nothing(Refusal::Stranger),
        (Ok(Meaning::Data(mode)), _) => Arrived::Request {
            mode,
            connection: places::NOBODY,
            group: f.destination,
        },
        (Ok(Meaning::Connect), _) => match places::place_for(link, f.source) {
            Some(c) => Arrived::Connect(c),
            None => nothing(Refusal::Taken),
        },
        (Ok(Meaning::Disconnect), Some(c)) => Arrived::Disconnect(c),
        (Ok(Meaning::Disconnect), None) => nothing(Refusal::NotConnected),
        (Err(e), _) => Arrived::Nothing {
            number: e.number(),
            connection: place.unwrap_or(places::NOBODY),
        },
    }
}

// A frame that reads: one for another device is no event, nor is one from this device to itself alone.
#[tactic(auto, unfolding(crate::specs::Hearing::judged, crate::specs::Hearing::from_other))]
pub fn judge(link: Link, own: u16, f: Frame) -> Arrived
    ensures { result ≡ judged link own f }
{
    let fields = f.fields;
    if !is_for_us(fields.control2, fields.destination, own) {
        nothing(Refusal::Elsewhere)
    } else if is_to_itself(fields.control2, fields.source, own) {
        nothing(Refusal::Itself)
    } else {
        means(link, fields, cemi::meant(f))
    }
}

// THE EVENT OF A FRAME for the device with this address, or the number of why there is none.
#[tactic(auto, unfolding(crate::specs::Hearing::heard_of, crate::specs::Hearing::heard_got))]
pub fn heard(link: Link, own: u16, frame: &[u8]) -> Arrived
    ensures { result ≡ heard_of link own frame.now }
{
    match cemi::read(frame) {
        Ok(f) => judge(link, own, f),
        Err(e) => Arrived::Nothing {
            number: e.number(),
            connection: places::NOBODY,
        },
    }
}
