// What a frame means.
ghost use Rattle.std.specs.Prelude.{◌≡◌};
ghost use Rattle.cemi.specs.Meaning.{to_group, control, to_one, meaning_of};

use crate::{Frame, Meaning, NoMeaning};

// The modes, as the device numbers them: its calls take any byte as a mode, so no enum.
const MULTICAST: u8 = 0;

const BROADCAST: u8 = 1;

const CONNECTIONLESS: u8 = 2;

const CONNECTED: u8 = 3;

// To a group.
#[tactic(auto, unfolding(crate::specs::Meaning::to_group))]
fn to_group(transport: u8, destination: u16) -> Result<Meaning, NoMeaning>
    ensures { result ≡ to_group transport destination }
{
    match (transport, destination) {
        (0, 0) => Ok(Meaning::Data(BROADCAST)),
        (0, _) => Ok(Meaning::Data(MULTICAST)),
        _ => Err(NoMeaning::Transport),
    }
}

// A control: a single octet.
#[tactic(auto, unfolding(crate::specs::Meaning::control))]
fn controlled(transport: u8, low: u8) -> Result<Meaning, NoMeaning>
    ensures { result ≡ control transport low }
{
    match transport as u16 * 4 + low as u16 {
        0x80 => Ok(Meaning::Connect),
        0x81 => Ok(Meaning::Disconnect),
        _ if 48 <= transport && 2 <= low => Err(NoMeaning::Acknowledgement),
        _ => Err(NoMeaning::Transport),
    }
}

// To an individual address: 16 to 31 is connected data, with its sequence number.
#[tactic(auto, unfolding(crate::specs::Meaning::to_one, crate::specs::Meaning::numbered))]
fn to_one(transport: u8, low: u8, stated: u8) -> Result<Meaning, NoMeaning>
    ensures { result ≡ to_one transport low stated }
{
    match transport {
        0 => Ok(Meaning::Data(CONNECTIONLESS)),
        16..=31 => Ok(Meaning::Data(CONNECTED)),
        _ if stated == 0 => controlled(transport, low),
        _ => Err(NoMeaning::Transport),
    }
}

// By the address type, bit 7 of control 2.
#[tactic(auto, unfolding(crate::specs::Meaning::meaning_of))]
pub fn meant(f: Frame) -> Result<Meaning, NoMeaning>
    ensures { result ≡ meaning_of f }
{
    let fields = f.fields;
    if fields.control2 < 128 {
        to_one(fields.transport, f.low, f.stated)
    } else {
        to_group(fields.transport, fields.destination)
    }
}
