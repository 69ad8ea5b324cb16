// The frame that brings an answer.
ghost use Rattle.std.specs.Prelude.{◌≡◌, cond, ◌+◌, ◌≤◌, ◌%◌, eqb, length};
ghost use Rattle.cemi.specs.Meaning.{connected};
ghost use Rattle.cemi.specs.Answering.{answering};
ghost use Rattle.link.specs.Serving.{most, longest, Sent};

use cemi::Fields;

// Transport's bits: connected data has a sequence number.
fn transport_of(mode: u8, sequence: u8) -> u8
    ensures { result ≡ cond (eqb mode connected) (16 + sequence % 16) 0 }
{
    if mode == 3 { 16 + sequence % 16 } else { 0 }
}

// Its fields: from this device, to the group if a group was asked, else to who asked.
#[tactic(auto, unfolding(cemi::specs::Answering::answering))]
fn answer_fields(f: Fields, own: u16, mode: u8, sequence: u8) -> Fields
    ensures { result ≡ answering f own mode sequence }
{
    let to_one = Fields {
        code: 0x11,
        control1: 0xB0 + f.control1 / 4 % 4 * 4,
        control2: 0x60,
        source: own,
        destination: f.source,
        transport: transport_of(mode, sequence),
    };
    if f.control2 < 128 {
        to_one
    } else {
        Fields {
            control2: 0xE0,
            destination: f.destination,
            ..to_one
        }
    }
}

// Room for the longest frame stays a clause: `serve` tests it once, of a slice that C lends, and hands the slice on.
// The answer into a frame at the front of out, which has room for the longest, and its count for C: no bytes are no frame, 0.
pub fn send(f: Fields, own: u16, mode: u8, sequence: u8, answer: &[u8], out: &mut [u8]) -> u8
    requires { (length answer.now ≤ most) × (longest ≤ length out.old) }
    ensures { Sent (answering f own mode sequence) answer.now out.old result out.new }
{
    let g = answer_fields(f, own, mode, sequence);
    match cemi::write(g, &answer[..0], answer, out) {
        Ok(n) => n as u8,
        Err(_) => 0,
    }
}
