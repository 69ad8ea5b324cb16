// Frames for C: a frame laid flat, read from bytes with where its parts stand, and written to bytes.
ghost use Rattle.std.specs.Prelude.{◌≡◌, ◌≤◌};
ghost use Rattle.octets.specs.Octets.{ReadFrom};
ghost use Rattle.cemi.specs.Meaning.{meaning_number};
ghost use Rattle.cemi.specs.Write.{write_count};
ghost use Rattle.tool.specs.FlatFrame.{laid_frame, refused_frame, flat_frame, fields_of, framed, FrameWrote};

use crate::{FlatFrame, Framed};
use cemi::{Fields, Frame, Meaning, NoMeaning, WriteRefusal};

// A meaning by its number.
fn event_of(m: Result<Meaning, NoMeaning>) -> u8
    ensures { result ≡ meaning_number m }
{
    match m {
        Ok(Meaning::Data(mode)) => mode,
        Ok(Meaning::Connect) => 4,
        Ok(Meaning::Disconnect) => 5,
        Err(e) => e.number(),
    }
}

// A frame that reads, with where its parts stand.
fn laid(f: Frame) -> FlatFrame
    ensures { result ≡ laid_frame f }
{
    let fields = f.fields;
    let info = f.info as usize;
    FlatFrame {
        source: fields.source,
        destination: fields.destination,
        outcome: 0,
        event: event_of(cemi::meant(f)),
        code: fields.code,
        control1: fields.control1,
        control2: fields.control2,
        transport: fields.transport,
        info_offset: 2,
        info_length: info,
        tpdu_offset: 2 + info + 7,
        tpdu_length: f.stated as usize + 1,
    }
}

// A refusal, which is no event.
fn refused(n: u8) -> FlatFrame
    ensures { result ≡ refused_frame n }
{
    FlatFrame {
        outcome: n,
        event: 255,
        ..FlatFrame::default()
    }
}

// The frame in the bytes, laid flat; or the outcome alone.
#[tactic(auto, unfolding(crate::specs::FlatFrame::flat_frame))]
pub fn read(frame: &[u8]) -> FlatFrame
    ensures { ReadFrom frame.now result (flat_frame frame.now) }
{
    match cemi::read(frame) {
        Ok(f) => laid(f),
        Err(e) => refused(e.number()),
    }
}

// Outcome and count of a writing.
fn count(w: Result<usize, WriteRefusal>) -> Framed
    requires { write_count w ≤ 280 }
    ensures { result ≡ framed w }
{
    match w {
        Ok(n) => Framed {
            count: n as u16,
            outcome: 0,
        },
        Err(e) => Framed {
            count: 0,
            outcome: e.number(),
        },
    }
}

// The fields of a flat frame.
fn fields_of(f: FlatFrame) -> Fields
    ensures { result ≡ fields_of f }
{
    Fields {
        code: f.code,
        control1: f.control1,
        control2: f.control2,
        source: f.source,
        destination: f.destination,
        transport: f.transport,
    }
}

// The bytes of a frame with these fields, at the front of out, and their count; on a refusal out is as it was.
pub fn write(f: FlatFrame, info: &[u8], apdu: &[u8], out: &mut [u8]) -> Framed
    ensures { FrameWrote f info.now apdu.now out.old result out.new }
{
    count(cemi::write(fields_of(f), info, apdu, out))
}
