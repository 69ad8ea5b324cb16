// A frame read from bytes.
ghost use Rattle.std.specs.Prelude.{◌≡◌, ◌<◌};
ghost use Rattle.octets.specs.Octets.{ReadFrom};
ghost use Rattle.cemi.specs.Layout.{table_at, info_length};
ghost use Rattle.cemi.specs.Read.{fields_in, frame_in, standard_of, refusal_of, read_frame};

use crate::{Fields, Frame, ReadRefusal, layout};
use octets::{byte, number};

// Where the table of fields stands in a frame.
fn table_at(frame: &[u8]) -> usize
    ensures { (result ≡ table_at (info_length frame.now)) × (result < 258) }
{
    layout::INFO + byte(frame, layout::INFO_LENGTH) as usize
}

// The fields in the bytes; missing bytes count as 0, so `number` and not `word`, which asks for both.
fn fields_in(frame: &[u8]) -> Fields
    ensures { result ≡ fields_in frame.now }
{
    let at = table_at(frame);
    Fields {
        code: byte(frame, layout::CODE),
        control1: byte(frame, at + layout::CONTROL1),
        control2: byte(frame, at + layout::CONTROL2),
        source: number(frame, at + layout::SOURCE, 2) as u16,
        destination: number(frame, at + layout::DESTINATION, 2) as u16,
        transport: byte(frame, at + layout::SIZE) / 4,
    }
}

// The same with the rest of what a frame says.
fn frame_in(frame: &[u8]) -> Frame
    ensures { result ≡ frame_in frame.now }
{
    let fields = fields_in(frame);
    let at = table_at(frame);
    Frame {
        fields,
        low: byte(frame, at + layout::SIZE) % 4,
        info: byte(frame, layout::INFO_LENGTH),
        stated: byte(frame, at + layout::STATED),
    }
}

// Whether n bytes that say this are a standard frame.
#[tactic(auto, unfolding(crate::specs::Read::standard_of))]
fn standard(n: usize, f: Frame) -> Result<(), ReadRefusal>
    ensures { result ≡ standard_of n f.info f.fields f.stated }
{
    if f.fields.control1 < 128 || f.fields.control2 % 16 != 0 {
        return Err(ReadRefusal::Extended);
    }
    let stands = layout::INFO + f.info as usize + layout::SIZE + (f.stated as usize + 1);
    if 15 < f.stated || stands != n {
        return Err(ReadRefusal::Length);
    }
    Ok(())
}

// Whether they are a frame that reads.
#[tactic(auto, unfolding(crate::specs::Read::refusal_of))]
pub fn refusal(n: usize, f: Frame) -> Result<(), ReadRefusal>
    ensures { result ≡ refusal_of n f.info f.fields f.stated }
{
    if n < 10 + f.info as usize {
        return Err(ReadRefusal::Short);
    }
    match f.fields.code {
        layout::REQUEST | layout::INDICATION => standard(n, f),
        _ => Err(ReadRefusal::Code),
    }
}

// The frame in the bytes.
#[tactic(auto, unfolding(crate::specs::Read::read_frame))]
pub fn read(frame: &[u8]) -> Result<Frame, ReadRefusal>
    ensures { ReadFrom frame.now result (read_frame frame.now) }
{
    let f = frame_in(frame);
    refusal(frame.len(), f)?;
    Ok(f)
}
