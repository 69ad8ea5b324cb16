// Readable group values for C: a datapoint laid flat, read from its bytes and written to them.
ghost use Rattle.std.specs.Prelude.{◌≡◌};
ghost use Rattle.octets.specs.Octets.{ReadFrom};
ghost use Rattle.points.specs.Refusal.{told};
ghost use Rattle.tool.specs.Points.{point_laid, flat_point_read, point_meant, FlatPut};

use crate::FlatPoint;
use points::{Datapoint, Refusal};

// A datapoint by its case; of a float the bits, as they stand in its bytes.
fn laid(d: Datapoint, s: &[u8]) -> FlatPoint
    ensures { result ≡ point_laid s.now (Ok d) }
{
    match d {
        Datapoint::Switch(on) => FlatPoint {
            kind: 1,
            value: u8::from(on),
            ..FlatPoint::default()
        },
        Datapoint::Byte(value) => FlatPoint {
            kind: 5,
            value,
            ..FlatPoint::default()
        },
        Datapoint::Hundredths(hundredths) => FlatPoint {
            kind: 9,
            hundredths,
            ..FlatPoint::default()
        },
        Datapoint::Float(_) => FlatPoint {
            kind: 14,
            bits: octets::number(s, 0, 4) as u32,
            ..FlatPoint::default()
        },
    }
}

// The value of a type in the bytes, laid flat; or the outcome alone.
#[tactic(auto, unfolding(crate::specs::Points::flat_point_read))]
pub fn kelindap_point_read(kind: u8, bytes: &[u8]) -> FlatPoint
    ensures { ReadFrom bytes.now result (flat_point_read kind bytes.now) }
{
    match points::read(kind, bytes) {
        Ok(d) => laid(d, bytes),
        Err(e) => FlatPoint {
            outcome: e.number(),
            ..FlatPoint::default()
        },
    }
}

// The datapoint that a flat one means.
#[tactic(auto, unfolding(crate::specs::Points::point_meant))]
fn meant(f: FlatPoint) -> Result<Datapoint, Refusal>
    ensures { result ≡ point_meant f }
{
    match f.kind {
        9 => Ok(Datapoint::Hundredths(f.hundredths)),
        14 => points::point(14, f.bits),
        kind => points::point(kind, u32::from(f.value)),
    }
}

// The same as `kelindap_point_write`, refused by name.
fn written(point: FlatPoint, out: &mut [u8]) -> Result<(), Refusal>
    ensures { FlatPut point out.old (told result) out.new }
{
    let Some(w) = points::width(point.kind) else {
        return Err(Refusal::Kind);
    };
    if out.len() != w {
        return Err(Refusal::Length);
    }
    points::write(meant(point)?, out)
}

// The bytes of a flat datapoint into a part exactly as long; on a refusal the part is as it was.
pub fn kelindap_point_write(point: FlatPoint, out: &mut [u8]) -> u8
    ensures { FlatPut point out.old result out.new }
{
    match written(point, out) {
        Ok(()) => 0,
        Err(e) => e.number(),
    }
}
