// Readable group values: datapoint types 1, 5, 9 and 14, read from their bytes and written to them.
#![tactic(auto)]

ghost use Rattle.std.specs.Prelude.{◌≡◌};
ghost use Rattle.octets.specs.Octets.{ReadFrom};
ghost use Rattle.points.specs.Point.{type_of, width_at, width_given, point_at, Narrow, read_point, Put};
ghost use Rattle.points.specs.Refusal.{told};

mod float;
mod hundredths;
mod number;
mod signs;

// A value: a switch (type 1), a byte (5), a signed count of hundredths (9), a float (14).
#[derive(Clone, Copy)]
pub enum Datapoint {
    Switch(bool),
    Byte(u8),
    Hundredths(i32),
    Float(f32),
}

// Why bytes are not read or a value is not written.
#[derive(Clone, Copy, PartialEq, Eq)]
pub enum Refusal {
    // the length is not that of the type
    Length = 20,
    // a switch with a bit set above bit 0
    Bits = 21,
    // the code 7FFFh of type 9
    Invalid = 22,
    // hundredths that no code of type 9 is near
    Range = 23,
    // an infinity or a NaN
    Infinite = 24,
    // no such type
    Kind = 25,
}

impl Refusal {
    ghost use Rattle.points.specs.Refusal.{number_of};

    // The number by which C and the documents know it.
    pub fn number(self) -> u8
        ensures { result ≡ number_of self }
    {
        self as u8
    }
}

// The bytes of a type's values, where there is such a type. Here and below a type is a byte and no enum, since C lends any.
pub fn width(kind: u8) -> Option<usize>
    ensures { result ≡ width_given kind }
{
    match kind {
        1 | 5 => Some(1),
        9 => Some(2),
        14 => Some(4),
        _ => None,
    }
}

// The type of a datapoint.
pub fn kind(d: Datapoint) -> u8
    ensures { result ≡ type_of d }
{
    match d {
        Datapoint::Switch(_) => 1,
        Datapoint::Byte(_) => 5,
        Datapoint::Hundredths(_) => 9,
        Datapoint::Float(_) => 14,
    }
}

// The bytes of a datapoint.
fn size(d: Datapoint) -> usize
    ensures { result ≡ width_at (type_of d) }
{
    match d {
        Datapoint::Switch(_) | Datapoint::Byte(_) => 1,
        Datapoint::Hundredths(_) => 2,
        Datapoint::Float(_) => 4,
    }
}

// What a number means in a type; in another than those of `width` it is taken for a float's bits.
pub fn point(kind: u8, n: u32) -> Result<Datapoint, Refusal>
    requires { Narrow kind n }
    ensures { result ≡ point_at kind n }
{
    match kind {
        1 => number::switch(n),
        5 => Ok(Datapoint::Byte(n as u8)),
        9 => hundredths::point(n),
        _ => float::point(n),
    }
}

// The value of a type in the bytes.
pub fn read(kind: u8, bytes: &[u8]) -> Result<Datapoint, Refusal>
    ensures { ReadFrom bytes.now result (read_point kind bytes.now) }
{
    let Some(w) = width(kind) else {
        return Err(Refusal::Kind);
    };
    if bytes.len() != w {
        return Err(Refusal::Length);
    }
    point(kind, octets::number(bytes, 0, w) as u32)
}

// A datapoint's bytes into a part exactly as long; on a refusal the part is as it was.
pub fn write(d: Datapoint, out: &mut [u8]) -> Result<(), Refusal>
    ensures { Put d out.old (told result) out.new }
{
    let w = size(d);
    if out.len() != w {
        return Err(Refusal::Length);
    }
    let n = number::coded(d)?;
    octets::put(out, 0, w, u64::from(n));
    Ok(())
}
