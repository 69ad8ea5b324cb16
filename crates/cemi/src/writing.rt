// A frame written to bytes.
ghost use Rattle.std.specs.Prelude.{◌≡◌, true, ◌+◌, ◌-◌, ◌≤◌, length};
ghost use Rattle.octets.specs.Splice.{splice};
ghost use Rattle.cemi.specs.Layout.{table, size, bytes_in};
ghost use Rattle.cemi.specs.Write.{numbers_of, under, front_bytes, encoded, count_of, writable, Wrote};

use crate::reading::refusal;
use crate::{Fields, Frame, WriteRefusal, layout};

// Whether a frame that reads can have these fields and so many bytes of additional information and from octet 6 on.
#[tactic(auto, unfolding(crate::specs::Write::writable))]
fn is_writable(f: Fields, info: usize, apdu: usize) -> bool
    ensures { result ≡ writable f info apdu }
{
    info <= 255
        && f.transport <= 63
        && 1 <= apdu
        && apdu <= 16
        && refusal(
            layout::INFO + info + layout::SIZE + apdu,
            Frame {
                fields: f,
                low: 0,
                info: info as u8,
                stated: (apdu - 1) as u8,
            },
        )
        .is_ok()
}

// Message code and additional information, at the front.
fn put_front(code: u8, info: &[u8], out: &mut [u8])
    requires { (length info.now ≤ 255) × (2 + length info.now ≤ length out.old) }
    ensures { out.new ≡ splice out.old 0 (front_bytes code info.now) }
{
    octets::splice(out, layout::CODE, &[code, info.len() as u8]);
    octets::splice(out, layout::INFO, info);
}

// The table's bytes, from a place on.
fn put_table(f: Fields, stated: u8, at: usize, out: &mut [u8])
    requires { at + size ≤ length out.old }
    ensures { out.new ≡ splice out.old at (bytes_in table (numbers_of f stated)) }
{
    let [source_high, source_low] = f.source.to_be_bytes();
    let [destination_high, destination_low] = f.destination.to_be_bytes();
    octets::splice(
        out,
        at,
        &[
            f.control1,
            f.control2,
            source_high,
            source_low,
            destination_high,
            destination_low,
            stated,
        ],
    );
}

// The APDU with transport's bits, from a place on.
fn put_tpdu(transport: u8, apdu: &[u8], at: usize, out: &mut [u8])
    requires { (transport ≤ 63) × (1 ≤ length apdu.now) × (at + length apdu.now ≤ length out.old) }
    ensures { out.new ≡ splice out.old at (under transport apdu.now) }
{
    octets::splice(out, at, &[transport * 4 + apdu[0] % 4]);
    octets::splice(out, at + 1, &apdu[1..]);
}

// The bytes of a frame that has room, at the front of out.
fn encode(f: Fields, info: &[u8], apdu: &[u8], out: &mut [u8])
    requires { (length info.now ≤ 255) × (f.transport ≤ 63) × (1 ≤ length apdu.now) × (length apdu.now ≤ 16) × (count_of (length info.now) (length apdu.now) ≤ length out.old) }
    ensures { out.new ≡ splice out.old 0 (encoded f info.now apdu.now) }
{
    let at = layout::INFO + info.len();
    put_front(f.code, info, out);
    put_table(f, (apdu.len() - 1) as u8, at, out);
    put_tpdu(f.transport, apdu, at + layout::SIZE, out);
}

// The frame's bytes at the front of out, and their count; on a refusal out is as it was.
pub fn write(f: Fields, info: &[u8], apdu: &[u8], out: &mut [u8]) -> Result<usize, WriteRefusal>
    ensures { Wrote f info.now apdu.now out.old result out.new }
{
    if !is_writable(f, info.len(), apdu.len()) {
        return Err(WriteRefusal::Fields);
    }
    let n = layout::INFO + info.len() + layout::SIZE + apdu.len();
    if out.len() < n {
        return Err(WriteRefusal::Room);
    }
    encode(f, info, apdu, out);
    Ok(n)
}
