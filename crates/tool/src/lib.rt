// The PDU layer for C: a PDU laid flat, read from bytes and written to bytes.
#![tactic(auto)]

ghost use Rattle.std.specs.Prelude.{◌≡◌, ◌≤◌};
ghost use Rattle.octets.specs.Octets.{ReadFrom};
ghost use Rattle.pdu.specs.Write.{write_count};
ghost use Rattle.tool.specs.FlatFrame.{flat_frame, FrameWrote};
ghost use Rattle.tool.specs.Flat.{flat_read, meant_by, meant_write, meant_buffer, flat_written, FlatWrote, version_of};

use pdu::WriteRefusal;

pub mod datapoints;
mod frames;
mod lay;
mod mean;

// The structs below are C's, by the headers: kinds and outcomes are numbers in them, beside their values.

// A PDU laid flat, in the order of include/kelindap_pdu.h, whose `type` is `typ` here.
#[repr(C)]
#[derive(Clone, Copy, Default)]
pub struct FlatPdu {
    pub serial: u64,
    pub key: u32,
    pub address: u16,
    pub domain: u16,
    pub s: u16,
    pub maximum: u16,
    pub outcome: u8,
    pub kind: u8,
    pub v: u8,
    pub t: u8,
    pub object: u8,
    pub id: u8,
    pub n: u8,
    pub index: u8,
    pub typ: u8,
    pub access: u8,
    pub level: u8,
    pub data_offset: usize,
    pub data_length: usize,
}

// What writing gave: the outcome, and the count of bytes filled.
#[repr(C)]
#[derive(Clone, Copy)]
pub struct FlatWritten {
    pub outcome: u8,
    pub count: u8,
}

// A frame laid flat, in the order of include/kelindap_frame.h.
#[repr(C)]
#[derive(Clone, Copy, Default)]
pub struct FlatFrame {
    pub source: u16,
    pub destination: u16,
    pub outcome: u8,
    pub event: u8,
    pub code: u8,
    pub control1: u8,
    pub control2: u8,
    pub transport: u8,
    pub info_offset: usize,
    pub info_length: usize,
    pub tpdu_offset: usize,
    pub tpdu_length: usize,
}

// What writing a frame gave: the count of bytes filled, and the outcome.
#[repr(C)]
#[derive(Clone, Copy)]
pub struct Framed {
    pub count: u16,
    pub outcome: u8,
}

// A datapoint laid flat, in the order of include/kelindap_pdu.h, whose `type` is `kind` here.
#[repr(C)]
#[derive(Clone, Copy, Default)]
pub struct FlatPoint {
    pub hundredths: i32,
    pub bits: u32,
    pub kind: u8,
    pub value: u8,
    pub outcome: u8,
}

// The PDU in the bytes, laid flat, with where its data stands; or the outcome alone.
#[tactic(auto, unfolding(crate::specs::Flat::flat_read))]
pub fn kelindap_read(apdu: &[u8]) -> FlatPdu
    ensures { ReadFrom apdu.now result (flat_read apdu.now) }
{
    match pdu::read(apdu) {
        Ok(p) => lay::read_as(p, apdu),
        Err(e) => lay::refuse(e.number()),
    }
}

// Outcome and count of a writing.
fn flat_written(w: Result<usize, WriteRefusal>) -> FlatWritten
    requires { write_count w ≤ 16 }
    ensures { result ≡ flat_written w }
{
    match w {
        Ok(n) => FlatWritten {
            outcome: 0,
            count: n as u8,
        },
        Err(e) => FlatWritten {
            outcome: e.number(),
            count: 0,
        },
    }
}

// What writing a flat PDU gives. No PDU is of an unknown kind.
fn written(flat: FlatPdu, data: &[u8], out: &mut [u8]) -> Result<usize, WriteRefusal>
    ensures gives { result ≡ meant_write (meant_by flat) «data».now out.old }
    ensures leaves { out.new ≡ meant_buffer (meant_by flat) «data».now out.old }
{
    match mean::meant(flat) {
        Some(p) => pdu::write(p, data, out),
        None if out.len() < 16 => Err(WriteRefusal::Room),
        None => Err(WriteRefusal::Fields),
    }
}

// The bytes of a flat PDU with its data at the front of out, and their count; on a refusal out is as it was.
pub fn kelindap_write(flat: FlatPdu, data: &[u8], out: &mut [u8]) -> FlatWritten
    ensures { FlatWrote (meant_by flat) «data».now out.old result out.new }
{
    flat_written(written(flat, data, out))
}

// The version of this library.
pub fn kelindap_pdu_version() -> u32
    ensures { result ≡ version_of }
{
    65536
}

// The frame in the bytes, laid flat, with where its parts stand; or the outcome alone.
pub fn kelindap_frame_read(frame: &[u8]) -> FlatFrame
    ensures { ReadFrom frame.now result (flat_frame frame.now) }
{
    frames::read(frame)
}

// The bytes of a frame with its parts at the front of out, and their count; on a refusal out is as it was.
pub fn kelindap_frame_write(f: FlatFrame, info: &[u8], apdu: &[u8], out: &mut [u8]) -> Framed
    ensures { FrameWrote f info.now apdu.now out.old result out.new }
{
    frames::write(f, info, apdu, out)
}
