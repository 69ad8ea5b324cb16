// The archive for C of the PDU layer: the calls of include/kelindap_pdu.h and kelindap_frame.h, each the function of `tool` by its
// name, with that one's contract.
#![tactic(auto)]

ghost use Rattle.std.specs.Prelude.{◌≡◌};
ghost use Rattle.octets.specs.Octets.{ReadFrom};
ghost use Rattle.tool.specs.FlatFrame.{flat_frame, FrameWrote};
ghost use Rattle.tool.specs.Flat.{flat_read, meant_by, FlatWrote, version_of};
ghost use Rattle.tool.specs.Points.{flat_point_read, FlatPut};

use tool::{FlatFrame, FlatPdu, FlatPoint, FlatWritten, Framed};

// The PDU in the bytes, laid flat, with where its data stands; or the outcome alone.
#[unsafe(no_mangle)]
pub extern "C" fn kelindap_read(apdu: &[u8]) -> FlatPdu
    ensures { ReadFrom apdu.now result (flat_read apdu.now) }
{
    tool::kelindap_read(apdu)
}

// The bytes of a flat PDU with its data at the front of out, and their count; on a refusal out is as it was.
#[unsafe(no_mangle)]
pub extern "C" fn kelindap_write(flat: FlatPdu, data: &[u8], out: &mut [u8]) -> FlatWritten
    ensures { FlatWrote (meant_by flat) «data».now out.old result out.new }
{
    tool::kelindap_write(flat, data, out)
}

// The version of this library.
#[unsafe(no_mangle)]
pub extern "C" fn kelindap_pdu_version() -> u32
    ensures { result ≡ version_of }
{
    tool::kelindap_pdu_version()
}

// The frame in the bytes, laid flat, with where its parts stand; or the outcome alone.
#[unsafe(no_mangle)]
pub extern "C" fn kelindap_frame_read(frame: &[u8]) -> FlatFrame
    ensures { ReadFrom frame.now result (flat_frame frame.now) }
{
    tool::kelindap_frame_read(frame)
}

// The bytes of a frame with its parts at the front of out, and their count; on a refusal out is as it was.
#[unsafe(no_mangle)]
pub extern "C" fn kelindap_frame_write(
    f: FlatFrame,
    info: &[u8],
    apdu: &[u8],
    out: &mut [u8],
) -> Framed
    ensures { FrameWrote f info.now apdu.now out.old result out.new }
{
    tool::kelindap_frame_write(f, info, apdu, out)
}

// The value of a type in the bytes, laid flat; or the outcome alone.
#[unsafe(no_mangle)]
pub extern "C" fn kelindap_point_read(kind: u8, bytes: &[u8]) -> FlatPoint
    ensures { ReadFrom bytes.now result (flat_point_read kind bytes.now) }
{
    tool::datapoints::kelindap_point_read(kind, bytes)
}

// The bytes of a flat datapoint into a part exactly as long; on a refusal the part is as it was.
#[unsafe(no_mangle)]
pub extern "C" fn kelindap_point_write(point: FlatPoint, out: &mut [u8]) -> u8
    ensures { FlatPut point out.old result out.new }
{
    tool::datapoints::kelindap_point_write(point, out)
}
