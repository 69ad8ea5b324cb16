// Datapoints in group PDUs: the GroupValue_Write of a datapoint, and the datapoint in a group value's six bits or data.
#![tactic(auto, unfolding(crate::specs::Value::read_value, crate::specs::Value::six_bits))]

ghost use Rattle.std.specs.Prelude.{◌≡◌};
ghost use Rattle.values.specs.Value.{read_value, value_pdu};

use pdu::Pdu;
use points::{Datapoint, Refusal};

// The datapoint of a type that a group PDU's six bits v and its data say.
pub fn read(kind: u8, v: u8, data: &[u8]) -> Result<Datapoint, Refusal>
    ensures { result ≡ read_value kind v «data».now }
{
    if kind != 1 {
        return points::read(kind, data);
    }
    if !data.is_empty() {
        return Err(Refusal::Length);
    }
    points::point(1, u32::from(v))
}

// The GroupValue_Write of a datapoint: a switch stands in its six bits, the bytes of any other are its data.
pub fn pdu(d: Datapoint) -> Pdu
    ensures { result ≡ value_pdu d }
{
    let v = match d {
        Datapoint::Switch(on) => u8::from(on),
        Datapoint::Byte(_) | Datapoint::Hundredths(_) | Datapoint::Float(_) => 0,
    };
    Pdu::GroupValueWrite { v }
}
