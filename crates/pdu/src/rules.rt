// Whether a PDU may stand in so many bytes: the rules of the table.
ghost use Rattle.std.specs.Prelude.{◌≡◌};
ghost use Rattle.pdu.specs.Write.{fits_in};

use crate::Pdu;

// A serial number has six bytes.
const SERIALS: u64 = 0x1_0000_0000_0000;

// The table lets the PDU stand in n bytes, its data among them.
pub(crate) fn allowed(pdu: Pdu, n: usize) -> bool
    ensures { result ≡ fits_in pdu n }
{
    match pdu {
        Pdu::GroupValueRead
        | Pdu::IndividualAddressRead
        | Pdu::IndividualAddressResponse
        | Pdu::Restart => n == 2,
        // Six bits: any in two bytes, 0 in more.
        Pdu::GroupValueResponse { v } | Pdu::GroupValueWrite { v } => v < 64 && (n == 2 || v == 0),
        Pdu::IndividualAddressWrite { .. } => n == 4,
        Pdu::SerialNumberRead { serial } => serial < SERIALS && n == 8,
        Pdu::SerialNumberWrite { serial, .. } => serial < SERIALS && n == 14,
        Pdu::SerialNumberResponse { serial, .. } => serial < SERIALS && n == 12,
        Pdu::DeviceDescriptorRead { t } => t < 64 && n == 2,
        Pdu::DeviceDescriptorResponse { t } => t < 64 && (2..=16).contains(&n),
        Pdu::PropertyValueRead { n: count, s, .. } => count < 16 && s < 4096 && n == 6,
        Pdu::PropertyValueWrite { n: count, s, .. } => {
            count < 16 && s < 4096 && (7..=16).contains(&n)
        },
        Pdu::PropertyValueResponse { n: count, s, .. } => {
            count < 16 && s < 4096 && (6..=16).contains(&n)
        },
        Pdu::PropertyDescriptionRead { .. } => n == 5,
        Pdu::PropertyDescriptionResponse { maximum, .. } => maximum < 4096 && n == 9,
        Pdu::MemoryRead { n: count, .. } => count < 16 && n == 4,
        Pdu::MemoryWrite { n: count, .. } | Pdu::MemoryResponse { n: count, .. } => {
            count < 16 && n == 4 + count as usize
        },
        Pdu::MemoryBitWrite { n: count, .. } => n == 5 + 2 * count as usize,
        Pdu::AuthorizeRequest { .. } | Pdu::KeyWrite { .. } => n == 7,
        Pdu::AuthorizeResponse { .. } | Pdu::KeyResponse { .. } => n == 3,
        Pdu::UserMemoryRead { .. } => n == 5,
        Pdu::UserMemoryResponse { n: count, .. } | Pdu::UserMemoryWrite { n: count, .. } => {
            n == 5 + count as usize
        },
    }
}
