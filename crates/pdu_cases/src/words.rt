// PDUs in words, `kind field=value ..`: shown, and taken from the words.
use arrayvec::ArrayVec;
use lines::{Hex, Text, digits, split_once, text, unhex, word};
use pdu::{Pdu, Service};
use std::fmt;

// The name of a service's PDU.
pub(crate) fn name(service: Service) -> &'static str {
    match service {
        Service::GroupValueRead => "group_read",
        Service::GroupValueResponse => "group_response",
        Service::GroupValueWrite => "group_write",
        Service::IndividualAddressWrite => "address_write",
        Service::IndividualAddressRead => "address_read",
        Service::SerialNumberRead => "serial_read",
        Service::SerialNumberWrite => "serial_write",
        Service::DeviceDescriptorRead => "descriptor_read",
        Service::PropertyValueRead => "property_read",
        Service::PropertyValueWrite => "property_write",
        Service::PropertyDescriptionRead => "description_read",
        Service::MemoryRead => "memory_read",
        Service::MemoryWrite => "memory_write",
        Service::MemoryBitWrite => "memory_bit_write",
        Service::AuthorizeRequest => "authorize_request",
        Service::KeyWrite => "key_write",
        Service::Restart => "restart",
        Service::IndividualAddressResponse => "address_response",
        Service::SerialNumberResponse => "serial_response",
        Service::DeviceDescriptorResponse => "descriptor_response",
        Service::PropertyValueResponse => "property_response",
        Service::PropertyDescriptionResponse => "description_response",
        Service::MemoryResponse => "memory_response",
        Service::AuthorizeResponse => "authorize_response",
        Service::KeyResponse => "key_response",
        Service::UserMemoryRead => "user_memory_read",
        Service::UserMemoryResponse => "user_memory_response",
        Service::UserMemoryWrite => "user_memory_write",
    }
}

static SERVICES: [Service; 28] = [
    Service::GroupValueRead,
    Service::GroupValueResponse,
    Service::GroupValueWrite,
    Service::IndividualAddressWrite,
    Service::IndividualAddressRead,
    Service::SerialNumberRead,
    Service::SerialNumberWrite,
    Service::DeviceDescriptorRead,
    Service::PropertyValueRead,
    Service::PropertyValueWrite,
    Service::PropertyDescriptionRead,
    Service::MemoryRead,
    Service::MemoryWrite,
    Service::MemoryBitWrite,
    Service::AuthorizeRequest,
    Service::KeyWrite,
    Service::Restart,
    Service::IndividualAddressResponse,
    Service::SerialNumberResponse,
    Service::DeviceDescriptorResponse,
    Service::PropertyValueResponse,
    Service::PropertyDescriptionResponse,
    Service::MemoryResponse,
    Service::AuthorizeResponse,
    Service::KeyResponse,
    Service::UserMemoryRead,
    Service::UserMemoryResponse,
    Service::UserMemoryWrite,
];

fn named(word: &[u8]) -> Option<Service> {
    SERVICES
        .iter()
        .copied()
        .find(|&service| name(service).as_bytes() == word)
}

// A PDU's name and its fields.
#[derive(Clone, Copy)]
struct Fields(Pdu);

impl fmt::Display for Fields {
    fn fmt<W: fmt::Write>(&self, f: &mut fmt::Formatter<W>) -> fmt::Result {
        match self.0 {
            Pdu::GroupValueRead => write!(f, "group_read"),
            Pdu::GroupValueResponse { v } => write!(f, "group_response v={v}"),
            Pdu::GroupValueWrite { v } => write!(f, "group_write v={v}"),
            Pdu::IndividualAddressWrite { address } => {
                write!(f, "address_write address={address}")
            }
            Pdu::IndividualAddressRead => write!(f, "address_read"),
            Pdu::SerialNumberRead { serial } => write!(f, "serial_read serial={serial:012x}"),
            Pdu::SerialNumberWrite { serial, address } => {
                write!(f, "serial_write serial={serial:012x} address={address}")
            }
            Pdu::DeviceDescriptorRead { t } => write!(f, "descriptor_read t={t}"),
            Pdu::PropertyValueRead { object, id, n, s } => {
                write!(f, "property_read object={object} id={id} n={n} s={s}")
            }
            Pdu::PropertyValueWrite { object, id, n, s } => {
                write!(f, "property_write object={object} id={id} n={n} s={s}")
            }
            Pdu::PropertyDescriptionRead { object, id, index } => {
                write!(f, "description_read object={object} id={id} index={index}")
            }
            Pdu::MemoryRead { n, address } => write!(f, "memory_read n={n} address={address}"),
            Pdu::MemoryWrite { n, address } => write!(f, "memory_write n={n} address={address}"),
            Pdu::MemoryBitWrite { n, address } => {
                write!(f, "memory_bit_write n={n} address={address}")
            }
            Pdu::AuthorizeRequest { key } => write!(f, "authorize_request key={key:08x}"),
            Pdu::KeyWrite { level, key } => write!(f, "key_write level={level} key={key:08x}"),
            Pdu::Restart => write!(f, "restart"),
            Pdu::IndividualAddressResponse => write!(f, "address_response"),
            Pdu::SerialNumberResponse { serial, domain } => {
                write!(f, "serial_response serial={serial:012x} domain={domain}")
            }
            Pdu::DeviceDescriptorResponse { t } => write!(f, "descriptor_response t={t}"),
            Pdu::PropertyValueResponse { object, id, n, s } => {
                write!(f, "property_response object={object} id={id} n={n} s={s}")
            }
            Pdu::PropertyDescriptionResponse {
                object,
                id,
                index,
                typ,
                maximum,
                access,
            } => {
                write!(
                    f,
                    "description_response object={object} id={id} index={index}"
                )?;
                write!(f, " type={typ} maximum={maximum} access={access}")
            }
            Pdu::MemoryResponse { n, address } => {
                write!(f, "memory_response n={n} address={address}")
            }
            Pdu::AuthorizeResponse { level } => write!(f, "authorize_response level={level}"),
            Pdu::KeyResponse { level } => write!(f, "key_response level={level}"),
            Pdu::UserMemoryRead { n, address } => {
                write!(f, "user_memory_read n={n} address={address}")
            }
            Pdu::UserMemoryResponse { n, address } => {
                write!(f, "user_memory_response n={n} address={address}")
            }
            Pdu::UserMemoryWrite { n, address } => {
                write!(f, "user_memory_write n={n} address={address}")
            }
        }
    }
}

// A PDU and its data, shown in words. Data that its kind does not have is shown too.
#[derive(Clone, Copy)]
pub(crate) struct Words<'a> {
    pub(crate) pdu: Pdu,
    pub(crate) data: &'a [u8],
}

// The AND bytes and the XOR bytes of n bits' data: n of the first, or all from 32 on.
fn halves(n: u8, data: &[u8]) -> (&[u8], &[u8]) {
    if 32 <= n {
        return (data, &[]);
    }
    let n = usize::from(n);
    (data.get(..n).unwrap_or(&[]), data.get(n..).unwrap_or(&[]))
}

impl fmt::Display for Words<'_> {
    fn fmt<W: fmt::Write>(&self, f: &mut fmt::Formatter<W>) -> fmt::Result {
        let fields = Fields(self.pdu);
        let data = Hex(self.data);
        match self.pdu {
            Pdu::MemoryBitWrite { n, .. } => {
                let (and, xor) = halves(n, self.data);
                let (and, xor) = (Hex(and), Hex(xor));
                write!(f, "{fields} and={and} xor={xor}")
            }
            Pdu::GroupValueResponse { .. }
            | Pdu::GroupValueWrite { .. }
            | Pdu::PropertyValueWrite { .. }
            | Pdu::MemoryWrite { .. }
            | Pdu::DeviceDescriptorResponse { .. }
            | Pdu::PropertyValueResponse { .. }
            | Pdu::MemoryResponse { .. }
            | Pdu::UserMemoryResponse { .. }
            | Pdu::UserMemoryWrite { .. } => write!(f, "{fields} data={data}"),
            _ if self.data.is_empty() => write!(f, "{fields}"),
            _ => write!(f, "{fields} data={data}"),
        }
    }
}

// `0` and the PDU in words, or the number of the refusal.
pub(crate) fn answer(apdu: &[u8]) -> Text {
    match pdu::read(apdu) {
        Ok(pdu) => accepted(Words {
            pdu,
            data: pdu::data_of(pdu, apdu),
        }),
        Err(refusal) => text(refusal.number()),
    }
}

pub(crate) fn accepted(words: Words) -> Text {
    text(format_args!("0 {words}"))
}

// The number in the k-th word.
fn field<T: TryFrom<u64>>(words: &[u8], k: usize, base: u64) -> Option<T>
where
    T::Error: Drop,
{
    let (_, value) = split_once(word(words, k), b'=')?;
    digits(value, base)
}

fn decimal<T: TryFrom<u64>>(words: &[u8], k: usize) -> Option<T>
where
    T::Error: Drop,
{
    field(words, k, 10)
}

// A PDU of one number in a byte.
fn octet<F: Fn(u8) -> Pdu>(words: &[u8], pdu: F) -> Option<Pdu>
    requires { F.IsAlwaysCallable pdu }
{
    Some(pdu(decimal(words, 1)?))
}

// A PDU on n bytes of memory.
fn memory<F: Fn(u8, u16) -> Pdu>(words: &[u8], pdu: F) -> Option<Pdu>
    requires { F.IsAlwaysCallable pdu }
{
    Some(pdu(decimal(words, 1)?, decimal(words, 2)?))
}

// A PDU on n elements of a property.
fn property<F: Fn(u8, u8, u8, u16) -> Pdu>(words: &[u8], pdu: F) -> Option<Pdu>
    requires { F.IsAlwaysCallable pdu }
{
    Some(pdu(
        decimal(words, 1)?,
        decimal(words, 2)?,
        decimal(words, 3)?,
        decimal(words, 4)?,
    ))
}

fn address_write(words: &[u8]) -> Option<Pdu> {
    Some(Pdu::IndividualAddressWrite {
        address: decimal(words, 1)?,
    })
}

fn serial_read(words: &[u8]) -> Option<Pdu> {
    Some(Pdu::SerialNumberRead {
        serial: field(words, 1, 16)?,
    })
}

fn serial_write(words: &[u8]) -> Option<Pdu> {
    Some(Pdu::SerialNumberWrite {
        serial: field(words, 1, 16)?,
        address: decimal(words, 2)?,
    })
}

fn serial_response(words: &[u8]) -> Option<Pdu> {
    Some(Pdu::SerialNumberResponse {
        serial: field(words, 1, 16)?,
        domain: decimal(words, 2)?,
    })
}

fn description_read(words: &[u8]) -> Option<Pdu> {
    Some(Pdu::PropertyDescriptionRead {
        object: decimal(words, 1)?,
        id: decimal(words, 2)?,
        index: decimal(words, 3)?,
    })
}

fn description_response(words: &[u8]) -> Option<Pdu> {
    Some(Pdu::PropertyDescriptionResponse {
        object: decimal(words, 1)?,
        id: decimal(words, 2)?,
        index: decimal(words, 3)?,
        typ: decimal(words, 4)?,
        maximum: decimal(words, 5)?,
        access: decimal(words, 6)?,
    })
}

fn authorize_request(words: &[u8]) -> Option<Pdu> {
    Some(Pdu::AuthorizeRequest {
        key: field(words, 1, 16)?,
    })
}

fn key_write(words: &[u8]) -> Option<Pdu> {
    Some(Pdu::KeyWrite {
        level: decimal(words, 1)?,
        key: field(words, 2, 16)?,
    })
}

// The PDU of the kind that the first word names, with the numbers of the words after it.
fn fields_in(words: &[u8]) -> Option<Pdu> {
    match named(word(words, 0))? {
        Service::GroupValueRead => Some(Pdu::GroupValueRead),
        Service::GroupValueResponse => octet(words, |v| Pdu::GroupValueResponse { v }),
        Service::GroupValueWrite => octet(words, |v| Pdu::GroupValueWrite { v }),
        Service::IndividualAddressWrite => address_write(words),
        Service::IndividualAddressRead => Some(Pdu::IndividualAddressRead),
        Service::SerialNumberRead => serial_read(words),
        Service::SerialNumberWrite => serial_write(words),
        Service::DeviceDescriptorRead => octet(words, |t| Pdu::DeviceDescriptorRead { t }),
        Service::PropertyValueRead => property(
            words,
            |object, id, n, s| Pdu::PropertyValueRead { object, id, n, s },
        ),
        Service::PropertyValueWrite => property(
            words,
            |object, id, n, s| Pdu::PropertyValueWrite { object, id, n, s },
        ),
        Service::PropertyDescriptionRead => description_read(words),
        Service::MemoryRead => memory(words, |n, address| Pdu::MemoryRead { n, address }),
        Service::MemoryWrite => memory(words, |n, address| Pdu::MemoryWrite { n, address }),
        Service::MemoryBitWrite => memory(words, |n, address| Pdu::MemoryBitWrite { n, address }),
        Service::AuthorizeRequest => authorize_request(words),
        Service::KeyWrite => key_write(words),
        Service::Restart => Some(Pdu::Restart),
        Service::IndividualAddressResponse => Some(Pdu::IndividualAddressResponse),
        Service::SerialNumberResponse => serial_response(words),
        Service::DeviceDescriptorResponse => octet(words, |t| Pdu::DeviceDescriptorResponse { t }),
        Service::PropertyValueResponse => property(
            words,
            |object, id, n, s| Pdu::PropertyValueResponse { object, id, n, s },
        ),
        Service::PropertyDescriptionResponse => description_response(words),
        Service::MemoryResponse => memory(words, |n, address| Pdu::MemoryResponse { n, address }),
        Service::AuthorizeResponse => octet(words, |level| Pdu::AuthorizeResponse { level }),
        Service::KeyResponse => octet(words, |level| Pdu::KeyResponse { level }),
        Service::UserMemoryRead => memory(words, |n, address| Pdu::UserMemoryRead { n, address }),
        Service::UserMemoryResponse => memory(
            words,
            |n, address| Pdu::UserMemoryResponse { n, address },
        ),
        Service::UserMemoryWrite => memory(words, |n, address| Pdu::UserMemoryWrite { n, address }),
    }
}

// All the data in the words, one after the other.
fn data_in(words: &[u8]) -> Option<ArrayVec<u8, 64>> {
    let mut data = ArrayVec::new();
    for word in words.split(|&c| c == b' ') {
        if let Some((b"data" | b"and" | b"xor", hex)) = split_once(word, b'=') {
            let more = unhex(hex)?;
            data.try_extend_from_slice(more.as_slice()).ok()?;
        }
    }
    Some(data)
}

// The PDU and the data that words show, if they are just what is shown of these.
pub(crate) fn taken(words: &[u8]) -> Option<(Pdu, ArrayVec<u8, 64>)> {
    let pdu = fields_in(words)?;
    let data = data_in(words)?;
    let shown = text(Words {
        pdu,
        data: data.as_slice(),
    });
    if shown.as_slice() == words {
        Some((pdu, data))
    } else {
        None
    }
}
