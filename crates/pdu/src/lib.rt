// The PDU layer: reads and writes the PDUs of the service table.
#![tactic(auto)]

ghost use Rattle.std.specs.Prelude.{◌≡◌, ◌+◌, ◌≤◌, length};
ghost use Rattle.octets.specs.Octets.{ReadFrom};
ghost use Rattle.octets.specs.Splice.{splice};
ghost use Rattle.pdu.specs.Table.{service_at};
ghost use Rattle.pdu.specs.Rules.{code_of};
ghost use Rattle.pdu.specs.Read.{read_number, read_pdu, read_outcome, data_at, data_of};
ghost use Rattle.pdu.specs.Write.{write_number, encoded, Wrote};

mod fields;
mod head;
mod parse;
mod rules;

// The services, then the answers, then those of user memory, in the table's order.
#[derive(Clone, Copy)]
pub enum Service {
    GroupValueRead,
    GroupValueResponse,
    GroupValueWrite,
    IndividualAddressWrite,
    IndividualAddressRead,
    SerialNumberRead,
    SerialNumberWrite,
    DeviceDescriptorRead,
    PropertyValueRead,
    PropertyValueWrite,
    PropertyDescriptionRead,
    MemoryRead,
    MemoryWrite,
    MemoryBitWrite,
    AuthorizeRequest,
    KeyWrite,
    Restart,
    IndividualAddressResponse,
    SerialNumberResponse,
    DeviceDescriptorResponse,
    PropertyValueResponse,
    PropertyDescriptionResponse,
    MemoryResponse,
    AuthorizeResponse,
    KeyResponse,
    UserMemoryRead,
    UserMemoryResponse,
    UserMemoryWrite,
}

// A PDU with its fields; its data stays in the APDU.
#[derive(Clone, Copy)]
pub enum Pdu {
    GroupValueRead,
    GroupValueResponse {
        v: u8,
    },
    GroupValueWrite {
        v: u8,
    },
    IndividualAddressWrite {
        address: u16,
    },
    IndividualAddressRead,
    SerialNumberRead {
        serial: u64,
    },
    SerialNumberWrite {
        serial: u64,
        address: u16,
    },
    DeviceDescriptorRead {
        t: u8,
    },
    PropertyValueRead {
        object: u8,
        id: u8,
        n: u8,
        s: u16,
    },
    PropertyValueWrite {
        object: u8,
        id: u8,
        n: u8,
        s: u16,
    },
    PropertyDescriptionRead {
        object: u8,
        id: u8,
        index: u8,
    },
    MemoryRead {
        n: u8,
        address: u16,
    },
    MemoryWrite {
        n: u8,
        address: u16,
    },
    MemoryBitWrite {
        n: u8,
        address: u16,
    },
    AuthorizeRequest {
        key: u32,
    },
    KeyWrite {
        level: u8,
        key: u32,
    },
    Restart,
    IndividualAddressResponse,
    SerialNumberResponse {
        serial: u64,
        domain: u16,
    },
    DeviceDescriptorResponse {
        t: u8,
    },
    PropertyValueResponse {
        object: u8,
        id: u8,
        n: u8,
        s: u16,
    },
    PropertyDescriptionResponse {
        object: u8,
        id: u8,
        index: u8,
        typ: u8,
        maximum: u16,
        access: u8,
    },
    MemoryResponse {
        n: u8,
        address: u16,
    },
    AuthorizeResponse {
        level: u8,
    },
    KeyResponse {
        level: u8,
    },
    UserMemoryRead {
        n: u8,
        address: u16,
    },
    UserMemoryResponse {
        n: u8,
        address: u16,
    },
    UserMemoryWrite {
        n: u8,
        address: u16,
    },
}

// Why an APDU is not read, by the number of the refusal.
#[derive(Clone, Copy, PartialEq, Eq)]
pub enum ReadRefusal {
    Length = 5,
    Service = 8,
    Fields = 10,
}

impl ReadRefusal {
    pub fn number(self) -> u8
        ensures { result ≡ read_number self }
    {
        self as u8
    }
}

// Why a PDU is not written, by the number of the refusal.
#[derive(Clone, Copy, PartialEq, Eq)]
pub enum WriteRefusal {
    Room = 3,
    Fields = 13,
}

impl WriteRefusal {
    pub fn number(self) -> u8
        ensures { result ≡ write_number self }
    {
        self as u8
    }
}

// The service code of an APDU; missing bytes count as 0.
pub fn code(apdu: &[u8]) -> u16
    ensures { result ≡ code_of apdu.now }
{
    (octets::number(apdu, 0, 2) % 1024) as u16
}

// What a code names, whatever the APDU's length.
#[tactic(auto, using(crate::proofs::Find::named_by, crate::proofs::Find::unnamed))]
pub fn service_of(code: u16) -> Option<Service>
    ensures { result ≡ service_at code }
{
    match code {
        0x000 => Some(Service::GroupValueRead),
        0x040..=0x07F => Some(Service::GroupValueResponse),
        0x080..=0x0BF => Some(Service::GroupValueWrite),
        0x0C0 => Some(Service::IndividualAddressWrite),
        0x100 => Some(Service::IndividualAddressRead),
        0x140 => Some(Service::IndividualAddressResponse),
        0x200..=0x20F => Some(Service::MemoryRead),
        0x240..=0x24F => Some(Service::MemoryResponse),
        0x280..=0x28F => Some(Service::MemoryWrite),
        0x2C0 => Some(Service::UserMemoryRead),
        0x2C1 => Some(Service::UserMemoryResponse),
        0x2C2 => Some(Service::UserMemoryWrite),
        0x300..=0x33F => Some(Service::DeviceDescriptorRead),
        0x340..=0x37F => Some(Service::DeviceDescriptorResponse),
        0x380 => Some(Service::Restart),
        0x3D0 => Some(Service::MemoryBitWrite),
        0x3D1 => Some(Service::AuthorizeRequest),
        0x3D2 => Some(Service::AuthorizeResponse),
        0x3D3 => Some(Service::KeyWrite),
        0x3D4 => Some(Service::KeyResponse),
        0x3D5 => Some(Service::PropertyValueRead),
        0x3D6 => Some(Service::PropertyValueResponse),
        0x3D7 => Some(Service::PropertyValueWrite),
        0x3D8 => Some(Service::PropertyDescriptionRead),
        0x3D9 => Some(Service::PropertyDescriptionResponse),
        0x3DC => Some(Service::SerialNumberRead),
        0x3DD => Some(Service::SerialNumberResponse),
        0x3DE => Some(Service::SerialNumberWrite),
        _ => None,
    }
}

// The PDU in bytes whose code names what is found.
pub fn read_found(found: Option<Service>, apdu: &[u8]) -> Result<Pdu, ReadRefusal>
    requires { found ≡ service_at (code_of apdu.now) }
    ensures { result ≡ read_pdu apdu.now }
{
    if apdu.len() < 2 || 16 < apdu.len() {
        return Err(ReadRefusal::Length);
    }
    match found {
        Some(k) => parse::judged(k, apdu),
        None => Err(ReadRefusal::Service),
    }
}

// The PDU in the bytes.
pub fn read(apdu: &[u8]) -> Result<Pdu, ReadRefusal>
    ensures { ReadFrom apdu.now result (read_pdu apdu.now) }
{
    read_found(service_of(code(apdu)), apdu)
}

// The outcome of a reading by its number.
pub fn outcome(parsed: Result<Pdu, ReadRefusal>) -> u8
    ensures { result ≡ read_outcome parsed }
{
    match parsed {
        Ok(_) => 0,
        Err(e) => e.number(),
    }
}

// The data of a PDU that was read from the bytes.
#[tactic(auto, unfolding(crate::specs::Read::data_of))]
pub fn data_of(pdu: Pdu, apdu: &[u8]) -> &[u8]
    ensures { result.now ≡ data_of pdu apdu.now }
{
    &apdu[head::data_at(pdu).min(apdu.len())..]
}

// The bytes of a PDU that has room, at the front of out: their count.
#[tactic(auto, using(crate::proofs::promises::Writing::put_all))]
pub fn encode(pdu: Pdu, data: &[u8], out: &mut [u8]) -> usize
    requires { (16 ≤ length out.old) × (data_at pdu + length «data».now ≤ 16) }
    ensures { (result ≡ data_at pdu + length «data».now) × (out.new ≡ splice out.old 0 (encoded pdu «data».now)) }
{
    let at = head::data_at(pdu);
    head::put_head(pdu, out);
    octets::splice(out, at, data);
    at + data.len()
}

// The PDU's bytes at the front of out: their count. On a refusal out is as it was.
pub fn write(pdu: Pdu, data: &[u8], out: &mut [u8]) -> Result<usize, WriteRefusal>
    ensures { Wrote pdu «data».now out.old result out.new }
{
    let at = head::data_at(pdu);
    let n = at + data.len();
    if out.len() < 16 {
        return Err(WriteRefusal::Room);
    }
    if 16 < n || !rules::allowed(pdu, n) {
        return Err(WriteRefusal::Fields);
    }
    Ok(encode(pdu, data, out))
}
