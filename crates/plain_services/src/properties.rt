// Properties: read, write and description.
ghost use Rattle.std.specs.Prelude.{◌≡◌, [], length, ◌+◌, ◌-◌, ◌*◌, ◌≤◌, ◌<◌, max};
ghost use Rattle.octets.specs.Splice.{splice};
ghost use Rattle.device.specs.Carry.{padded};
ghost use Rattle.judge.specs.declared.Turn.TheVariants.{Stays};
ghost use Rattle.pdu.specs.declared.Pdu.TheVariants.{PropertyValueResponse};
ghost use Rattle.judge.specs.Properties.{property_at, elements as elementsOf, jumped as jumpedOf, element_at, property_read_of, property_write_of, description_of};
ghost use Rattle.sheet.specs.Lookup.{nth_of};
ghost use Rattle.plain_services.specs.Described.{rank_in};
ghost use Rattle.plain_services.specs.Found.{Finds};
ghost use Rattle.plain_services.specs.Steps.{Held, Gives, Serves};
ghost use Rattle.parts.specs.With.{with_count, with_bodies};

use crate::Reply;
use crate::bodies::with_bodies;
use crate::replies::{answered, denied};
use parts::{Parts, Property};
use pdu::Pdu;

// The number of the property with that object and id. By `position` it was tried: what the search then says of the parts did not close.
fn find(parts: Parts, object: u8, id: u8) -> Option<usize>
    requires { Held parts }
    ensures { Finds parts parts.counts.properties (λ s. property_at s object id) result }
{
    for i in 0..parts.counts.properties {
        if parts.properties[i].object == object && parts.properties[i].id == id {
            return Some(i);
        }
    }
    None
}

// n elements from element s on, counted from 1, are among the first m.
fn are_among(n: u8, s: u16, m: u16) -> bool
    ensures { result ≡ elementsOf n s m }
{
    1 <= s && 1 <= n && s as usize + n as usize - 1 <= m as usize
}

// The bytes of so many elements.
fn size_of(p: Property, n: usize) -> usize
    requires { (n ≤ 65535) × (p.size ≤ 255) }
    ensures { (result ≡ n * p.size) × (result ≤ 16711425) }
{
    n * p.size as usize
}

// Not allowed: the answer has no element.
fn no_element(parts: Parts, object: u8, id: u8, s: u16) -> Reply
    ensures { Gives result 11 parts Stays (Some (PropertyValueResponse object id 0 s)) [] }
{
    let n = 0;
    denied(parts, Pdu::PropertyValueResponse { object, id, n, s })
}

// A read of a property.
pub fn property_read(parts: Parts, level: u8, object: u8, id: u8, n: u8, s: u16) -> Reply
    requires { Held parts }
    ensures { Serves parts [] (λ t. property_read_of t level object id n s) result }
{
    // Allowed if the entry exists, level <= its read level,
    let Some(i) = find(parts, object, id) else {
        return no_element(parts, object, id, s);
    };
    let p = parts.properties[i];
    if p.read < level {
        return no_element(parts, object, id, s);
    }
    let answer = Pdu::PropertyValueResponse { object, id, n, s };
    // and either s = 0 and n = 1 (answer: current count, two bytes),
    if s == 0 && n == 1 {
        return answered(parts, answer, &p.count.to_be_bytes());
    }
    // or s >= 1, n >= 1, s+n-1 <= current count and n·size <= 10.
    let size = size_of(p, n as usize);
    if !are_among(n, s, p.count) || 10 < size {
        return no_element(parts, object, id, s);
    }
    let at = p.offset as usize + size_of(p, s as usize - 1);
    let bodies = parts.bodies;
    answered(parts, answer, &bodies[at..at + size])
}

// How many elements a write from element s on jumps.
fn jumped(p: Property, s: u16) -> usize
    requires { 1 ≤ s }
    ensures { result ≡ jumpedOf p.count s }
{
    (s - 1).saturating_sub(p.count) as usize
}

// The elements that are jumped as zeros, then the data from element s on.
fn with_elements(parts: Parts, p: Property, s: u16, d: &[u8]) -> Parts
    requires { (length parts.bodies ≡ 16384) × (1 ≤ s) × (element_at p.offset p.size (s - jumpedOf p.count s) + (jumpedOf p.count s * p.size + length d.now) ≤ 16384) }
    ensures { result ≡ with_bodies parts (splice parts.bodies (element_at p.offset p.size (s - jumpedOf p.count s)) (padded (jumpedOf p.count s * p.size) d.now)) }
{
    let zeros = jumped(p, s);
    let from = p.offset as usize + size_of(p, s as usize - 1 - zeros);
    let size = size_of(p, zeros);
    let mut bodies = parts.bodies;
    octets::fill(&mut bodies, from, size, 0);
    octets::splice(&mut bodies, from + size, d);
    with_bodies(parts, bodies)
}

// Another count for property i.
fn with_count(mut parts: Parts, i: usize, count: u16) -> Parts
    requires { i < 64 }
    ensures { result ≡ with_count parts i count }
{
    parts.properties[i].count = count;
    parts
}

// The larger of the count and s+n-1.
fn new_count(p: Property, n: u8, s: u16) -> u16
    requires { (1 ≤ n) × (1 ≤ s) × (s + n - 1 ≤ p.maximum) }
    ensures { result ≡ max p.count (s + n - 1) }
{
    p.count.max(s - 1 + n as u16)
}

// A write of data to a property. It begins as a read does; each is one paragraph of the rules, and both are read against it.
pub fn property_write(parts: Parts, level: u8, object: u8, id: u8, n: u8, s: u16, d: &[u8]) -> Reply
    requires { Held parts × (length d.now ≤ 14) }
    ensures { Serves parts d.now (λ t. property_write_of t level object id n s d.now) result }
{
    // Allowed if the entry exists, is writable, level <= its write level,
    let Some(i) = find(parts, object, id) else {
        return no_element(parts, object, id, s);
    };
    let p = parts.properties[i];
    if !p.writable || p.write < level {
        return no_element(parts, object, id, s);
    }
    let answer = Pdu::PropertyValueResponse { object, id, n, s };
    // and either s = 0, n = 1 and the data is 00 00 (count becomes 0, elements keep their bytes),
    if s == 0 && n == 1 && d.len() == 2 && octets::word(d, 0) == 0 {
        return answered(with_count(parts, i, 0), answer, d);
    }
    // or s >= 1, n >= 1, s+n-1 <= maximum and the data is n·size bytes.
    let size = size_of(p, n as usize);
    if !are_among(n, s, p.maximum) || d.len() != size {
        return no_element(parts, object, id, s);
    }
    // Elements jumped become zero bytes. The count becomes the larger of itself and s+n-1. The answer repeats the data.
    let filled = with_elements(parts, p, s, d);
    let after = with_count(filled, i, new_count(p, n, s));
    answered(after, answer, d)
}

// How many of the first i properties have that object: the index of property i within it.
fn index_within(properties: [Property; 64], i: usize, object: u8) -> usize
    requires { i ≤ 64 }
    ensures { (result ≤ i) × (result ≡ rank_in properties object i) }
{
    let mut seen = 0;
    for j in 0..i {
        if properties[j].object == object {
            seen += 1;
        }
    }
    seen
}

// The number of the property of that object with that index.
fn nth(parts: Parts, object: u8, index: u8) -> Option<usize>
    requires { Held parts }
    ensures { Finds parts parts.counts.properties (λ s. nth_of s object index) result }
{
    let properties = parts.properties;
    for i in 0..parts.counts.properties {
        if properties[i].object == object && index_within(properties, i, object) == index as usize {
            return Some(i);
        }
    }
    None
}

// The description of a property.
pub fn description(parts: Parts, object: u8, id: u8, index: u8) -> Reply
    requires { Held parts }
    ensures { Serves parts [] (λ s. description_of s object id index) result }
{
    // An id other than 0 decides; id 0 means the index within the object.
    let found = if id == 0 {
        nth(parts, object, index)
    } else {
        find(parts, object, id)
    };
    // Not found: what was asked for, and zeros.
    let Some(i) = found else {
        let none = Pdu::PropertyDescriptionResponse {
            object,
            id,
            index,
            typ: 0,
            maximum: 0,
            access: 0,
        };
        return denied(parts, none);
    };
    // Found: the property's own object, id and index.
    let p = parts.properties[i];
    let own = Pdu::PropertyDescriptionResponse {
        object: p.object,
        id: p.id,
        index: index_within(parts.properties, i, p.object) as u8,
        typ: parts::type_byte(p),
        maximum: p.maximum,
        access: parts::levels_byte(p.read, p.write),
    };
    answered(parts, own, &[])
}
