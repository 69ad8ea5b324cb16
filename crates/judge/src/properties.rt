// Property values and descriptions.
ghost use Rattle.std.specs.Prelude.{◌≡◌, ℕ, ◌+◌, ◌-◌, ◌*◌, ◌/◌, ◌≤◌, ◌<◌, max, List, ◌&&◌, leb, eqb, length};
ghost use Rattle.octets.specs.Bytes.{num_at};
ghost use Rattle.sheet.specs.Kind.{properties};
ghost use Rattle.sheet.specs.Property as property;
ghost use Rattle.sheet.specs.Entries.{count as count_of, entry, place};
ghost use Rattle.sheet.specs.Lookup.{Finds};
ghost use Rattle.sheet.specs.Places.{IsProperty};
ghost use Rattle.pdu.specs.declared.Pdu.TheVariants.{PropertyValueResponse};
ghost use Rattle.judge.specs.declared.Store.TheVariants as store;
ghost use Rattle.judge.specs.Memory.{may_write};
ghost use Rattle.judge.specs.Properties.{elements as elementsOf, counted as countedOf, element_at, jumped as jumpedOf, no_value, most, read_in};
ghost use Rattle.judge.specs.Properties.{write_in, property_at, property_read_of, property_write_of, described_at, description_of};

use crate::decisions::{answered, denied, written};
use crate::levels::{may_read, may_write};
use crate::{Answer, Decision, Store};
use octets::word;
use pdu::Pdu;
use sheet::{Kind, PropertyEntry, Sheet};

// How many bytes of data a PDU has at most.
const MOST: usize = 10;

// The bytes of a count.
const COUNT: usize = 2;

// The bounds of an element, a place and a count stay clauses of these functions: `PropertyEntry` is a record that definitions of sheet and judge
// build, and a fact in it would have to be shown by each.
// The bytes of so many elements.
fn times(n: usize, element: usize) -> usize
    requires { (n < 65536) × (element ≤ 10) }
    ensures { (result ≡ n * element) × (result ≤ 655350) }
{
    n * element
}

// Where element s of the body from a place on stands, each element having so many bytes.
fn element_at(offset: usize, element: usize, s: usize) -> usize
    requires { (1 ≤ s) × (s ≤ 65535) × (offset ≤ 16384) × (element ≤ 10) }
    ensures { result ≡ element_at offset element s }
{
    offset + times(s - 1, element)
}

// How many elements a write from element s on jumps, so many being counted.
fn jumped(count: usize, s: u16) -> usize
    requires { 1 ≤ s }
    ensures { result ≡ jumpedOf count s }
{
    (s as usize - 1).saturating_sub(count)
}

// The run of a write from element s on: the elements that it jumps as zeros, then the data.
fn run(e: PropertyEntry, s: u16) -> Store
    requires { (1 ≤ s) × (e.element ≤ 10) × (e.offset ≤ 16384) }
    ensures { result ≡ store.Data (jumpedOf e.count s * e.element) (element_at e.offset e.element (s - jumpedOf e.count s)) }
{
    let zeros = jumped(e.count, s);
    Store::Data {
        zeros: times(zeros, e.element),
        at: element_at(e.offset, e.element, s as usize - zeros),
    }
}

// The property may be written at this level.
fn is_writable(typ: u8, levels: u8, level: u8) -> bool
    ensures { result ≡ (eqb (typ / 128) 1 && may_write level levels) }
{
    typ / 128 == 1 && may_write(level, levels)
}

// A request for n elements of a property from element s on, counted from 1, or for their count, which is element 0; at a level.
#[derive(Clone, Copy)]
pub struct PropertyRequest {
    pub level: u8,
    pub object: u8,
    pub id: u8,
    pub n: u8,
    pub s: u16,
}

impl PropertyRequest {
    // The last element.
    fn last(self) -> usize
        requires { 1 ≤ self.n }
        ensures { result ≡ self.s + self.n - 1 }
    {
        self.s as usize + self.n as usize - 1
    }

    // The elements are among the first m.
    fn is_within(self, m: usize) -> bool
        ensures { result ≡ elementsOf self.n self.s m }
    {
        self.s >= 1 && self.n >= 1 && self.last() <= m
    }

    // The count is asked for.
    fn is_count(self) -> bool
        ensures { result ≡ countedOf self.n self.s }
    {
        self.s == 0 && self.n == 1
    }

    // What is answered where it is denied.
    fn no_value(self) -> Decision
        ensures { result ≡ no_value self.object self.id self.s }
    {
        denied(Pdu::PropertyValueResponse {
            object: self.object,
            id: self.id,
            n: 0,
            s: self.s,
        })
    }

    // What is answered where it is not.
    fn response(self) -> Pdu
        ensures { result ≡ PropertyValueResponse self.object self.id self.n self.s }
    {
        Pdu::PropertyValueResponse {
            object: self.object,
            id: self.id,
            n: self.n,
            s: self.s,
        }
    }

    // The elements are counted, and their bytes fit into a PDU.
    fn is_readable(self, count: usize, size: usize) -> bool
        ensures { result ≡ (elementsOf self.n self.s count && leb size most) }
    {
        self.is_within(count) && size <= MOST
    }

    // The count is asked for, and the data is a count of 0.
    fn is_cleared(self, d: &[u8]) -> bool
        ensures { result ≡ (countedOf self.n self.s && eqb (length d.now) (property.count).width && eqb (num_at d.now 0 (property.count).width) 0) }
    {
        d.len() == COUNT && self.is_count() && word(d, 0) == 0
    }

    // The elements are there, and the data has as many bytes as they.
    fn is_stored(self, maximum: usize, size: usize, given: usize) -> bool
        ensures { result ≡ (elementsOf self.n self.s maximum && eqb given size) }
    {
        self.is_within(maximum) && given == size
    }

    // The count becomes the larger of itself and the last element written.
    fn new_count(self, count: usize) -> usize
        requires { 1 ≤ self.n }
        ensures { result ≡ max count (self.s + self.n - 1) }
    {
        count.max(self.last())
    }

    // A read of the property with that entry.
    fn read_in(self, e: PropertyEntry) -> Decision
        requires { (e.element ≤ 10) × (e.offset ≤ 16384) }
        ensures { (t : List ℕ) (i : ℕ) → IsProperty t i e → result ≡ read_in (entry t properties i) self.level self.object self.id self.n self.s }
    {
        if !may_read(self.level, e.levels) {
            return self.no_value();
        }
        if self.is_count() {
            return answered(Answer::Number {
                pdu: self.response(),
                width: COUNT,
                x: e.count as u64,
            });
        }
        let size = times(self.n as usize, e.element);
        if self.is_readable(e.count, size) {
            return answered(Answer::Sheet {
                pdu: self.response(),
                at: element_at(e.offset, e.element, self.s as usize),
                n: size,
            });
        }
        self.no_value()
    }

    // A write of data to the property with that entry.
    fn write_in(self, e: PropertyEntry, d: &[u8]) -> Decision
        requires { (e.element ≤ 10) × (e.offset ≤ 16384) × (e.place ≤ 16384) }
        ensures { (t : List ℕ) (i : ℕ) → IsProperty t i e → result ≡ write_in (entry t properties i) (place t properties i) self.level self.object self.id self.n self.s d.now }
    {
        if !is_writable(e.typ, e.levels, self.level) {
            return self.no_value();
        }
        let at = sheet::count_at(e.place);
        if self.is_cleared(d) {
            return written(
                Store::Fill { at, n: COUNT, b: 0 },
                Store::Nothing,
                Answer::Echo(self.response()),
            );
        }
        let size = times(self.n as usize, e.element);
        if self.is_stored(e.maximum, size, d.len()) {
            let x = self.new_count(e.count) as u64;
            return written(
                run(e, self.s),
                Store::Number {
                    at,
                    width: COUNT,
                    x,
                },
                Answer::Echo(self.response()),
            );
        }
        self.no_value()
    }
}

// The number of the property with that object and id.
fn property_at(s: Sheet<'_>, object: u8, id: u8) -> Option<usize>
    ensures { Finds (count_of s.entry.bytes.now properties) (property_at s.entry.bytes.now object id) result }
{
    s.find(Kind::Properties, object as usize * 256 + id as usize)
}

// A read.
pub fn property_read(s: Sheet<'_>, q: PropertyRequest) -> Decision
    ensures { result ≡ property_read_of s.entry.bytes.now q.level q.object q.id q.n q.s }
{
    let Some(i) = property_at(s, q.object, q.id) else {
        return q.no_value();
    };
    q.read_in(s.property(i))
}

// A write of data, or of 0 to the count.
pub fn property_write(s: Sheet<'_>, q: PropertyRequest, d: &[u8]) -> Decision
    ensures { result ≡ property_write_of s.entry.bytes.now q.level q.object q.id q.n q.s d.now }
{
    let Some(i) = property_at(s, q.object, q.id) else {
        return q.no_value();
    };
    q.write_in(s.property(i), d)
}

// An id other than 0 decides; id 0 means the index within the object.
#[tactic(auto, unfolding(crate::specs::Properties::described_at))]
fn described_at(s: Sheet<'_>, object: u8, id: u8, index: u8) -> Option<usize>
    ensures { Finds (count_of s.entry.bytes.now properties) (described_at s.entry.bytes.now object id index) result }
{
    if id == 0 {
        s.nth(object, index)
    } else {
        property_at(s, object, id)
    }
}

// The entry's own fields, or what was asked.
pub fn description(s: Sheet<'_>, object: u8, id: u8, index: u8) -> Decision
    ensures { result ≡ description_of s.entry.bytes.now object id index }
{
    let Some(i) = described_at(s, object, id, index) else {
        return denied(Pdu::PropertyDescriptionResponse {
            object,
            id,
            index,
            typ: 0,
            maximum: 0,
            access: 0,
        });
    };
    let e = s.property(i);
    answered(Answer::Plain(Pdu::PropertyDescriptionResponse {
        object: e.object,
        id: e.id,
        index: s.rank(e.object, i) as u8,
        typ: e.typ,
        maximum: e.maximum as u16,
        access: e.levels,
    }))
}
