// Memory: read, write and bit write.
ghost use Rattle.std.specs.Prelude.{◌≡◌};
ghost use Rattle.judge.specs.Memory.{verifies as verifiesOf, memory_read_of, memory_write_of, bit_write_of};

use crate::decisions::{answered, denied, refused, stored, written};
use crate::levels::may;
use crate::{Access, Answer, Decision, Refusal, Store};
use pdu::Pdu;
use sheet::{Memory, Sheet};

// How many bytes a read or write of the device's memory and of the user memory, and a bit write, may name.
const MOST_BYTES: u8 = 12;

const MOST_USER_BYTES: u8 = 11;

const MOST_BITS: u8 = 5;

// A request for n bytes of a memory from an address on, at a level.
#[derive(Clone, Copy)]
pub struct MemoryRequest {
    pub memory: Memory,
    pub level: u8,
    pub n: u8,
    pub address: u16,
}

impl MemoryRequest {
    ghost use Rattle.std.specs.Prelude.{ℕ, true, false};
    ghost use Rattle.sheet.specs.Lookup.{range_of};
    ghost use Rattle.judge.specs.declared.Store.{Store};
    ghost use Rattle.judge.specs.Memory.{most_bytes, response_of, Placed, change_of};

    // How many bytes a read or write may name.
    fn most(self) -> u8
        ensures { result ≡ most_bytes self.memory }
    {
        match self.memory {
            Memory::Device => MOST_BYTES,
            Memory::User => MOST_USER_BYTES,
        }
    }

    // What the memory answers with, of so many bytes.
    fn response(self, n: u8) -> Pdu
        ensures { result ≡ response_of self.memory n self.address }
    {
        let address = self.address;
        match self.memory {
            Memory::Device => Pdu::MemoryResponse { n, address },
            Memory::User => Pdu::UserMemoryResponse { n, address },
        }
    }

    // The bytes at a place of the sheet as the answer.
    fn shown(self, at: usize) -> Answer
        ensures { result ≡ Answer.Sheet (response_of self.memory self.n self.address) at self.n }
    {
        Answer::Sheet {
            pdu: self.response(self.n),
            at,
            n: self.n as usize,
        }
    }

    // Where the bytes start in the sheet, if it has them all, they are no more than `most`, and the level suffices for the access.
    fn place(self, s: Sheet<'_>, w: Access, most: u8) -> Option<usize>
        ensures { Placed w most self.level self.n (range_of s.entry.bytes.now self.memory self.address self.n) result }
    {
        let run = s.range(self.memory, self.address as usize, self.n as usize)?;
        if (1..=most).contains(&self.n) && may(w, self.level, run.levels) {
            Some(run.offset)
        } else {
            None
        }
    }

    // What a write does that is not permitted: it is denied, with an answer if verify is on.
    #[tactic(auto, unfolding(crate::specs::Memory::change_of))]
    fn unwritten(self, verify: bool) -> Decision
        ensures { (new : Store) (o : ℕ) → result ≡ change_of self.memory false verify new o self.n self.address }
    {
        if verify {
            denied(self.response(0))
        } else {
            refused(Refusal::Silent)
        }
    }

    // What one does that is: it stores, and the new bytes are answered if verify is on.
    #[tactic(auto, unfolding(crate::specs::Memory::change_of))]
    fn changed(self, verify: bool, new: Store, at: usize) -> Decision
        ensures { result ≡ change_of self.memory true verify new at self.n self.address }
    {
        if verify {
            written(new, Store::Nothing, self.shown(at))
        } else {
            stored(new)
        }
    }
}

// Memory writes are answered.
fn verifies(s: Sheet<'_>) -> bool
    ensures { result ≡ verifiesOf s.entry.bytes.now }
{
    s.flags() / 2 % 2 == 1
}

// A read.
pub fn memory_read(s: Sheet<'_>, q: MemoryRequest) -> Decision
    ensures { result ≡ memory_read_of s.entry.bytes.now q.memory q.level q.n q.address }
{
    let Some(at) = q.place(s, Access::Read, q.most()) else {
        return denied(q.response(0));
    };
    answered(q.shown(at))
}

// A write of the request's bytes.
pub fn memory_write(s: Sheet<'_>, q: MemoryRequest) -> Decision
    ensures { result ≡ memory_write_of s.entry.bytes.now q.memory q.level q.n q.address }
{
    let verify = verifies(s);
    let Some(at) = q.place(s, Access::Write, q.most()) else {
        return q.unwritten(verify);
    };
    q.changed(verify, Store::Data { zeros: 0, at }, at)
}

// A bit write: of the device's memory alone. Access, limit and store differ from a write's, so one function of both would be handed
// all three, and is no plainer.
pub fn bit_write(s: Sheet<'_>, level: u8, n: u8, address: u16) -> Decision
    ensures { result ≡ bit_write_of s.entry.bytes.now level n address }
{
    let q = MemoryRequest {
        memory: Memory::Device,
        level,
        n,
        address,
    };
    let verify = verifies(s);
    let Some(at) = q.place(s, Access::Change, MOST_BITS) else {
        return q.unwritten(verify);
    };
    q.changed(verify, Store::Bits { at, n: n as usize }, at)
}
