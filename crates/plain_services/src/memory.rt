// Memory and user memory: read and write, and bit write of memory.
ghost use Rattle.std.specs.Prelude.{◌≡◌, [], ◌+◌, ◌≤◌, length};
ghost use Rattle.octets.specs.Splice.{splice};
ghost use Rattle.judge.specs.Memory.{response_of, most_bytes, memory_read_of, memory_write_of, bit_write_of};
ghost use Rattle.device.specs.Carry.{build, bit_at};
ghost use Rattle.plain_services.specs.Steps.{Held, Serves};
ghost use Rattle.plain_services.specs.Memory.{NotWritten, Written};

use crate::bodies::{with_bodies, with_data};
use crate::ranges::{area, range};
use crate::replies::{answered, denied, done, refused};
use crate::{Refusal, Reply};
use judge::Access;
use parts::Parts;
use pdu::Pdu;
use sheet::Memory;

// What a memory answers with.
fn response(memory: Memory, n: u8, address: u16) -> Pdu
    ensures { result ≡ response_of memory n address }
{
    match memory {
        Memory::Device => Pdu::MemoryResponse { n, address },
        Memory::User => Pdu::UserMemoryResponse { n, address },
    }
}

// How many bytes of a memory may be named.
fn most(memory: Memory) -> u8
    ensures { (result ≡ most_bytes memory) × (result ≤ 12) }
{
    match memory {
        Memory::Device => 12,
        Memory::User => 11,
    }
}

// A read of n bytes from an address on.
pub fn memory_read(parts: Parts, memory: Memory, level: u8, n: u8, address: u16) -> Reply
    requires { Held parts }
    ensures { Serves parts [] (λ s. memory_read_of s memory level n address) result }
{
    let area = area(parts, memory);
    let Some(at) = range(area, Access::Read, level, most(memory), n, address) else {
        return denied(parts, response(memory, 0, address));
    };
    let bodies = parts.bodies;
    let answer = response(memory, n, address);
    answered(parts, answer, &bodies[at..at + n as usize])
}

// A write is denied: 11 with the negative answer if verify is on, else 12.
fn not_written(parts: Parts, memory: Memory, address: u16) -> Reply
    ensures { NotWritten parts memory address result }
{
    if parts.head.verify {
        return denied(parts, response(memory, 0, address));
    }
    refused(parts, Refusal::Silent)
}

// A write is done: 0 with the n bytes that then stand there if verify is on, else 1.
fn written(parts: Parts, memory: Memory, n: u8, address: u16, at: usize) -> Reply
    requires { (length parts.bodies ≡ 16384) × (n ≤ 14) × (at + n ≤ 16384) }
    ensures { Written parts memory n address at result }
{
    if !parts.head.verify {
        return done(parts);
    }
    let bodies = parts.bodies;
    let answer = response(memory, n, address);
    answered(parts, answer, &bodies[at..at + n as usize])
}

// A write of n bytes from an address on.
pub fn memory_write(parts: Parts, memory: Memory, level: u8, n: u8, address: u16, d: &[u8]) -> Reply
    requires { Held parts × (length d.now ≡ n) }
    ensures { Serves parts d.now (λ s. memory_write_of s memory level n address) result }
{
    let area = area(parts, memory);
    let Some(at) = range(area, Access::Write, level, most(memory), n, address) else {
        return not_written(parts, memory, address);
    };
    written(with_data(parts, at, d), memory, n, address, at)
}

// The bodies with n bytes from a place on changed to (old AND a) XOR x, the data being n AND bytes and n XOR bytes.
fn with_bits(mut bodies: [u8; 16384], at: usize, n: u8, d: &[u8]) -> [u8; 16384]
    requires { (length bodies ≡ 16384) × (at + n ≤ 16384) × (length d.now ≡ n + n) }
    ensures { result ≡ splice bodies at (build n (bit_at bodies at n d.now)) }
{
    let many = n as usize;
    for i in 0..many {
        bodies[at + i] = (bodies[at + i] & d[i]) ^ d[many + i];
    }
    bodies
}

// A bit write of 1 to 5 bytes of memory.
pub fn bit_write(parts: Parts, level: u8, n: u8, address: u16, d: &[u8]) -> Reply
    requires { Held parts × (length d.now ≡ n + n) }
    ensures { Serves parts d.now (λ s. bit_write_of s level n address) result }
{
    let area = area(parts, Memory::Device);
    let Some(at) = range(area, Access::Change, level, 5, n, address) else {
        return not_written(parts, Memory::Device, address);
    };
    let old = parts.bodies;
    let after = with_bodies(parts, with_bits(old, at, n, d));
    written(after, Memory::Device, n, address, at)
}
