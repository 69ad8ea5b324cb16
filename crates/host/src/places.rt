// The C interface of the two slots: the calls of include/kelindap_slots.h.
ghost use Rattle.std.specs.Prelude.{◌≡◌};
ghost use Rattle.slots.specs.Slot.{slot_of, newer_of, target_of};
ghost use Rattle.slots.specs.Parts.{begin_of, more_of, end_of};
ghost use Rattle.slots.specs.Saving.{WorksAs};

use slots::{Judging, Slot, Target, Work};

// What a slot holds.
pub fn kelindap_slot(slot: &[u8]) -> Slot
    ensures { result ≡ slot_of slot.now }
{
    slots::judge(slot)
}

// The front of a slot that has this room.
pub fn kelindap_slot_begin(front: &[u8], room: usize) -> Judging
    ensures { result ≡ begin_of front.now room }
{
    slots::begin(front, room)
}

// The bytes behind it, in parts of any length.
pub fn kelindap_slot_more(judging: Judging, bytes: &[u8]) -> Judging
    ensures { result ≡ more_of judging bytes.now }
{
    slots::more(judging, bytes)
}

// What the slot holds that was handed over.
pub fn kelindap_slot_end(judging: Judging) -> Slot
    ensures { result ≡ end_of judging }
{
    slots::end(judging)
}

// Which of two slots a unit starts with.
pub fn kelindap_slot_newer(first: Slot, second: Slot) -> u8
    ensures { result ≡ newer_of first second }
{
    slots::newer(first, second)
}

// Where the next save goes.
pub fn kelindap_slot_target(first: Slot, second: Slot) -> Target
    ensures { result ≡ target_of first second }
{
    slots::aim(first, second)
}

// A piece of a save.
pub fn kelindap_slot_work(
    sheet: &[u8],
    number: u32,
    room: usize,
    piece: u8,
    buffer: &mut [u8],
) -> Work
    ensures { WorksAs piece number sheet.now room buffer.old result buffer.new }
{
    slots::next_work(sheet, number, room, piece, buffer)
}
