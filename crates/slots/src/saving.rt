// A save as pieces of work, which the host does on its medium one after the other.
ghost use Rattle.std.specs.Prelude.{◌≡◌, ◌+◌, ◌≤◌, ◌<◌, length};
ghost use Rattle.octets.specs.Splice.{splice as spliced};
ghost use Rattle.slots.specs.Slot.{longest};
ghost use Rattle.slots.specs.Saving.{kind_number, work_of, unit_of, WorksAs};

use crate::head::head;
use crate::{LONGEST, Refusal, SHEET_AT, Work};
use octets::{fill, splice};

// The mark's unit and the head's.
const UNIT: usize = 32;

// The kinds of work, as C numbers them.
#[derive(Clone, Copy)]
enum Kind {
    Write = 1,
    Erase = 2,
    Sheet = 3,
}

// Work that is not refused.
fn work(kind: Kind, at: usize, count: usize) -> Work
    ensures { result ≡ record { refusal = 0; work = kind_number kind; at = at; count = count } }
{
    Work {
        refusal: 0,
        work: kind as u8,
        at,
        count,
    }
}

// Piece k of saving the sheet under a number into a slot with this room. C counts the pieces, so k is a number.
#[tactic(auto, using(crate::proofs::Units::unit_mark), unfolding(crate::specs::Saving::work_of, crate::specs::Saving::piece_of, crate::specs::Saving::unit_of))]
pub fn next_work(sheet: &[u8], number: u32, room: usize, k: u8, out: &mut [u8]) -> Work
    ensures { WorksAs k number sheet.now room out.old result out.new }
{
    if out.len() < UNIT {
        return Refusal::Buffer.into();
    }
    if LONGEST < sheet.len() || room < SHEET_AT + sheet.len() {
        return Refusal::NoRoom.into();
    }
    match k {
        0 => {
            fill(out, 0, UNIT, 0);
            work(Kind::Write, 0, UNIT)
        }
        1 => work(Kind::Erase, 0, room),
        2 => {
            splice(out, 0, &head(number, sheet));
            work(Kind::Write, UNIT, UNIT)
        }
        3 => work(Kind::Sheet, SHEET_AT, sheet.len()),
        4 => {
            fill(out, 0, UNIT, 255);
            splice(out, 0, b"KELIND");
            work(Kind::Write, 0, UNIT)
        }
        _ => Work::default(),
    }
}
