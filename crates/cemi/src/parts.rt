// The parts of a caller's frame, as they stand there.
ghost use Rattle.std.specs.Prelude.{◌≡◌, ◌≤◌};
ghost use Rattle.cemi.specs.Parts.{PartOf, part_of, part_from, info_of, info_from, tpdu_of, tpdu_from};

use crate::{Frame, layout};

// The n bytes from a place on, and nothing where there are not so many: not `get`, since `PartOf` says that nothing, too, lies in s.
fn part(s: &[u8], at: usize, n: usize) -> &[u8]
    requires { (at ≤ 264) × (n ≤ 256) }
    ensures { PartOf s.entry result (part_of s.now at n) (part_from s.now at n) }
{
    let end = at + n;
    if end <= s.len() { &s[at..end] } else { &s[..0] }
}

// The additional information of a frame.
pub fn info(f: Frame, frame: &[u8]) -> &[u8]
    ensures { PartOf frame.entry result (info_of f frame.now) (info_from f frame.now) }
{
    part(frame, layout::INFO, f.info as usize)
}

// Its bytes from octet 6 on.
pub fn tpdu(f: Frame, frame: &[u8]) -> &[u8]
    ensures { PartOf frame.entry result (tpdu_of f frame.now) (tpdu_from f frame.now) }
{
    part(
        frame,
        layout::INFO + f.info as usize + layout::SIZE,
        f.stated as usize + 1,
    )
}
