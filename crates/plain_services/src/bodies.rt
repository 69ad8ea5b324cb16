// The bodies with other bytes.
ghost use Rattle.std.specs.Prelude.{◌≡◌, ◌+◌, ◌≤◌, length};
ghost use Rattle.octets.specs.Splice.{splice};
ghost use Rattle.parts.specs.With.{with_bodies};

use parts::Parts;

pub fn with_bodies(mut parts: Parts, bodies: [u8; 16384]) -> Parts
    ensures { result ≡ with_bodies parts bodies }
{
    parts.bodies = bodies;
    parts
}

// With data from a place on.
pub fn with_data(parts: Parts, at: usize, d: &[u8]) -> Parts
    requires { (length parts.bodies ≡ 16384) × (at + length d.now ≤ 16384) }
    ensures { result ≡ with_bodies parts (splice parts.bodies at d.now) }
{
    let mut bodies = parts.bodies;
    octets::splice(&mut bodies, at, d);
    with_bodies(parts, bodies)
}
