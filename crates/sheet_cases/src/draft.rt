// Sheets drawn up in a buffer from 01's layout alone, without the crate `sheet`.
ghost use Rattle.std.specs.Prelude.{◌≡◌, ◌+◌, ◌≤◌, ◌<◌};

use lines::copy;

#[derive(Clone, Copy)]
pub(crate) enum Kind {
    Regions,
    Properties,
    Groups,
}

// The sheet, and how many entries of each kind it was drawn up with. Its length stands beside the buffer, since the words can read
// and lay what earlier sheets left behind it.
#[derive(Drop)]
pub(crate) struct Draft {
    pub(crate) bytes: [u8; 16400],
    pub(crate) len: usize,
    pub(crate) regions: u8,
    pub(crate) properties: u8,
    pub(crate) groups: u8,
}

impl Draft {
    pub(crate) fn new() -> Draft {
        Draft {
            bytes: [0; 16400],
            len: 0,
            regions: 0,
            properties: 0,
            groups: 0,
        }
    }

    // No bytes and no entries; the buffer stays as it is.
    pub(crate) fn clear(&mut self) {
        self.len = 0;
        self.regions = 0;
        self.properties = 0;
        self.groups = 0;
    }

    pub(crate) fn sheet(&self) -> &[u8] {
        self.bytes.get(..self.len).unwrap_or(&[])
    }

    pub(crate) fn copy(&mut self, other: &Draft) {
        copy(&mut self.bytes, other.sheet());
        self.len = other.len;
        self.regions = other.regions;
        self.properties = other.properties;
        self.groups = other.groups;
    }

    // Where entry i of a kind stands, or the contents end after the last group.
    pub(crate) fn place(&self, kind: Kind, i: u8) -> usize
        ensures { result < 8192 }
    {
        let i = usize::from(i);
        let properties = 32 + 8 * usize::from(self.regions);
        let groups = properties + 12 * usize::from(self.properties);
        match kind {
            Kind::Regions => 32 + 8 * i,
            Kind::Properties => properties + 12 * i,
            Kind::Groups => groups + 8 * i,
        }
    }

    // Where the contents end.
    pub(crate) fn contents(&self) -> usize
        ensures { result < 8192 }
    {
        self.place(Kind::Groups, self.groups)
    }

    // A number stored in w bytes.
    pub(crate) fn store(&mut self, at: usize, w: usize, x: u64)
        requires { (at < 8200) × (w ≤ 6) }
    {
        octets::put(&mut self.bytes, at, w, x);
    }
}
