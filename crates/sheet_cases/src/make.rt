// A whole sheet drawn up, of so many entries of each kind.
use crate::draft::{Draft, Kind};

impl Draft {
    // The fields that no rule reads are FFh.
    fn head(&mut self) {
        let counts = [self.regions, self.properties, self.groups];
        self.bytes[..32].fill(0xff);
        self.bytes[0] = 2;
        self.bytes[1..4].copy_from_slice(&counts);
        self.bytes[14..16].copy_from_slice(&[3, 0]);
        self.bytes[30..32].copy_from_slice(&[0, 0]);
    }

    // Regions of four bytes, one after the other from address 100h.
    fn region(&mut self, i: u8) {
        let at = self.place(Kind::Regions, i);
        self.bytes[at..at + 8].copy_from_slice(&[0, 0, 0, 4, 0, 0, 0x32, 0]);
        self.store(at, 2, 256 + 4 * u64::from(i));
    }

    // Properties 1/1, 1/2 and so on, of at most two elements of two bytes, one of which is there.
    fn property(&mut self, i: u8) {
        let at = self.place(Kind::Properties, i);
        self.bytes[at..at + 12].copy_from_slice(&[1, 0, 0x84, 2, 0, 2, 0, 1, 0, 0, 0x31, 0]);
        self.store(at + 1, 1, 1 + u64::from(i));
    }

    // Groups of one byte, from address 801h.
    fn group(&mut self, i: u8) {
        let at = self.place(Kind::Groups, i);
        self.bytes[at..at + 8].copy_from_slice(&[0, 0, 1, 3, 0, 0, 0, 0]);
        self.store(at, 2, 2049 + u64::from(i));
    }

    pub(crate) fn make(&mut self, regions: u8, properties: u8, groups: u8) -> Option<()> {
        self.regions = regions;
        self.properties = properties;
        self.groups = groups;
        self.head();
        for i in 0..regions {
            self.region(i);
        }
        for i in 0..properties {
            self.property(i);
        }
        for i in 0..groups {
            self.group(i);
        }
        self.lay()
    }
}
