// Where the numbers of a sheet stand, by the names of specs/: the head, and the three kinds of entries.

pub mod head {
    pub const SIZE: usize = 32;

    pub const EDITION: usize = 0;

    // the numbers of entries
    pub const REGIONS: usize = 1;

    pub const PROPERTIES: usize = 2;

    pub const GROUPS: usize = 3;

    pub const STATED: usize = 4;

    pub const SERIAL: usize = 6;

    pub const MASK: usize = 12;

    pub const FLAGS: usize = 14;

    pub const BYTE15: usize = 15;

    pub const ADDRESS: usize = 16;

    pub const KEYS: usize = 18;

    pub const RULES: usize = 30;

    pub const ZERO31: usize = 31;
}

// The first word of an entry of any kind.
pub const KEY: usize = 0;

pub mod region {
    pub const SIZE: usize = 8;

    pub const ADDRESS: usize = 0;

    pub const LENGTH: usize = 2;

    pub const OFFSET: usize = 4;

    pub const LEVELS: usize = 6;

    pub const ZERO: usize = 7;
}

pub mod property {
    pub const SIZE: usize = 12;

    pub const OBJECT: usize = 0;

    pub const ID: usize = 1;

    pub const OBJECT_ID: usize = 0;

    pub const TYPE: usize = 2;

    pub const ELEMENT: usize = 3;

    pub const MAXIMUM: usize = 4;

    pub const COUNT: usize = 6;

    pub const OFFSET: usize = 8;

    pub const LEVELS: usize = 10;

    pub const ZERO: usize = 11;
}

pub mod group {
    pub const SIZE: usize = 8;

    pub const ADDRESS: usize = 0;

    pub const CODE: usize = 2;

    pub const FLAGS: usize = 3;

    pub const OFFSET: usize = 4;

    pub const ZEROS: usize = 6;
}
