// A sheet in a buffer. Its length stands beside the buffer, since words can change byte 14 behind a shorter sheet, and what a case
// leaves there is compared too.
use lines::{first, unhex};

#[derive(Clone, Copy)]
pub struct Image {
    pub bytes: [u8; 256],
    pub len: usize,
}

impl Image {
    pub(crate) fn empty() -> Image {
        Image {
            bytes: [0; 256],
            len: 0,
        }
    }

    pub(crate) fn sheet(&mut self) -> &mut [u8] {
        let len = self.len;
        first(&mut self.bytes, len)
    }

    // Bytes stored from a place of the sheet on, if they all stand in it.
    pub(crate) fn poke(&mut self, at: usize, hex: &[u8]) -> Option<()> {
        let bytes = unhex(hex)?;
        let place = self.sheet().get_mut(at..)?.get_mut(..bytes.len())?;
        place.copy_from_slice(bytes.as_slice());
        Some(())
    }

    // The bytes stored from a place of the buffer on, as far as they fit, and the place after them.
    pub(crate) fn put(&mut self, at: usize, bytes: &[u8]) -> usize {
        let Some(place) = self.bytes.get_mut(at..) else {
            return at;
        };
        let n = bytes.len().min(place.len());
        place[..n].copy_from_slice(&bytes[..n]);
        at + n
    }

    // Flags of byte 14 set or cleared.
    pub(crate) fn flag(&mut self, flags: u8, on: bool) {
        if on {
            self.bytes[14] |= flags;
        } else {
            self.bytes[14] &= !flags;
        }
    }
}
