//! The fields of a slot (RFC 9669, section 3).
use std::alloc::AllocError;

/// The fields of a slot, each as the number of its bits.
#[derive(Clone, Copy)]
pub struct Fields {
    pub opcode: u8,
    pub target: u8,
    pub source: u8,
    pub offset: u16,
    pub immediate: u32,
}

impl Fields {
    ghost use Rattle.std.specs.Prelude.{◌≡◌, ◌<◌, ◌^◌, ◌++◌, length, OnOk};
    ghost use Rattle.isa.specs.Spelling.{bytes_of_fields};

    /// The fields that the eight bytes of a slot hold.
    pub fn read(slot: &[u8]) -> Self
        requires { length slot.now ≡ 8 }
        ensures bytes { bytes_of_fields result ≡ slot.now }
        ensures target { result.target < 16 }
        ensures source { result.source < 16 }
        ensures offset { result.offset < 2 ^ 16 }
        ensures immediate { result.immediate < 2 ^ 32 }
    {
        Fields {
            opcode: slot[0],
            target: slot[1] % 16,
            source: slot[1] / 16,
            offset: u16::from_le_bytes([slot[2], slot[3]]),
            immediate: u32::from_le_bytes([slot[4], slot[5], slot[6], slot[7]]),
        }
    }

    /// Adds the eight bytes of the slot.
    ///
    /// # Errors
    /// `AllocError` if an allocation is refused.
    pub fn write(self, bytes: &mut Vec<u8>) -> Result<(), AllocError>
        requires target { self.target < 16 }
        requires source { self.source < 16 }
        ensures { OnOk result (bytes.new.items ≡ bytes.old.items ++ bytes_of_fields self) }
    {
        let offset = self.offset.to_le_bytes();
        let immediate = self.immediate.to_le_bytes();
        bytes.extend_from_slice(&[
            self.opcode,
            16 * self.source + self.target,
            offset[0],
            offset[1],
            immediate[0],
            immediate[1],
            immediate[2],
            immediate[3],
        ])
    }
}
