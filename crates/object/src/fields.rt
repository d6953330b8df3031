//! The parts of an object file as the numbers that stand in them, valid or not.
ghost use Rattle.std.specs.Prelude.{◌≡◌, ◌+◌, ◌≤◌, ◌++◌, length, drop, take, OnOk};
ghost use Rattle.std.specs.Int.{w16, w32, w64, to_le_bytes};

use std::alloc::AllocError;

/// The number in the two bytes at a place, the lowest byte first.
fn u16_le_at(bytes: &[u8], at: usize) -> u16
    requires { at + 2 ≤ length bytes.now }
    ensures { to_le_bytes w16 result ≡ take 2 (drop at bytes.now) }
{
    u16::from_le_bytes([bytes[at], bytes[at + 1]])
}

/// The number in the four bytes at a place.
pub fn u32_le_at(bytes: &[u8], at: usize) -> u32
    requires { at + 4 ≤ length bytes.now }
    ensures { to_le_bytes w32 result ≡ take 4 (drop at bytes.now) }
{
    u32::from_le_bytes([bytes[at], bytes[at + 1], bytes[at + 2], bytes[at + 3]])
}

/// The number in the eight bytes at a place.
fn u64_le_at(bytes: &[u8], at: usize) -> u64
    requires { at + 8 ≤ length bytes.now }
    ensures { to_le_bytes w64 result ≡ take 8 (drop at bytes.now) }
{
    u64::from_le_bytes([
        bytes[at],
        bytes[at + 1],
        bytes[at + 2],
        bytes[at + 3],
        bytes[at + 4],
        bytes[at + 5],
        bytes[at + 6],
        bytes[at + 7],
    ])
}

fn put_u16_le(out: &mut Vec<u8>, number: u16) -> Result<(), AllocError>
    ensures { OnOk result (out.new.items ≡ out.old.items ++ to_le_bytes w16 number) }
{
    out.extend_from_slice(&number.to_le_bytes())
}

fn put_u32_le(out: &mut Vec<u8>, number: u32) -> Result<(), AllocError>
    ensures { OnOk result (out.new.items ≡ out.old.items ++ to_le_bytes w32 number) }
{
    out.extend_from_slice(&number.to_le_bytes())
}

fn put_u64_le(out: &mut Vec<u8>, number: u64) -> Result<(), AllocError>
    ensures { OnOk result (out.new.items ≡ out.old.items ++ to_le_bytes w64 number) }
{
    out.extend_from_slice(&number.to_le_bytes())
}

/// The numbers in a register's 40 bytes.
#[derive(Clone, Copy)]
pub struct RegisterFields {
    pub kind: u8,
    pub map: u8,
    pub unused: u16,
    pub offset: u32,
    pub low: u64,
    pub high: u64,
    pub mask: u64,
    pub value: u64,
}

impl RegisterFields {
    ghost use Rattle.object.specs.Fields.{AreRegister};
    ghost use Rattle.object.specs.Spelling.{register_bytes, register_front, register_numbers};

    /// The numbers in these 40 bytes.
    pub fn read(bytes: &[u8]) -> RegisterFields
        requires { length bytes.now ≡ 40 }
        ensures bytes { register_bytes result ≡ bytes.now }
        ensures ranges { AreRegister result }
    {
        RegisterFields {
            kind: bytes[0],
            map: bytes[1],
            unused: u16_le_at(bytes, 2),
            offset: u32_le_at(bytes, 4),
            low: u64_le_at(bytes, 8),
            high: u64_le_at(bytes, 16),
            mask: u64_le_at(bytes, 24),
            value: u64_le_at(bytes, 32),
        }
    }

    /// Adds the 40 bytes.
    ///
    /// # Errors
    /// `AllocError` if an allocation is refused.
    pub fn write(self, out: &mut Vec<u8>) -> Result<(), AllocError>
        ensures { OnOk result (out.new.items ≡ out.old.items ++ register_bytes self) }
    {
        self.write_front(out)?;
        self.write_numbers(out)
    }

    fn write_front(self, out: &mut Vec<u8>) -> Result<(), AllocError>
        ensures { OnOk result (out.new.items ≡ out.old.items ++ register_front self) }
    {
        out.extend_from_slice(&[self.kind, self.map])?;
        put_u16_le(out, self.unused)?;
        put_u32_le(out, self.offset)
    }

    fn write_numbers(self, out: &mut Vec<u8>) -> Result<(), AllocError>
        ensures { OnOk result (out.new.items ≡ out.old.items ++ register_numbers self) }
    {
        put_u64_le(out, self.low)?;
        put_u64_le(out, self.high)?;
        put_u64_le(out, self.mask)?;
        put_u64_le(out, self.value)
    }
}

/// The numbers in the first 20 bytes of a statement.
#[derive(Clone, Copy)]
pub struct RankFields {
    pub slot: u32,
    pub constant: u32,
    pub first_register: u8,
    pub second_register: u8,
    pub unused: u16,
    pub first_coefficient: u32,
    pub second_coefficient: u32,
}

impl RankFields {
    ghost use Rattle.object.specs.Fields.{AreRank};
    ghost use Rattle.object.specs.Spelling.{rank_bytes};

    /// The numbers in these 20 bytes.
    pub fn read(bytes: &[u8]) -> RankFields
        requires { length bytes.now ≡ 20 }
        ensures bytes { rank_bytes result ≡ bytes.now }
        ensures ranges { AreRank result }
    {
        RankFields {
            slot: u32_le_at(bytes, 0),
            constant: u32_le_at(bytes, 4),
            first_register: bytes[8],
            second_register: bytes[9],
            unused: u16_le_at(bytes, 10),
            first_coefficient: u32_le_at(bytes, 12),
            second_coefficient: u32_le_at(bytes, 16),
        }
    }

    /// Adds the 20 bytes.
    ///
    /// # Errors
    /// `AllocError` if an allocation is refused.
    pub fn write(self, out: &mut Vec<u8>) -> Result<(), AllocError>
        ensures { OnOk result (out.new.items ≡ out.old.items ++ rank_bytes self) }
    {
        put_u32_le(out, self.slot)?;
        put_u32_le(out, self.constant)?;
        out.extend_from_slice(&[self.first_register, self.second_register])?;
        put_u16_le(out, self.unused)?;
        put_u32_le(out, self.first_coefficient)?;
        put_u32_le(out, self.second_coefficient)
    }
}

/// The numbers after the first four bytes of a header.
#[derive(Clone, Copy)]
pub struct HeaderFields {
    pub version: u8,
    pub hook: u8,
    pub statements: u16,
    pub entry_rank: u32,
    pub slots: u32,
}

impl HeaderFields {
    ghost use Rattle.object.specs.Fields.{AreHeader};
    ghost use Rattle.object.specs.Spelling.{header_bytes};

    /// The numbers in these 12 bytes.
    pub fn read(bytes: &[u8]) -> HeaderFields
        requires { length bytes.now ≡ 12 }
        ensures bytes { header_bytes result ≡ bytes.now }
        ensures ranges { AreHeader result }
    {
        HeaderFields {
            version: bytes[0],
            hook: bytes[1],
            statements: u16_le_at(bytes, 2),
            entry_rank: u32_le_at(bytes, 4),
            slots: u32_le_at(bytes, 8),
        }
    }

    /// Adds the 12 bytes.
    ///
    /// # Errors
    /// `AllocError` if an allocation is refused.
    pub fn write(self, out: &mut Vec<u8>) -> Result<(), AllocError>
        ensures { OnOk result (out.new.items ≡ out.old.items ++ header_bytes self) }
    {
        out.extend_from_slice(&[self.version, self.hook])?;
        put_u16_le(out, self.statements)?;
        put_u32_le(out, self.entry_rank)?;
        put_u32_le(out, self.slots)
    }
}
