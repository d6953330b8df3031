//! The reasons why the machine is stuck.

/// Why the machine is stuck: it can't execute an instruction at its state.
///
/// If several reasons hold, the one with the least number counts, except that `Helper` comes first
/// at a call.
#[derive(Clone, Copy, PartialEq, Eq, Debug)]
pub enum Fault {
    /// 1: the slot isn't in the code.
    Outside,
    /// 2: the slot is the second half of a wide instruction.
    HalfWide,
    /// 3: an empty register or stack byte is read.
    Empty,
    /// 4: a pointer is used where only a number may be, or vice versa; a read-only region is
    /// written; pieces of a pointer are not read as all eight at once; or there is no map with the
    /// number.
    Kind,
    /// 5: the bytes of a load or store don't all lie in its region.
    Bounds,
    /// 6: a load or store in a map isn't of eight bytes at a multiple of eight.
    Align,
    /// 7: the hook has no helper with the number.
    Helper,
    /// 8: a helper's argument is too large.
    Argument,
    /// 9: r10 is written.
    Frame,
    /// 10: r0 holds a pointer at EXIT.
    ExitKind,
}

impl Fault {
    ghost use Rattle.std.specs.Prelude.{◌≡◌};
    ghost use Rattle.machine.specs.Faults.{fault_number};

    /// Its number, from 1 to 10.
    pub fn number(self) -> u8
        ensures { result ≡ fault_number self }
    {
        match self {
            Fault::Outside => 1,
            Fault::HalfWide => 2,
            Fault::Empty => 3,
            Fault::Kind => 4,
            Fault::Bounds => 5,
            Fault::Align => 6,
            Fault::Helper => 7,
            Fault::Argument => 8,
            Fault::Frame => 9,
            Fault::ExitKind => 10,
        }
    }
}
