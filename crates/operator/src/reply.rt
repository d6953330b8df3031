//! What a line of the console is answered.
ghost use Rattle.std.specs.Prelude.{◌≡◌};
ghost use Rattle.operator.specs.declared.reply.Reply.TheVariants as reply;
ghost use Rattle.turns.specs.Numbers.{turn_error_number};

use isa::Hook;
use std::fmt;
use worker::TurnError;

/// The answer to a line. What its `Display` writes is printed.
#[derive(Drop)]
pub enum Reply {
    /// A program was published at this hook, which makes at most this number of steps.
    Attached(Hook, u64),
    /// This hook has no program.
    Detached(Hook),
    /// The destination is announced.
    Originated,
    /// A program's price keeps the destination back.
    Withheld,
    /// The destination is not announced.
    Withdrawn,
    /// The turn was refused, with this number.
    Refused(u8),
    /// The line is no command.
    Unknown,
    /// Memory was refused, or the history of the programs has no number left.
    Memory,
    /// The lines that were asked for, as they are printed.
    Lines(String),
}

impl Reply {
    /// The answer to a line whose turn was refused.
    pub fn refused(error: TurnError) -> Reply
        ensures { result ≡ reply.Refused (turn_error_number error) }
    {
        Reply::Refused(error.number())
    }
}

impl fmt::Display for Reply {
    ghost use Rattle.std.specs.Prelude.{Some};
    ghost use Rattle.operator.specs.Texts.{reply_text};

    ghost output = { λ told. Some (reply_text told) };

    fn fmt<W: fmt::Write>(&self, f: &mut fmt::Formatter<W>) -> fmt::Result {
        match self {
            Reply::Attached(hook, bound) => {
                let name = hook.name();
                write!(f, "attached {name} bound {bound}\n")
            }
            Reply::Detached(hook) => {
                let name = hook.name();
                write!(f, "detached {name}\n")
            }
            Reply::Originated => write!(f, "originated\n"),
            Reply::Withheld => write!(f, "withheld\n"),
            Reply::Withdrawn => write!(f, "withdrawn\n"),
            Reply::Refused(number) => write!(f, "refused {number}\n"),
            Reply::Unknown => write!(f, "unknown\n"),
            Reply::Memory => write!(f, "out of memory\n"),
            Reply::Lines(lines) => write!(f, "{lines}"),
        }
    }
}
