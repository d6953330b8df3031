//! What comes of a turn.
ghost use Rattle.std.specs.Prelude.{◌≡◌};
ghost use Rattle.turns.specs.Numbers.{turn_error_number};

use flood::{BookError, CoreError, Out};
use std::alloc::AllocError;
use thiserror::Error;

/// What a turn sends, and after it what the refresh sends that followed it, if one did.
///
/// They are two lists, since joining them could need memory at a point where neither event can be
/// undone.
#[derive(Drop)]
pub struct TurnOutcome {
    pub outs: Vec<Out>,
    pub refreshed: Option<Vec<Out>>,
}

/// Why the book took no event of a turn.
#[derive(Clone, Copy, Debug, PartialEq, Eq, Error)]
pub enum TurnError {
    /// The book refused the event, or an allocation was refused (`CoreError::Memory`).
    #[error("{0}")]
    Book(BookError),
    /// The published programs couldn't be read for `tag`, `price` or `veto`. Of the refresh that
    /// follows a turn also that they were changed since the turn began; but the turn keeps that to
    /// itself, and the next one refreshes.
    #[error("no reading of the programs")]
    Away,
}

impl TurnError {
    /// The number of the refusal: 1 to 7 as the book's, 8 for `Away`.
    pub fn number(self) -> u8
        ensures { result ≡ turn_error_number self }
    {
        match self {
            TurnError::Book(error) => error.number(),
            TurnError::Away => 8,
        }
    }
}

impl From<BookError> for TurnError {
    ghost use Rattle.turns.specs.declared.turned.TurnError.TheVariants.{Book};

    ghost from_gives = { λ r e. e ≡ Book r };

    fn from(e: BookError) -> TurnError {
        TurnError::Book(e)
    }
}

impl From<AllocError> for TurnError {
    ghost use Rattle.event_rules.specs.declared.model.CoreError.TheVariants.{Memory};
    ghost use Rattle.flood.specs.declared.book.error.BookError.TheVariants.{Core};
    ghost use Rattle.turns.specs.declared.turned.TurnError.TheVariants.{Book};

    ghost from_gives = { λ _ e. e ≡ Book (Core Memory) };

    fn from(_e: AllocError) -> TurnError {
        TurnError::Book(BookError::Core(CoreError::Memory))
    }
}
