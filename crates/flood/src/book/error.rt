//! Why a book takes no event.
ghost use Rattle.std.specs.Prelude.{◌≡◌, false, true};
ghost use Rattle.flood.specs.Numbers.{book_error_number};

use crate::event::Event;
use event_rules::CoreError;
use std::alloc::AllocError;
use thiserror::Error;

/// Why a book refused an event. The router is as it was; `apply_with_marks` may have marked the
/// book.
#[derive(Clone, Copy, Debug, PartialEq, Eq, Error)]
pub enum BookError {
    /// The router refused it, or an allocation was refused (`CoreError::Memory`).
    #[error("{0}")]
    Core(CoreError),
    /// The book has taken [`MAX_TAKEN`](crate::MAX_TAKEN) events; or, from `apply` alone, its
    /// journal holds [`MAX_JOURNAL`](crate::MAX_JOURNAL) events. It is tried first.
    #[error("the book takes no more events")]
    Journal,
}

/// An event that a book refused, and why: it can be tried again.
#[derive(Drop)]
pub(crate) struct Refused {
    pub(crate) error: BookError,
    pub(crate) event: Event,
}

impl Refused {
    pub(crate) fn new(error: BookError, event: Event) -> Self
        ensures { result ≡ record { error = error; event = event } }
    {
        Refused { error, event }
    }

    /// Whether the event was refused because an allocation was.
    pub(crate) fn is_short(&self) -> bool
        ensures short { result ≡ true → self.now.error ≡ BookError.Core CoreError.Memory }
        ensures other { result ≡ false → self.now.error ≡ BookError.Core CoreError.Memory → ⊥ }
    {
        matches!(self.error, BookError::Core(CoreError::Memory))
    }
}

impl BookError {
    /// The number of the refusal: 1 to 6 as the router's, 7 for `Journal`.
    pub fn number(self) -> u8
        ensures { result ≡ book_error_number self }
    {
        match self {
            BookError::Core(error) => error.number(),
            BookError::Journal => 7,
        }
    }
}

impl From<AllocError> for BookError {
    ghost use Rattle.event_rules.specs.declared.model.CoreError.TheVariants.{Memory};
    ghost use Rattle.flood.specs.declared.book.error.BookError.TheVariants.{Core};

    ghost from_gives = { λ _ e. e ≡ Core Memory };

    fn from(_e: AllocError) -> BookError {
        BookError::Core(CoreError::Memory)
    }
}

impl From<CoreError> for BookError {
    ghost use Rattle.flood.specs.declared.book.error.BookError.TheVariants.{Core};

    ghost from_gives = { λ r e. e ≡ Core r };

    fn from(e: CoreError) -> BookError {
        BookError::Core(e)
    }
}
