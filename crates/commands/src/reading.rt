//! Parses the words of a command line.

ghost use Rattle.std.specs.Prelude.{◌≡◌, ◌⊎◌, map, MatchResult};
ghost use Rattle.std.specs.IoError.{error_kind};
ghost use Rattle.clap.specs.Simple.{App};
ghost use Rattle.clap.specs.Values.{kind_of};
ghost use Rattle.commands.specs.CommandLine.{IsCommandLine};
ghost use Rattle.commands.specs.Requests.{Asks, IsRefusal};

use crate::commands;
use crate::requests::{self, CommandRequest};
use clap::Error;
use clap::error::ErrorKind;
use std::alloc::{AllocError, Global};
use std::io::{self, ErrorKind as IoKind};

/// The error for words that can't be read: an allocation was refused, or a word isn't UTF-8.
pub fn unreadable_words(alloc: Global, error: &io::Error) -> Error
    ensures memory { error_kind error.now ≡ IoKind.OutOfMemory
        → kind_of result ≡ ErrorKind.OutOfMemory }
    ensures value { (kind_of result ≡ ErrorKind.OutOfMemory)
        ⊎ (kind_of result ≡ ErrorKind.InvalidValue) }
{
    match error.kind() {
        IoKind::OutOfMemory => Error::from(AllocError),
        _ => commands::wrong_value(alloc, "a word isn't UTF-8"),
    }
}

/// Parses the words of a command line, of which the first is the program's name.
///
/// `Ok` is exactly the request of the words.
///
/// # Errors
/// The text for the user: a mistake in the words, which then make no request, or the help that they
/// request. Its kind is `OutOfMemory` if an allocation was refused.
pub fn parse<'a>(alloc: Global, words: &'a [&'a str]) -> Result<CommandRequest<'a>, Error>
    ensures { (line : App) × IsCommandLine line
        × MatchResult result (Asks line (map (λ w. w.now) words.entry.now))
        (IsRefusal line (map (λ w. w.now) words.entry.now)) }
{
    let matches = commands::whole(alloc)?.try_get_matches_from(words)?;
    match requests::request_of(alloc, &matches)? {
        Some(request) => Ok(request),
        None => Err(commands::error(alloc, ErrorKind::MissingSubcommand, "no command is given")?),
    }
}
