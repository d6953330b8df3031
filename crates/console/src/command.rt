//! The lines of the console.
ghost use Rattle.std.specs.Prelude.{◌≡◌, ◌∷◌, [], codes, List, IfOk, MatchOption};
ghost use Rattle.console.specs.Commands.{Asks, LineAsks, type_word};
ghost use Rattle.console.specs.Views.{views};
ghost use Rattle.console.specs.Words.{Word};
ghost use Rattle.console.specs.declared.command.Command.{Command};
ghost use Rattle.words.specs.declared.route.ExternalType.{ExternalType};

use crate::reading::{is_text, words_of};
use isa::Hook;
use std::alloc::{AllocError, Global};
use words::{External, ExternalType, Prefix, read_prefix, read_within};

/// A command of the operator.
#[derive(Clone, Copy, Debug)]
pub enum Command<'a> {
    /// Attach the program in the object file at this path to its hook.
    Attach(&'a str),
    /// Detach the hook's program.
    Detach(Hook),
    /// Announce an external destination.
    Add(External),
    /// Withdraw the external destination.
    Withdraw(Prefix),
    /// Print the routing table.
    Table,
    /// Print the neighbors.
    Neighbors,
    /// Print the counters.
    Counters,
    /// End the router.
    Quit,
}

/// The command of a line with one word.
fn one(a: &str) -> Option<Command<'_>>
    ensures { MatchOption result
        ((command : Command) → Asks (a.now ∷ []) command → ⊥) (Asks (a.now ∷ [])) }
{
    if is_text(a, "table") {
        return Some(Command::Table);
    }
    if is_text(a, "neighbors") {
        return Some(Command::Neighbors);
    }
    if is_text(a, "counters") {
        return Some(Command::Counters);
    }
    if is_text(a, "quit") {
        return Some(Command::Quit);
    }
    None
}

fn attach(path: &str) -> Option<Command<'_>>
    ensures { MatchOption result
        ((command : Command) → Asks (codes "attach" ∷ path.now ∷ []) command → ⊥)
        (Asks (codes "attach" ∷ path.now ∷ [])) }
{
    if path.is_empty() {
        return None;
    }
    Some(Command::Attach(path))
}

fn detach<'a>(hook: &str) -> Option<Command<'a>>
    ensures { MatchOption result
        ((command : Command) → Asks (codes "detach" ∷ hook.now ∷ []) command → ⊥)
        (Asks (codes "detach" ∷ hook.now ∷ [])) }
{
    let hook = Hook::from_name(hook)?;
    Some(Command::Detach(hook))
}

fn withdraw<'a>(prefix: &str) -> Option<Command<'a>>
    ensures { MatchOption result
        ((command : Command) → Asks (codes "withdraw" ∷ prefix.now ∷ []) command → ⊥)
        (Asks (codes "withdraw" ∷ prefix.now ∷ [])) }
{
    let prefix = read_prefix(prefix)?;
    Some(Command::Withdraw(prefix))
}

/// The command of a line with two words.
fn two<'a>(a: &str, b: &'a str) -> Option<Command<'a>>
    ensures { MatchOption result
        ((command : Command) → Asks (a.now ∷ b.now ∷ []) command → ⊥) (Asks (a.now ∷ b.now ∷ [])) }
{
    if is_text(a, "attach") {
        return attach(b);
    }
    if is_text(a, "detach") {
        return detach(b);
    }
    if is_text(a, "withdraw") {
        return withdraw(b);
    }
    None
}

/// The type of an external metric.
fn read_type(word: &str) -> Option<ExternalType>
    ensures { MatchOption result
        ((kind : ExternalType) → word.now ≡ type_word kind → ⊥)
        (λ kind. word.now ≡ type_word kind) }
{
    if is_text(word, "1") {
        return Some(ExternalType::Type1);
    }
    if is_text(word, "2") {
        return Some(ExternalType::Type2);
    }
    None
}

/// The command of a line with five words.
fn five<'a>(a: &str, b: &str, c: &str, d: &str, e: &str) -> Option<Command<'a>>
    ensures { MatchOption result
        ((command : Command) → Asks (a.now ∷ b.now ∷ c.now ∷ d.now ∷ e.now ∷ []) command → ⊥)
        (Asks (a.now ∷ b.now ∷ c.now ∷ d.now ∷ e.now ∷ [])) }
{
    if !is_text(a, "add") {
        return None;
    }
    let prefix = read_prefix(b)?;
    let metric = read_within(c, 0, 16_777_214)?;
    let kind = read_type(d)?;
    let tag = read_within(e, 0, 4_294_967_295)?;
    Some(Command::Add(External {
        prefix,
        metric: metric as u32,
        kind,
        tag: tag as u32,
    }))
}

/// The command of a line with these words.
fn command_of<'a>(words: &[&'a str]) -> Option<Command<'a>>
    ensures { MatchOption result
        ((command : Command) → Asks (views words.now) command → ⊥) (Asks (views words.now)) }
{
    match *words {
        [a] => one(a),
        [a, b] => two(a, b),
        [a, b, c, d, e] => five(a, b, c, d, e),
        _ => None,
    }
}

/// The command of a console line, without its line feed; `None` if it is no command.
///
/// A line consists of a command's words, separated by one space, and nothing else: no space before,
/// after or twice, no carriage return. Numbers are decimal, with neither a sign nor a leading zero.
/// A path is one word, so a path with a space can't be written. `add` takes a prefix whose host
/// bits are 0, a metric from 0 to 16,777,214 (LSInfinity is 16,777,215: RFC 2328, appendix B), 1 or
/// 2 for the type of the metric (section 2.3), and a tag of 32 bits.
///
/// # Errors
/// `AllocError` if an allocation is refused.
pub fn read_command<'a>(alloc: Global, line: &'a str) -> Result<Option<Command<'a>>, AllocError>
    ensures { IfOk result (λ found. MatchOption found
        ((command : Command) → LineAsks line.now command → ⊥) (LineAsks line.now)) }
{
    let words = words_of(alloc, line)?;
    Ok(command_of(&words))
}
