//! An operation with a number in the history.
ghost use Rattle.std.specs.Prelude.{◌≡◌, [], ◌∷◌, ◌++◌, drop, IfSome};
ghost use Rattle.hooks.specs.History.{head_of};

use crate::history::{Head, HistoryPrefix};
use crate::operation::LoaderOperation;
use crate::rule::ProgramWriter;
use crate::value::HistoryEntry;
use std::sync::Wait;
use std::thread;

/// An operation that has taken its number in the history. A number can't be given back, so a value
/// of this type can't be dropped: whoever took the number appends the operation.
pub struct Numbered {
    entry: HistoryEntry,
}

impl Numbered {
    /// Takes the next number for the operation. `None` if the history is longer than the prefix, or
    /// if no number is left.
    pub fn next(prefix: &HistoryPrefix, head: &Head, operation: LoaderOperation) -> Option<Numbered>
        requires { head.now ≡ head_of prefix.now.seen.book }
        ensures operation { IfSome result (λ n. n.entry.operation ≡ operation) }
        ensures prefix { IfSome result (λ n. (n.entry.prefix.seen.book ≡ prefix.now.seen.book)
            × (n.entry.prefix.seen.log ≡ prefix.now.seen.log ++ operation ∷ [])) }
    {
        let prefix = prefix.append(head, &operation)?;
        Some(Numbered {
            entry: HistoryEntry { operation, prefix },
        })
    }

    /// Appends the operation to those that the writer publishes next. If an allocation is refused
    /// it tries again until one succeeds; a reserved place needs none.
    pub fn append_to<R: Wait>(self, writer: &mut ProgramWriter, rt: &R)
        ensures desk { writer.new.desk ≡ writer.old.desk }
        ensures pending { drop writer.new.behind writer.new.log.items
            ≡ drop writer.old.behind writer.old.log.items ++ self.entry ∷ [] }
    {
        let Numbered { mut entry } = self;
        for _ in rt.forever() {
            match writer.append(entry) {
                Ok(()) => break,
                Err(refused) => entry = refused,
            }
            thread::yield_now();
        }
    }
}
