//! Installs that another one follows.
ghost use Rattle.std.specs.Prelude.{◌≡◌, IfSome};
ghost use Rattle.flood.specs.Replay.{IsInstalledLast, forgotten_at, without_answers};

use crate::book::entry::JournalEntry;
use crate::event::Event;
use hooks::VetoAnswers;
use std::mem::replace;

/// The last place of a journal that ends with an Install.
pub fn last_install(journal: &[JournalEntry]) -> Option<usize>
    ensures { IfSome result (λ last. IsInstalledLast journal.now last) }
{
    let last = journal.len().checked_sub(1)?;
    if journal[last].event.is_install() {
        Some(last)
    } else {
        None
    }
}

// Drops the answers of an Install; every other event stays as it is.
fn forget(event: &mut Event)
    ensures { event.new ≡ without_answers event.old }
{
    if let Event::Install(answers) = event {
        let none = VetoAnswers::none(answers.allocator());
        let _answers = replace(answers, none);
    }
}

/// Drops the answers of the event at this place, if that is an Install. It takes no memory.
pub fn forget_answers(journal: &mut [JournalEntry], place: usize)
    ensures { journal.new ≡ forgotten_at journal.old place }
{
    if place < journal.len() {
        forget(&mut journal[place].event);
    }
}
