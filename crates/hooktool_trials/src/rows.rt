//! Rows of the routing table.

ghost use Rattle.std.specs.Prelude.{◌≡◌, map, option_map};
ghost use Rattle.words.specs.declared.route.TableRow.{TableRow};
ghost use Rattle.hooktool_trials.specs.Questions.{HasRows};
ghost use Rattle.hooktool_trials.specs.Words.{AreRows, IsRow, Reads, ReadsOrLacks};

use crate::values::NotRead;
use crate::wrong_words::WrongWord;
use std::alloc::Global;
use words::{TableRow, read_prefix, read_within};

/// The row that a word like 10.0.0.0/8=15 is.
fn row_of(word: &str) -> Option<TableRow>
    ensures { Reads (IsRow word.now) result }
{
    let Some((prefix, cost)) = word.split_once('=') else {
        return None;
    };
    let Some(prefix) = read_prefix(prefix) else {
        return None;
    };
    match read_within(cost, 0, 4_294_967_295) {
        Some(cost) => Some(TableRow {
            prefix,
            cost: cost as u32,
        }),
        None => None,
    }
}

/// The rows that the words are, in their order.
fn read_rows(alloc: Global, words: &[&str]) -> Result<Vec<TableRow>, NotRead>
    ensures { ReadsOrLacks (λ rows. AreRows (map (λ w. w.now) words.now) rows.items) result }
{
    let mut rows = Vec::new(alloc);
    for word in words {
        let Some(row) = row_of(word) else {
            return Err(NotRead::Meaningless(WrongWord::Part));
        };
        match rows.push(row) {
            Ok(()) => (),
            Err(_) => return Err(NotRead::OutOfMemory),
        }
    }
    Ok(rows)
}

/// The rows that the words of an option are; none if it isn't given.
pub(crate) fn rows_in(alloc: Global, words: Option<&[&str]>) -> Result<Vec<TableRow>, NotRead>
    ensures { ReadsOrLacks (λ rows. HasRows (option_map (λ s. map (λ w. w.now) s.now)
        words.entry) rows.items) result }
{
    match words {
        Some(words) => read_rows(alloc, words),
        None => Ok(Vec::new(alloc)),
    }
}
