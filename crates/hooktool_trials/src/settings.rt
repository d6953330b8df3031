//! What is added to counters, or stored in cells, before a program runs.

ghost use Rattle.std.specs.Prelude.{◌≡◌, ◌≤◌, ◌^◌, ◌<◌, map, option_map};
ghost use Rattle.hooktool_trials.specs.Questions.{HasSettings};
ghost use Rattle.hooktool_trials.specs.Words.{AreSettings, IsSetting, Reads, ReadsOrLacks};

use crate::values::NotRead;
use crate::wrong_words::WrongWord;
use std::alloc::Global;
use words::read_within;

/// A counter or cell, and the number that is added to the one or stored in the other.
#[derive(Clone, Copy)]
pub struct Setting {
    pub index: u8,
    pub number: u64,
}

/// The setting that a word like 17=3 is: its index is below `places`, and its number at most
/// `most`.
fn setting_of(word: &str, places: u64, most: u64) -> Option<Setting>
    requires { (1 ≤ places) × (places ≤ 256) }
    ensures { Reads (IsSetting places most word.now) result }
{
    let Some((index, number)) = word.split_once('=') else {
        return None;
    };
    let Some(index) = read_within(index, 0, places - 1) else {
        return None;
    };
    match read_within(number, 0, most) {
        Some(number) => Some(Setting {
            index: index as u8,
            number,
        }),
        None => None,
    }
}

/// The settings that the words are, in their order.
fn read_settings(
    alloc: Global,
    words: &[&str],
    places: u64,
    most: u64,
) -> Result<Vec<Setting>, NotRead>
    requires { (1 ≤ places) × (places ≤ 256) }
    ensures { ReadsOrLacks (λ settings.
        AreSettings places most (map (λ w. w.now) words.now) settings.items) result }
{
    let mut settings = Vec::new(alloc);
    for word in words {
        let Some(setting) = setting_of(word, places, most) else {
            return Err(NotRead::Meaningless(WrongWord::Part));
        };
        match settings.push(setting) {
            Ok(()) => (),
            Err(_) => return Err(NotRead::OutOfMemory),
        }
    }
    Ok(settings)
}

/// The settings that the words of an option are; none if it isn't given.
pub(crate) fn settings_in(
    alloc: Global,
    words: Option<&[&str]>,
    places: u64,
    most: u64,
) -> Result<Vec<Setting>, NotRead>
    requires { (1 ≤ places) × (places ≤ 256) }
    ensures { ReadsOrLacks (λ settings. HasSettings (option_map (λ s. map (λ w. w.now) s.now)
        words.entry) places most settings.items) result }
{
    match words {
        Some(words) => read_settings(alloc, words, places, most),
        None => Ok(Vec::new(alloc)),
    }
}
