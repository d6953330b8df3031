//! The numbers of a question.

ghost use Rattle.clap.specs.Matches.{found_of};
ghost use Rattle.clap.specs.Walk.{rows_of};
ghost use Rattle.hooktool_trials.specs.Questions.{HasNumbers};
ghost use Rattle.hooktool_trials.specs.Words.{ReadsOrTells};

use crate::values::number_of;
use crate::wrong_words::WrongWord;
use clap::ArgMatches;

/// The numbers of a question: moments below 2^62, interfaces below 64, and the number of next hops,
/// which are the interfaces from the given one on.
#[derive(Clone, Copy)]
pub(crate) struct Numbers {
    pub metric: u32,
    pub tag: u32,
    pub cost: u32,
    pub distance: u32,
    pub moment: u64,
    pub interface: u8,
    pub next_hops: u8,
}

const MAX_U32: u64 = 4_294_967_295;

const LATEST: u64 = 4_611_686_018_427_387_903;

/// The numbers that the options give, or which one has no meaning.
pub(crate) fn numbers_of(matches: &ArgMatches<'_>) -> Result<Numbers, WrongWord>
    ensures { ReadsOrTells (HasNumbers (rows_of (found_of matches.now))) result }
{
    let Some(metric) = number_of(matches, "metric", 0, 0, MAX_U32) else {
        return Err(WrongWord::Metric);
    };
    let Some(tag) = number_of(matches, "tag", 0, 0, MAX_U32) else {
        return Err(WrongWord::Tag);
    };
    let Some(cost) = number_of(matches, "cost", 0, 0, MAX_U32) else {
        return Err(WrongWord::Cost);
    };
    let Some(distance) = number_of(matches, "distance", 0, 0, MAX_U32) else {
        return Err(WrongWord::Distance);
    };
    let Some(moment) = number_of(matches, "moment", 0, 0, LATEST) else {
        return Err(WrongWord::Moment);
    };
    let Some(interface) = number_of(matches, "interface", 0, 0, 63) else {
        return Err(WrongWord::Interface);
    };
    let Some(next_hops) = number_of(matches, "next-hops", 1, 1, 64) else {
        return Err(WrongWord::NextHops);
    };
    if interface + next_hops > 64 {
        return Err(WrongWord::NextHops);
    }
    Ok(Numbers {
        metric: metric as u32,
        tag: tag as u32,
        cost: cost as u32,
        distance: distance as u32,
        moment,
        interface: interface as u8,
        next_hops: next_hops as u8,
    })
}
