//! Histories by chance that end with a fault, and the shortest one that is left of each when acts
//! are taken out.
ghost use Rattle.std.specs.Prelude.{◌≡◌, ◌+◌, ◌<◌, ◌≤◌, ◌++◌, IfOk, IfSome, drop, if◌then◌else◌};
ghost use Rattle.std.specs.Prelude.{length, slice_set, take, vec_len};

use crate::acts::{HistoryStep, chosen};
use crate::fault::NetworkError;
use crate::one_router::InterfaceTimes;
use crate::play::Play;
use crate::random::{Faults, Random};
use crate::topology::Topology;
use flood::Event;
use std::alloc::{AllocError, Global};

/// What a history is to end with, after calm seconds.
#[derive(Clone, Copy)]
pub enum Sought {
    /// Full neighbors whose databases differ.
    Databases,
    /// Neighbors that hand packets for a prefix to each other.
    Loops,
}

/// A search.
#[derive(Clone, Copy)]
pub struct Search {
    pub sought: Sought,
    pub routers: u32,
    pub externals: u32,
    pub times: InterfaceTimes,
    /// Which of these may happen to packets: each that isn't 0.
    pub faults: Faults,
    /// Routers may begin anew.
    pub restarts: bool,
    /// How many acts a history has.
    pub steps: u32,
    /// How many calm seconds there are at the end.
    pub calm: u32,
}

/// What histories are played with: the routers, and the announcements of the destinations.
#[derive(Clone, Copy)]
pub struct HistorySetting<'a> {
    pub alloc: Global,
    pub topology: &'a Topology,
    pub events: &'a [Event],
}

// What came of a turn.
#[derive(Clone, Copy)]
struct Turn {
    // something was taken out or made simpler
    some: bool,
    // what stopped it
    fault: Option<NetworkError>,
}

// How many acts are left out at once.
const PARTS: [usize; 10] = [512, 256, 128, 64, 32, 16, 8, 4, 2, 1];

// How often all parts are tried.
const TURNS: u32 = 8;

// The acts without `many` from a place on.
fn without(
    alloc: Global,
    acts: &[HistoryStep],
    from: usize,
    many: usize,
) -> Result<Vec<HistoryStep>, AllocError>
    requires { from ≤ length acts.now }
    ensures kept { IfOk result (λ kept. kept.items ≡ take from acts.now
        ++ drop (from + many) acts.now) }
    ensures fewer { IfOk result (λ kept. vec_len kept ≤ length acts.now) }
{
    let mut kept = Vec::from_slice(alloc, &acts[..from])?;
    if many < acts.len() - from {
        kept.extend_from_slice(&acts[from + many..])?;
    }
    Ok(kept)
}

// The acts with another one at a place.
fn with_other(
    alloc: Global,
    acts: &[HistoryStep],
    place: usize,
    other: HistoryStep,
) -> Result<Vec<HistoryStep>, AllocError>
    requires { place < length acts.now }
    ensures kept { IfOk result (λ kept. kept.items ≡ slice_set acts.now place other) }
    ensures as_many { IfOk result (λ kept. vec_len kept ≡ length acts.now) }
{
    let mut kept = Vec::from_slice(alloc, acts)?;
    kept[place] = other;
    Ok(kept)
}

impl Search {
    /// The history of this seed: a start in calm, and as many acts by chance as there are steps.
    ///
    /// # Errors
    /// `AllocError` if an allocation is refused.
    pub fn history(&self, alloc: Global, seed: u64) -> Result<Vec<HistoryStep>, AllocError>
        ensures { IfOk result (λ acts. vec_len acts ≡ self.now.steps + 1) }
    {
        let mut random = Random::new(seed);
        let mut acts = Vec::new(alloc);
        acts.push(HistoryStep::Calm(15))?;
        for _ in 0..self.steps {
            let act = chosen(
                &mut random,
                self.routers,
                self.externals,
                &self.faults,
                self.restarts,
            );
            acts.push(act)?;
        }
        Ok(acts)
    }

    // Whether the play ends with what is sought.
    fn is_seen(&self, play: &mut Play<'_>, acts: &[HistoryStep]) -> bool {
        play.does_all(acts);
        play.does(HistoryStep::Calm(self.calm));
        match self.sought {
            Sought::Databases => play.differ(),
            Sought::Loops => play.loop_between_two(),
        }
    }

    /// Whether the history ends with what is sought.
    ///
    /// # Errors
    /// `Memory` if an allocation is refused, `Configuration` if the times aren't allowed.
    pub fn shows(
        &self,
        stage: HistorySetting<'_>,
        acts: &[HistoryStep],
    ) -> Result<bool, NetworkError> {
        let mut play = Play::new(stage, self.times);
        let seen = self.is_seen(&mut play, acts);
        let fault = play.fault();
        play.close();
        match fault {
            None => Ok(seen),
            Some(fault) => Err(fault),
        }
    }

    // Whether the history ends with what is sought; false if something stopped it.
    fn shows_yet(&self, stage: HistorySetting<'_>, acts: &[HistoryStep], turn: &mut Turn) -> bool {
        if turn.fault.is_some() {
            return false;
        }
        match self.shows(stage, acts) {
            Ok(shown) => shown,
            Err(fault) => {
                turn.fault = Some(fault);
                false
            }
        }
    }

    // Takes `many` acts out from a place on, if the rest still shows what is sought. Returns
    // whether it does.
    fn leaves_out(
        &self,
        stage: HistorySetting<'_>,
        kept: &mut Vec<HistoryStep>,
        from: usize,
        many: usize,
        turn: &mut Turn,
    ) -> bool
        requires { from ≤ vec_len kept.old }
        ensures fewer { vec_len kept.new ≤ vec_len kept.old }
        ensures left { kept.new.items ≡ (if result
            then take from kept.old.items ++ drop (from + many) kept.old.items
            else kept.old.items) }
    {
        let Ok(fewer) = without(stage.alloc, kept.as_slice(), from, many) else {
            turn.fault = Some(NetworkError::Memory);
            return false;
        };
        if !self.shows_yet(stage, &fewer, turn) {
            return false;
        }
        *kept = fewer;
        turn.some = true;
        true
    }

    // Takes parts of `size` acts out one after the other, each if the rest still shows what is
    // sought.
    fn leave_out(
        &self,
        stage: HistorySetting<'_>,
        kept: &mut Vec<HistoryStep>,
        many: usize,
        turn: &mut Turn,
    )
        ensures { vec_len kept.new ≤ vec_len kept.old }
    {
        let mut from = 0_usize;
        for _ in 0..kept.len() {
            if from >= kept.len() {
                return;
            }
            if !self.leaves_out(stage, kept, from, many, turn) {
                from = from.saturating_add(many);
            }
        }
    }

    // Puts this act at the place, if the history still shows what is sought.
    fn puts(
        &self,
        stage: HistorySetting<'_>,
        kept: &mut Vec<HistoryStep>,
        place: usize,
        act: HistoryStep,
        turn: &mut Turn,
    )
        requires { place < vec_len kept.old }
        ensures { vec_len kept.new ≡ vec_len kept.old }
    {
        let Ok(tried) = with_other(stage.alloc, kept.as_slice(), place, act) else {
            turn.fault = Some(NetworkError::Memory);
            return;
        };
        if !self.shows_yet(stage, &tried, turn) {
            return;
        }
        *kept = tried;
        turn.some = true;
    }

    // Puts a simpler act at each place, if the history still shows what is sought.
    fn make_simpler(&self, stage: HistorySetting<'_>, kept: &mut Vec<HistoryStep>, turn: &mut Turn)
        ensures { vec_len kept.new ≡ vec_len kept.old }
    {
        for place in 0..kept.len() {
            if let Some(act) = kept[place].simpler() {
                self.puts(stage, kept, place, act, turn);
            }
        }
    }

    fn shorten_once(&self, stage: HistorySetting<'_>, kept: &mut Vec<HistoryStep>, turn: &mut Turn)
        ensures { vec_len kept.new ≤ vec_len kept.old }
    {
        for many in &PARTS {
            self.leave_out(stage, kept, *many, turn);
        }
        self.make_simpler(stage, kept, turn);
    }

    /// Makes a history that shows what is sought shorter, as long as what is left still does: then
    /// no act can be left out alone, unless eight turns weren't enough for that. After an error it
    /// is as short as it had become.
    ///
    /// # Errors
    /// `Memory` if an allocation is refused, `Configuration` if the times aren't allowed.
    pub fn shorten(
        &self,
        stage: HistorySetting<'_>,
        kept: &mut Vec<HistoryStep>,
    ) -> Result<(), NetworkError>
        ensures { vec_len kept.new ≤ vec_len kept.old }
    {
        for _ in 0..TURNS {
            let mut turn = Turn {
                some: false,
                fault: None,
            };
            self.shorten_once(stage, kept, &mut turn);
            match turn.fault {
                Some(fault) => return Err(fault),
                None if turn.some => (),
                None => return Ok(()),
            }
        }
        Ok(())
    }

    // Makes the history shorter, if it shows what is sought. Returns whether it does.
    fn shorten_shown(
        &self,
        stage: HistorySetting<'_>,
        kept: &mut Vec<HistoryStep>,
    ) -> Result<bool, NetworkError>
        ensures { vec_len kept.new ≤ vec_len kept.old }
    {
        let shown = self.shows(stage, kept.as_slice())?;
        if shown {
            self.shorten(stage, kept)?;
        }
        Ok(shown)
    }

    /// The short history that is left of that of this seed, if that shows what is sought.
    ///
    /// # Errors
    /// `Memory` if an allocation is refused, `Configuration` if the times aren't allowed.
    pub fn found(
        &self,
        stage: HistorySetting<'_>,
        seed: u64,
    ) -> Result<Option<Vec<HistoryStep>>, NetworkError>
        ensures { IfOk result (λ found. IfSome found (λ acts. vec_len acts ≤ self.now.steps + 1)) }
    {
        let mut acts = self.history(stage.alloc, seed)?;
        match self.shorten_shown(stage, &mut acts) {
            Ok(true) => Ok(Some(acts)),
            Ok(false) => Ok(None),
            Err(fault) => Err(fault),
        }
    }
}
