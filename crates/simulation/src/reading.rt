//! Words that stand for values.
ghost use Rattle.std.specs.Prelude.{◌≡◌, ◌≤◌, IfOk, codes};
ghost use Rattle.clap.specs.Matches.{found_of, first_value};
ghost use Rattle.simulated_networks.specs.declared.plan.Scenario.{Scenario};
ghost use Rattle.simulated_networks.specs.declared.topology.TopologyShape.{TopologyShape};
ghost use Rattle.simulation.specs.Words.{IsNumber, OrElse, scenario_word, topology_word};

use crate::names::{scenario_of, topology_of};
use clap::ArgMatches;
use simulated_networks::{Faults, InterfaceTimes, Scenario, TopologyShape};
use words::read_within;

/// What is wrong with the words.
#[derive(Clone, Copy)]
pub enum Wrong {
    /// They name no command.
    Command,
    /// There is no such topology.
    Topology,
    /// There is no such scenario.
    Scenario,
    /// The word under this name is no number from `least` to `most`.
    Number {
        name: &'static str,
        least: u64,
        most: u64,
    },
}

/// The number under a name, or the usual one if there is none.
///
/// # Errors
/// `Number` if the word is no number from `least` to `most`.
pub fn number_of(
    matches: &ArgMatches<'_>,
    name: &'static str,
    usual: u64,
    least: u64,
    most: u64,
) -> Result<u64, Wrong>
    ensures { IfOk result (λ n. OrElse (first_value (found_of matches.now) name.now)
        (n ≡ usual) (λ word. IsNumber least most word n)) }
{
    match matches.get_str(name) {
        None => Ok(usual),
        Some(word) => match read_within(word, least, most) {
            Some(number) => Ok(number),
            None => Err(Wrong::Number { name, least, most }),
        },
    }
}

/// The number that the option gives, as a `u32`, or the usual one if it isn't given.
///
/// # Errors
/// `Number` if the word is no number from `least` to `most`.
pub fn small_of(
    matches: &ArgMatches<'_>,
    name: &'static str,
    usual: u32,
    least: u32,
    most: u32,
) -> Result<u32, Wrong>
    ensures { IfOk result (λ n. OrElse (first_value (found_of matches.now) name.now)
        (n ≡ usual) (λ word. IsNumber least most word n)) }
{
    let number = number_of(
        matches,
        name,
        u64::from(usual),
        u64::from(least),
        u64::from(most),
    )?;
    Ok(u32::try_from(number).unwrap_or(usual))
}

/// The shape under `topology`.
///
/// # Errors
/// `Topology` if there is no such shape.
pub fn topology_in(matches: &ArgMatches<'_>) -> Result<TopologyShape, Wrong>
    ensures { IfOk result (λ kind. OrElse (first_value (found_of matches.now) (codes "topology"))
        (kind ≡ TopologyShape.Grid) (λ word. word ≡ topology_word kind)) }
{
    match matches.get_str("topology") {
        None => Ok(TopologyShape::Grid),
        Some(word) => match topology_of(word) {
            Some(kind) => Ok(kind),
            None => Err(Wrong::Topology),
        },
    }
}

/// The scenario under `scenario`.
///
/// # Errors
/// `Scenario` if there is no such scenario.
pub fn scenario_in(matches: &ArgMatches<'_>) -> Result<Scenario, Wrong>
    ensures { IfOk result (λ s. OrElse (first_value (found_of matches.now) (codes "scenario"))
        (s ≡ Scenario.Start) (λ word. word ≡ scenario_word s)) }
{
    match matches.get_str("scenario") {
        None => Ok(Scenario::Start),
        Some(word) => match scenario_of(word) {
            Some(scenario) => Ok(scenario),
            None => Err(Wrong::Scenario),
        },
    }
}

/// Reads the words of a command, and keeps what is wrong with the first wrong one.
#[derive(Drop)]
pub struct Reader<'m, 'a> {
    pub matches: &'m ArgMatches<'a>,
    wrong: Option<Wrong>,
}

impl<'m, 'a> Reader<'m, 'a> {
    /// Nothing is read yet.
    pub fn new(matches: &'m ArgMatches<'a>) -> Reader<'m, 'a> {
        Reader {
            matches,
            wrong: None,
        }
    }

    // The value that was read, or this one if the word is wrong.
    fn kept<T: Copy>(&mut self, read: Result<T, Wrong>, other: T) -> T {
        match read {
            Ok(value) => value,
            Err(wrong) => {
                self.wrong = self.wrong.or(Some(wrong));
                other
            }
        }
    }

    /// As `number_of`; the usual number if the word is wrong.
    pub fn number(&mut self, name: &'static str, usual: u64, least: u64, most: u64) -> u64 {
        let read = number_of(self.matches, name, usual, least, most);
        self.kept(read, usual)
    }

    /// As `small_of`; the usual number if the word is wrong.
    pub fn small(&mut self, name: &'static str, usual: u32, least: u32, most: u32) -> u32 {
        let read = small_of(self.matches, name, usual, least, most);
        self.kept(read, usual)
    }

    /// The shape under `topology`.
    pub fn topology(&mut self) -> TopologyShape {
        let read = topology_in(self.matches);
        self.kept(read, TopologyShape::Grid)
    }

    /// The scenario under `scenario`.
    pub fn scenario(&mut self) -> Scenario {
        let read = scenario_in(self.matches);
        self.kept(read, Scenario::Start)
    }

    /// The times of the interfaces.
    pub fn times(&mut self) -> InterfaceTimes {
        let hello = self.small("hello", 10, 1, 65_535);
        let dead = self.small("dead", 40, 1, 1_000_000);
        let retransmit = self.small("retransmit", 5, 1, 65_535);
        InterfaceTimes {
            hello: u16::try_from(hello).unwrap_or(10),
            dead,
            retransmit: u16::try_from(retransmit).unwrap_or(5),
        }
    }

    /// What becomes of packets.
    pub fn faults(&mut self) -> Faults {
        Faults {
            loss: self.small("loss", 0, 0, 10_000),
            late: self.small("late", 0, 0, 10_000),
            twice: self.small("twice", 0, 0, 10_000),
        }
    }

    /// What was made of the words.
    ///
    /// # Errors
    /// What is wrong with the first wrong word.
    pub fn ends_with<T: Copy>(&self, made: T) -> Result<T, Wrong> {
        match self.wrong {
            None => Ok(made),
            Some(wrong) => Err(wrong),
        }
    }
}
