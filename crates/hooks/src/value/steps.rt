//! The operations on the published value.
ghost use Rattle.std.specs.Prelude.{◌≡◌, ◌<◌, ◌≤◌, List, IfOk, length, take, vec_capacity};
ghost use Rattle.std.specs.Prelude.{vec_len};
ghost use Rattle.isa.specs.declared.hook.Hook.TheVariants.{Veto as VetoHook};
ghost use Rattle.machine.specs.Given.{given_by};
ghost use Rattle.machine.specs.Input.{IsOfHook};
ghost use Rattle.machine.specs.Label.{Label};
ghost use Rattle.maps.specs.Words.{IsSeatOf, SeatView};
ghost use Rattle.helpers.specs.Seats.{SeatMakes};
ghost use Rattle.hooks.specs.Answered.{AreAnswered, IsVetoAnswered};
ghost use Rattle.hooks.specs.declared.operation.LoaderOperation.{LoaderOperation};
ghost use Rattle.hooks.specs.Operations.{leaves, OperationsAnswer, HasHookNumber};
ghost use Rattle.hooks.specs.Shown.{published_operations, ShowsOperations, after_operation, vacant};
ghost use Rattle.hooks.specs.Vacant.{AreVacancies};

use super::{HistoryEntry, Programs, Vacancies};
use crate::answer::VetoAnswer;
use crate::history::HistoryPrefix;
use crate::input::{default_word, hook_of};
use crate::slot::ProgramSlot;
use left_right::Absorb;
use machine::{Hook, Input, TableRow, veto_context};
use maps::{Seat, Shared};
use std::alloc::{AllocError, Global};
use word_machine::{WordMemory, run, run_in};
use words::{Route, Second};

/// How many questions one reading of the programs answers at most: an operation that is published
/// meanwhile waits for them.
const QUESTIONS_PER_READING: usize = 64;

impl Programs {
    /// Programs of which no hook has one, with capacity for any: to publish one later needs no
    /// allocation.
    ///
    /// # Errors
    /// `AllocError` if an allocation is refused.
    pub fn empty(alloc: Global, prefix: HistoryPrefix) -> Result<Programs, AllocError>
        ensures { IfOk result (λ p. p ≡ vacant prefix) }
    {
        Ok(Programs {
            count: ProgramSlot::empty(alloc)?,
            tag: ProgramSlot::empty(alloc)?,
            price: ProgramSlot::empty(alloc)?,
            veto: ProgramSlot::empty(alloc)?,
            prefix,
        })
    }

    fn slot(&self, hook: Hook) -> &ProgramSlot
        requires { ShowsOperations self.now }
        ensures { result.now ≡ leaves hook (published_operations self.now) }
    {
        match hook {
            Hook::Count => &self.count,
            Hook::Tag => &self.tag,
            Hook::Price => &self.price,
            Hook::Veto => &self.veto,
        }
    }

    /// Which hooks have no program.
    pub fn vacancies(&self) -> Vacancies
        requires { ShowsOperations self.now }
        ensures { AreVacancies (published_operations self.now) result }
    {
        Vacancies {
            tag: self.tag.is_vacant(),
            price: self.price.is_vacant(),
            veto: self.veto.is_vacant(),
        }
    }

    /// Runs the program at the input's hook. Never blocks or allocates.
    pub fn answer(&self, input: &Input, shared: &Shared, seat: &mut Seat) -> u64
        requires asked { HasHookNumber (given_by input.now) }
        requires stands { ShowsOperations self.now }
        requires table { IsSeatOf shared.now seat.old }
        ensures answered { (labels : List Label) × SeatMakes seat.old labels seat.new
            × OperationsAnswer (published_operations self.now) (given_by input.now) labels result }
        ensures table { IsSeatOf shared.now seat.new }
    {
        let hook = hook_of(input);
        match self.slot(hook).program() {
            Some(program) => {
                // For the prover alone, by what the calls ensure.
                let _bound = program.bound();
                let _code = program.slots();
                let _regions = program.regions();
                run(program, input, shared, seat).answer
            }
            None => default_word(hook, input),
        }
    }

    // Runs the program at `veto`, if there is one.
    fn at_veto(
        &self,
        input: &Input,
        memory: &mut WordMemory,
        shared: &Shared,
        seat: &mut Seat,
    ) -> u64
        requires asked { IsOfHook VetoHook (given_by input.now) }
        requires stands { ShowsOperations self.now }
        requires table { IsSeatOf shared.now seat.old }
        ensures answered { (labels : List Label) × SeatMakes seat.old labels seat.new
            × OperationsAnswer (published_operations self.now) (given_by input.now) labels result }
        ensures table { IsSeatOf shared.now seat.new }
    {
        match self.veto.program() {
            Some(program) => {
                // For the prover alone, by what the calls ensure.
                let _bound = program.bound();
                let _code = program.slots();
                let _regions = program.regions();
                run_in(memory, program, input, shared, seat).answer
            }
            None => 0,
        }
    }

    // Asks `veto` about a route.
    fn veto_answer(
        &self,
        route: &Route,
        moment: Second,
        rows: &[TableRow],
        memory: &mut WordMemory,
        shared: &Shared,
        seat: &mut Seat,
    ) -> VetoAnswer
        requires stands { ShowsOperations self.now }
        requires table { IsSeatOf shared.now seat.old }
        ensures answered { IsVetoAnswered (published_operations self.now)
            (published_operations self.now) seat.old seat.new moment rows.now route.now result }
        ensures table { IsSeatOf shared.now seat.new }
    {
        let input = Input {
            context: veto_context(*route, moment),
            packet: &[],
            rows,
        };
        let word = self.at_veto(&input, memory, shared, seat);
        VetoAnswer::new(*route, moment, word)
    }

    /// Asks `veto` about the next routes in turn, at most 64: those that come after the answered
    /// ones. Never blocks or allocates.
    pub fn vetoes(
        &self,
        routes: &[Route],
        moment: Second,
        rows: &[TableRow],
        shared: &Shared,
        seat: &mut Seat,
        answers: &mut Vec<VetoAnswer>,
    )
        requires stands { ShowsOperations self.now }
        requires table { IsSeatOf shared.now seat.old }
        requires left { vec_len answers.old < length routes.now }
        requires room { length routes.now ≤ vec_capacity answers.old }
        ensures answered { (known : List LoaderOperation) (first : SeatView)
            → AreAnswered known (published_operations self.now) first seat.old moment rows.now
            (take (vec_len answers.old) routes.now) answers.old.items
            → AreAnswered known (published_operations self.now) first seat.new moment rows.now
            (take (vec_len answers.new) routes.now) answers.new.items }
        ensures more { (vec_len answers.old < vec_len answers.new)
            × (vec_len answers.new ≤ length routes.now) }
        ensures room { vec_capacity answers.new ≡ vec_capacity answers.old }
        ensures table { IsSeatOf shared.now seat.new }
    {
        let mut memory = WordMemory::new();
        let from = answers.len();
        let end = from + (routes.len() - from).min(QUESTIONS_PER_READING);
        for at in from..end {
            let answer = self.veto_answer(&routes[at], moment, rows, &mut memory, shared, seat);
            answers.push_reserved(answer);
        }
    }
}

impl Absorb<HistoryEntry> for Programs {
    type State = Programs;

    ghost state = { λ p. p };

    ghost applied = { after_operation };

    ghost never_fails = { Unit {0} };

    /// Allocates nothing.
    fn absorb_first(&mut self, entry: &HistoryEntry, _other: &Programs) -> Result<(), AllocError> {
        match entry.operation.hook() {
            Hook::Count => self.count.change(&entry.operation),
            Hook::Tag => self.tag.change(&entry.operation),
            Hook::Price => self.price.change(&entry.operation),
            Hook::Veto => self.veto.change(&entry.operation),
        }
        self.prefix = entry.prefix.copy();
        Ok(())
    }
}
