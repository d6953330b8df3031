//! Runs of code that counts turns, compared with runs of the given code: laws about their
//! definitions, each the contract of a function with an empty body.
ghost use Rattle.program_laws.specs.CountedRuns.{CodeThatStaysInsideIsNeverLeft};
ghost use Rattle.program_laws.specs.CountedRuns.{CountedRunsAreRuns};
ghost use Rattle.program_laws.specs.CountedExample.{IsCountedSo};

use machine::laws::{a_step_leads_behind_or_to_the_target, the_least_fault_counts};

/// A run of code that counts turns is a run of the given code, with the same answer and the same
/// accesses to counters and cells, in which no more steps lead back to the heads of loops than
/// turns are counted. Or it returns the chosen answer, if the given code takes one such step more
/// than that. Or the given code gets to a slot at which none of its instructions begins.
pub fn runs_of_counted_code_are_runs()
    ensures { CountedRunsAreRuns }
{}

/// The last of these doesn't come if each instruction of the given code leads to others of it. That
/// is so of all code whose turns `annotations` counts.
pub fn code_that_stays_inside_is_never_left()
    ensures { CodeThatStaysInsideIsNeverLeft }
{
    runs_of_counted_code_are_runs();
    the_least_fault_counts();
    a_step_leads_behind_or_to_the_target();
}

/// The code for an endless loop of which two turns are counted is what one would write by hand.
pub fn a_counted_loop_is_as_written_by_hand()
    ensures { IsCountedSo }
{}
