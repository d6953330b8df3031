//! Laws of the machine, each the contract of a function that does nothing.
ghost use Rattle.machine.specs.Laws.{GoesOneWay, LeastFaultCounts, FaultIsUnique, AnswerIsUnique};
ghost use Rattle.machine.specs.Laws.{LabelDeterminesNext, StatesGoOn, RunsGoOn, AddingEnds};
ghost use Rattle.machine.specs.Laws.{FaultIgnoresInput, SafeRunsEnd, LabelsDetermineAnswer};
ghost use Rattle.machine.specs.Laws.{EmptyExitIsUnsafe, ReadsAreOfRegisters, StepsLeadByCode};
ghost use Rattle.machine.specs.Laws.{StepsWriteTheirTarget};

/// A state is at most one of these: able to step, at EXIT with an answer, stuck.
pub fn a_state_goes_one_way()
    ensures { GoesOneWay }
{}

/// A state whose stack is whole, on an input in its ranges, is stuck, or steps, or is at EXIT with
/// an answer.
pub fn a_state_is_stuck_or_goes_on()
    ensures { StatesGoOn }
{}

/// Each state that a run on an input in its ranges reaches is stuck, or steps, or is at EXIT with
/// an answer.
pub fn a_run_goes_on_until_it_ends()
    ensures { RunsGoOn }
{}

/// If the conditions of several faults hold, the fault with the least number counts, except that
/// `Helper` comes first at a call.
pub fn the_least_fault_counts()
    ensures { LeastFaultCounts }
{}

/// A state is stuck for one reason only.
pub fn the_fault_is_unique()
    ensures { FaultIsUnique }
{}

/// A state at EXIT has one answer only.
pub fn the_answer_is_unique()
    ensures { AnswerIsUnique }
{}

/// A step's label determines the state after it.
pub fn the_label_determines_the_next_state()
    ensures { LabelDeterminesNext }
{}

/// A program that adds 3 to counter 5 ends after four instructions, whatever its input.
pub fn a_counting_program_ends()
    ensures { AddingEnds }
{}

/// Whether the machine is stuck at a state, and why, doesn't depend on the input.
pub fn the_input_makes_no_fault()
    ensures { FaultIgnoresInput }
{}

/// Each run of a safe program, on an input in its ranges, goes on to an end, within its number of
/// instructions, whatever counters and cells answer.
pub fn a_safe_program_ends()
    ensures { SafeRunsEnd }
{}

/// The labels of a run determine its answer.
pub fn the_labels_determine_the_answer()
    ensures { LabelsDetermineAnswer }
{}

/// `exit` alone is not safe, whatever the number of instructions.
pub fn an_empty_exit_is_never_safe()
    ensures { EmptyExitIsUnsafe }
{}

/// What an instruction other than a call reads is what its registers hold, followed by its number.
pub fn an_instruction_reads_its_registers()
    ensures { ReadsAreOfRegisters }
{}

/// A step of an instruction other than a call changes no register but the instruction's target.
pub fn a_step_writes_its_target_alone()
    ensures { StepsWriteTheirTarget }
{}

/// A step leads to the slot after its instruction, or to the target of its jump.
pub fn a_step_leads_behind_or_to_the_target()
    ensures { StepsLeadByCode }
{}
