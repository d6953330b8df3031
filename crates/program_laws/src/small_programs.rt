//! What the definitions of refusals and of accepted programs say of small programs, each the
//! contract of a function with an empty body. Each law is about one to three programs of at most
//! four instructions, which its definition writes out, so that definitions that said less would
//! make it false. None says anything of other programs.
ghost use Rattle.isa.specs.declared.hook.Hook.{Hook};
ghost use Rattle.program_laws.specs.Refusals.{HelpersAndTheBoundAreChecked, LaterRulesDontCount};
ghost use Rattle.program_laws.specs.Refusals.{RulesCountInTheirOrder};
ghost use Rattle.program_laws.specs.Refusals.{SoundProgramsBreakNoRuleOnCode};
ghost use Rattle.program_laws.specs.Runs.{LaterSlotsAreAsStated, LoadsAreOfTheContext};
ghost use Rattle.program_laws.specs.Runs.{LoadsAreOfTheirMap, StartsAsStated, StoresAreOfTheStack};

use absdom::Domain;

/// `r0 = 7; exit`, and a program that jumps to a statement, are refused by no rule that depends
/// only on the code and its statements: both are sound.
pub fn sound_programs_break_no_rule_on_code()
    ensures { SoundProgramsBreakNoRuleOnCode }
{}

/// The helper of `call 1; exit` isn't reported as missing, that of `call 9; exit` may be. The bound
/// is reported only if it is exceeded, at slot 0: for `r0 = 7; exit` with the rank 500,000 at its
/// entry, and not with 499,999.
pub fn helpers_and_the_bound_are_checked()
    ensures { HelpersAndTheBoundAreChecked }
{}

/// The second slot of `r0 = 7; if r0 == 0 goto L; L: exit` breaks the rule on statements if there
/// is none at L: no later rule counts there, and none at a later slot.
pub fn later_rules_dont_count()
    ensures { LaterRulesDontCount }
{}

/// The rules on jumps, statements and the end of the code count in this order at a slot: targets,
/// the end, unreachable slots, missing statements; no other rule counts if one of them is broken.
/// It is so of three programs, each with a slot that breaks one of the first three of these.
pub fn rules_count_in_their_order()
    ensures { RulesCountInTheirOrder }
{}

/// The load of `r0 = *u64 r1 0; exit` is from the context.
pub fn loads_are_of_the_context()
    ensures { LoadsAreOfTheContext }
{}

/// The store of `*u64 r10 -8 = r1; exit` is to the stack.
pub fn stores_are_of_the_stack()
    ensures { StoresAreOfTheStack }
{}

/// The load of `r1 = map; r0 = *u64 r1 0; exit`, which comes after a step, is from that map.
pub fn loads_are_of_their_map()
    ensures { LoadsAreOfTheirMap }
{}

/// `r0 = *u64 r1 0; exit` isn't accepted with a statement at its first slot that is false at the
/// start of a run: another offset in r1, a number in r0, or a byte on the stack.
pub fn runs_start_as_stated<D: Domain>()
    ensures { (hook : Hook) → StartsAsStated D.contains D.stated_gives hook }
{}

/// Nor is `r0 = 7; exit` with a statement at its second slot that r0 is a pointer.
pub fn later_slots_are_as_stated<D: Domain>()
    ensures { (hook : Hook) → LaterSlotsAreAsStated D.contains D.stated_gives hook }
{}
