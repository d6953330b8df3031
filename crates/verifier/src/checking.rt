//! The verifier's main call.
ghost use Rattle.std.specs.Prelude.{◌≡◌, ◌+◌, ◌*◌, ◌<◌, ◌≤◌, IfErr, IfOk, IsErrOf, length};
ghost use Rattle.object.specs.Objects.{AreStatements};
ghost use Rattle.machine.specs.Runs.{Safe};
ghost use Rattle.verifier.specs.Refusals.{IsFirst, MayRefuse, budget};
ghost use Rattle.verifier.specs.Plain.{IsPlain};
ghost use Rattle.verifier.specs.Stated.{RunsMeetStatements};

use crate::accepted::Accepted;
use crate::entry::{enter_start, entry_of, entry_statement, unknown};
use crate::pass::pass_all;
use crate::refusal::Refusal;
use crate::region::any_regions;
use crate::starts::segment_starts_of;
use absdom::Domain;
use actions::actions_of;
use isa::{Code, Hook};
use object::Statement;
use std::alloc::Global;
use transfer::rule::Rule;

/// The maximum number of instructions that a run may execute.
pub const BUDGET: u64 = 1_000_000;

/// The bound of the instructions that a run may execute: the rank at the entry plus 1, times the
/// slots of the code. Between two jumps back a run passes each slot at most once, and each jump
/// back lowers the rank, which never rises. Errors with `Budget` if that exceeds `BUDGET`.
fn bound_of_runs(rank: u32, size: usize) -> Result<u64, Refusal>
    requires { size ≤ 4096 }
    ensures value { IfOk result (λ bound. bound ≡ (rank + 1) * size) }
    ensures most { IfOk result (λ bound. bound ≤ budget) }
    ensures over { IfErr result (λ refusal. budget < (rank + 1) * size) }
    ensures named { IfErr result (λ refusal. refusal ≡ record { slot = 0; rule = Rule.Budget }) }
{
    let bound = (rank as u64 + 1) * size as u64;
    if bound > BUDGET {
        return Err(Refusal {
            slot: 0,
            rule: Rule::Budget,
        });
    }
    Ok(bound)
}

/// Accepts the code only if it is safe: no run is ever stuck, and each ends within `(entry_rank +
/// 1) * slots` instructions, at most 1,000,000. Each run that reaches a slot with a statement is as
/// stated there, as far as the domain distinguishes numbers. The statements are in the order of
/// their slots, each slot once, as an object holds them.
///
/// A plain program, one that uses only numbers in registers and states no more than that they are
/// numbers, is refused for memory or not at all, whatever the domain.
///
/// # Errors
/// The first slot that breaks a rule and, of the rules broken there, the one that is checked first.
/// The rules on jumps, statements and the code's end are named only if they are broken and none of
/// them is broken before; those on helpers, on the bound and on r10 only if they are broken. Any
/// other rule may be named because the domain knows too little. `Memory`, at slot 0 alone, means
/// that an allocation was refused, which no clause says.
pub fn verify<D: Domain>(
    alloc: Global,
    hook: Hook,
    code: Code,
    entry_rank: u32,
    statements: &[Statement],
) -> Result<Accepted, Refusal>
    requires { AreStatements 0 (length code) statements.now }
    ensures same { IfOk result (λ accepted. (accepted.code ≡ code) × (accepted.hook ≡ hook)) }
    ensures bound { IfOk result (λ accepted. (accepted.bound ≡ (entry_rank + 1) * length code)
        × (accepted.bound ≤ budget)) }
    ensures safe { IfOk result (λ _. Safe code hook ((entry_rank + 1) * length code)) }
    ensures stated { IfOk result (λ _.
        RunsMeetStatements D.contains D.stated_gives code hook statements.now) }
    ensures named { IfErr result (λ refusal.
        MayRefuse hook code entry_rank statements.now refusal.slot refusal.rule) }
    ensures first { IfErr result (λ refusal.
        IsFirst code statements.now refusal.slot refusal.rule) }
    ensures plain { IsPlain code entry_rank statements.now
        → IfErr result (λ refusal. refusal.rule ≡ Rule.Memory) }
    // The bound is checked before anything is allocated, so that a refused allocation never hides
    // that it is exceeded.
    ensures over { budget < (entry_rank + 1) * length code
        → IsErrOf result (record { slot = 0; rule = Rule.Budget }) }
{
    // For the prover alone: the slots are code.
    let _is_code = code.slots();
    let bound = bound_of_runs(entry_rank, code.len())?;
    let statement = entry_statement(entry_rank);
    let entry = entry_of::<D>(alloc, &statement)?;
    let segment_starts = segment_starts_of::<D>(alloc, code.len(), statements)?;
    let known = enter_start(&segment_starts, &entry, unknown(alloc)?)?;
    let room = any_regions(alloc, code.len())?;
    let regions = pass_all(&code, hook, &segment_starts, &entry, known, room)?;
    let actions = actions_of(alloc, code.len(), code.slots(), &regions)?;
    Ok(Accepted {
        slots: code.into_slots(),
        regions,
        actions,
        hook,
        bound,
    })
}
