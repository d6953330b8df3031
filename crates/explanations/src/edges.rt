//! What breaks a rule at an edge to a statement.
ghost use Rattle.std.specs.Prelude.{◌<◌};

use crate::phrases::{Value, is_byte, known_at, push_rank, push_register};
use crate::text::Text;
use inference::copy_of;
use inference::memory::{Memory, element_or};
use isa::{Hook, Instruction};
use kinds::{AbstractState, Fact, SegmentStart, kind_within};
use object::{Rank, RankTerm};
use transfer::branch::{refined, tested};
use transfer::straight::straight;
use verifier::Rule;
use verifier::edge::enter;
use verifier::follow::Operands;
use verifier::places::{jump_of, slots_of};
use verifier::starts::stated_at;

/// What is known of each register that isn't within the statement, and what is stated there, and a
/// line for the first such byte of the stack.
fn push_outside(out: &mut Text, target: &SegmentStart<'_, Value>, state: &AbstractState<Value>) {
    for register in 0..10usize {
        let known = known_at(&state.kinds, register);
        let stated = known_at(&target.kinds, register);
        if !kind_within(known, stated) {
            push_register(out, "  r{}: ", register, known, "\n");
            push_register(
                out,
                "  allowed: r{} ",
                register,
                stated,
                ", as is stated there\n",
            )
        }
    }
    let stated = target.statement.stack();
    for place in 0..512usize {
        if stated.contains(place) & !is_byte(&state.entries, place) {
            return out.numbered(
                "  stack ",
                place as u64,
                ": may be empty, or a part of a pointer\n  allowed: a byte, as is stated there\n",
            );
        }
    }
}

/// A line for the register of a rank's term, and how it relates to the statement above.
fn push_term(out: &mut Text, state: &AbstractState<Value>, term: Option<RankTerm>) {
    if let Some(term) = term {
        let register = term.register() as usize;
        push_register(
            out,
            "  r{}: ",
            register,
            known_at(&state.kinds, register),
            "",
        );
        match element_or(&state.facts, register, None) {
            Some(Fact { origin, up, down }) => out.fill(
                "; r{} of the statement above + {} - {}\n",
                &[origin as u128, up, down],
            ),
            None => out.push("; not followed from the statement above\n"),
        }
    }
}

/// The rank at the edge's target, and what it should be.
fn push_ranks(
    out: &mut Text,
    target: &SegmentStart<'_, Value>,
    is_back: bool,
    segment: &SegmentStart<'_, Value>,
    state: &AbstractState<Value>,
) {
    let there = target.statement.rank();
    let Rank { first, second, .. } = there;
    push_rank(out, "  the rank there: ", there, "\n");
    push_term(out, state, first);
    push_term(out, state, second);
    let allowed = if is_back {
        "  allowed: less than "
    } else {
        "  allowed: at most "
    };
    let behind = ", the rank of the statement above, or of the entry\n";
    push_rank(out, allowed, segment.statement.rank(), behind)
}

/// The edges from a slot.
#[derive(Clone, Copy)]
pub(crate) struct Ways<'a> {
    pub memory: &'a Memory,
    pub segment_starts: &'a [Option<SegmentStart<'a, Value>>],
    /// The statement of the slot's segment.
    pub segment: &'a SegmentStart<'a, Value>,
    /// `None` at the entry.
    pub slot: Option<usize>,
}

impl Ways<'_> {
    /// What is wrong on the edge to the slot. Returns whether the slot is stated and something is
    /// wrong.
    pub fn push_to(&self, out: &mut Text, to: usize, state: &AbstractState<Value>) -> bool {
        if let Some(target) = stated_at(self.segment_starts, to) {
            let is_back = match self.slot {
                Some(slot) => to <= slot,
                None => false,
            };
            if let Err(rule) = enter(target, is_back, self.segment, state) {
                match self.slot {
                    Some(slot) => out.fill(
                        "  on the way from slot {} to slot {}\n",
                        &[slot as u128, to as u128],
                    ),
                    None => out.numbered("  on the way from the entry to slot ", to as u64, "\n"),
                }
                match rule {
                    Rule::NotWithin => push_outside(out, target, state),
                    _ => push_ranks(out, target, is_back, self.segment, state),
                }
                return true;
            }
        }
        false
    }

    /// What is wrong on an edge of a conditional jump, if its operands have these values. Returns
    /// whether anything is.
    fn push_narrowed(
        &self,
        out: &mut Text,
        operands: &Operands,
        values: Option<(Value, Value)>,
        to: usize,
        state: &AbstractState<Value>,
    ) -> bool {
        match values {
            Some(values) => {
                let before = copy_of(self.memory, state);
                let there = refined(before, operands.left, operands.right, values);
                self.push_to(out, to, &there)
            }
            None => false,
        }
    }

    /// What is wrong on the edges of a jump.
    fn push_jump(
        &self,
        out: &mut Text,
        instruction: &Instruction,
        to: usize,
        next: usize,
        state: &AbstractState<Value>,
    ) {
        match *instruction {
            Instruction::Branch {
                width,
                test,
                left,
                right,
                ..
            } => {
                let operands = Operands { left, right };
                if let Ok(edges) = tested(state, width, test, operands.left, operands.right) {
                    if !self.push_narrowed(out, &operands, edges.taken, to, state) {
                        let _is_wrong = self.push_narrowed(
                            out,
                            &operands,
                            edges.not_taken,
                            next,
                            state,
                        );
                    }
                }
            }
            _ => {
                let _is_wrong = self.push_to(out, to, state);
            }
        }
    }

    /// What is wrong on the edges of an instruction at the slot, given what is known there.
    pub fn push(
        &self,
        out: &mut Text,
        hook: Hook,
        slot: usize,
        instruction: &Instruction,
        state: &AbstractState<Value>,
    )
        requires { slot < 4096 }
    {
        let next = slot + slots_of(instruction);
        match jump_of(slot, instruction) {
            Some(to) => self.push_jump(out, instruction, to, next, state),
            None => {
                let before = copy_of(self.memory, state);
                if let Ok(after) = straight(before, hook, *instruction) {
                    let _is_wrong = self.push_to(out, next, &after);
                }
            }
        }
    }
}
