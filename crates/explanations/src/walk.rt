//! The verifier's pass, with words for what it knows, up to the slot that it refuses.
ghost use Rattle.std.specs.Prelude.{◌≡◌, ◌<◌, slice_get, Some};
ghost use Rattle.isa.specs.declared.code.Slot.TheVariants.{Start};

use crate::edges::Ways;
use crate::page::Page;
use crate::phrases::{Value, known_at, push_fact, push_rank, push_register, push_stack};
use crate::reasons::push_reason;
use crate::text::Text;
use inference::liveness::{Registers, has};
use inference::memory::{Memory, element_or};
use inference::{copy_of, entry_state};
use isa::{Code, Hook, Instruction, Slot};
use kinds::{AbstractState, SegmentStart, reset};
use verifier::follow::follow;
use verifier::known::Known;
use verifier::places::check_places;
use verifier::starts::stated_at;
use verifier::{Refusal, Rule};

/// A program, and what is the same at all slots.
#[derive(Drop)]
pub(crate) struct Program<'a> {
    pub memory: &'a Memory,
    pub code: &'a Code,
    pub hook: Hook,
    pub live: Vec<Registers>,
    pub segment_starts: Vec<Option<SegmentStart<'a, Value>>>,
    /// The statement of the entry.
    pub entry: SegmentStart<'a, Value>,
    /// The slot and the rule by which the verifier refuses it, if it does.
    pub refusal: Option<Refusal>,
}

impl<'a> Program<'a> {
    /// The statement of the segment that begins at the slot, or at the entry.
    fn segment(&self, begun: Option<usize>) -> &SegmentStart<'a, Value> {
        match begun {
            Some(slot) => stated_at(&self.segment_starts, slot).unwrap_or(&self.entry),
            None => &self.entry,
        }
    }

    /// The rule by which the verifier refuses it at the slot, if it does.
    fn rule_at(&self, slot: usize) -> Option<Rule> {
        match self.refusal {
            Some(refusal) if refusal.slot == slot => Some(refusal.rule),
            _ => None,
        }
    }
}

/// What is known at a slot.
#[derive(Drop)]
pub(crate) struct Here {
    /// The slot at which the segment begins, or `None` for the entry.
    begun: Option<usize>,
    known: Known<Value>,
}

impl Here {
    /// At the entry.
    pub fn new(state: AbstractState<Value>) -> Here {
        Here {
            begun: None,
            known: Known {
                state,
                is_live: true,
            },
        }
    }

    /// What is known of the register, and how it has changed since the statement at the slot at
    /// which the segment begins.
    fn push_live(&self, out: &mut Text, register: usize) {
        let kind = known_at(&self.known.state.kinds, register);
        push_register(out, "    r{}: ", register, kind, "");
        if let Some(begun) = self.begun {
            if let Some(fact) = element_or(&self.known.state.facts, register, None) {
                push_fact(out, register, fact, begun)
            }
        }
        out.push("\n")
    }

    /// Prints what is known at the slot of each register that may be read from there on, and of the
    /// stack.
    fn push(&self, out: &mut Text, program: &Program<'_>, slot: usize) {
        if self.known.is_live {
            let live = element_or(&program.live, slot, 0);
            for register in 0..10usize {
                if has(live, register) {
                    self.push_live(out, register)
                }
            }
            push_stack(out, &self.known.state.entries)
        } else {
            out.push("    no run comes here\n")
        }
    }

    /// Moves on past the instruction. Returns whether it isn't refused.
    fn follow(&mut self, program: &Program<'_>, slot: usize, instruction: Instruction) -> bool
        requires small { slot < 4096 }
        requires here { slice_get program.now.code.now slot ≡ Some (Start instruction) }
    {
        if !self.known.is_live {
            return true;
        }
        let code = program.code;
        let segment_starts = program.segment_starts.as_slice();
        if check_places(code, segment_starts, true, slot, &instruction).is_err() {
            return false;
        }
        let segment = program.segment(self.begun);
        let before = copy_of(program.memory, &self.known.state);
        match follow(
            code,
            program.hook,
            segment_starts,
            segment,
            before,
            slot,
            instruction,
        ) {
            Ok(known) => {
                self.known = known;
                true
            }
            Err(_) => false,
        }
    }

    /// What is wrong at the instruction that the verifier refuses by this rule.
    fn push_fault(
        &self,
        out: &mut Text,
        program: &Program<'_>,
        slot: usize,
        rule: Rule,
        instruction: &Instruction,
    )
        requires { slot < 4096 }
    {
        match rule {
            Rule::NotWithin | Rule::Rank => {
                let ways = Ways {
                    memory: program.memory,
                    segment_starts: &program.segment_starts,
                    segment: program.segment(self.begun),
                    slot: Some(slot),
                };
                ways.push(out, program.hook, slot, instruction, &self.known.state)
            }
            _ => push_reason(
                out,
                program.hook,
                slot,
                instruction,
                &self.known.state,
                rule,
            ),
        }
    }

    /// Prints the slot, with its statement, which begins a segment, and moves on past its
    /// instruction. If the verifier refuses it, prints what is wrong there. Returns whether it
    /// moved on.
    fn pass(
        &mut self,
        page: &mut Page<'_>,
        program: &Program<'_>,
        slot: usize,
        instruction: Instruction,
    ) -> bool
        requires small { slot < 4096 }
        requires here { slice_get program.now.code.now slot ≡ Some (Start instruction) }
    {
        page.turn(slot);
        if let Some(segment) = stated_at(&program.segment_starts, slot) {
            let rank = segment.statement.rank();
            push_rank(&mut page.here, "    stated, rank ", rank, "\n");
            self.begun = Some(slot);
            self.known.state = reset(entry_state(program.memory, 512), segment);
            self.known.is_live = true;
        }
        self.push(&mut page.here, program, slot);
        match program.rule_at(slot) {
            Some(rule) => {
                self.push_fault(&mut page.reasons, program, slot, rule, &instruction);
                false
            }
            None => self.follow(program, slot, instruction),
        }
    }
}

/// Passes over the code as the verifier does, up to the slot that it refuses, and prints what is
/// wrong there.
pub(crate) fn push_pass(page: &mut Page<'_>, program: &Program<'_>, here: &mut Here) {
    for slot in 0..program.code.len() {
        if let Some(Slot::Start(instruction)) = program.code.at(slot as u64) {
            if !here.pass(page, program, slot, instruction) {
                return;
            }
        } else if program.rule_at(slot).is_some() {
            return page.reasons.numbered(
                "  slot ",
                slot as u64,
                " is stated, and is the second half of a wide instruction\n  allowed: a slot \
                    where an instruction begins\n",
            );
        }
    }
}
