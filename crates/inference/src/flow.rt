//! A pass over the code, in the order of its slots, by the verifier's transfer functions.
ghost use Rattle.std.specs.Prelude.{◌<◌};

use crate::draft::{Arrival, StatementDraft};
use crate::edges::copy_of;
use crate::joining::{Value, any_number, idle_statement};
use crate::liveness::{Registers, live_registers, reads_frame, target_of};
use crate::memory::{Memory, element_or};
use crate::sites::{Sites, sites_of};
use isa::{Code, Hook, Instruction, Register, Slot, Source, Test, Width};
use kinds::{
    AbstractState, Kind, PointerPlace, StackEntry, put, reset, segment_start_of as stated,
};
use object::Statement;
use transfer::branch::tested;
use transfer::load::any_loaded;
use transfer::straight::straight;
use verifier::places::{jump_of, jumped_near, slots_of};

/// A program, and what is the same in all passes.
#[derive(Drop)]
pub struct Program<'a> {
    pub memory: &'a Memory,
    pub code: &'a Code,
    pub hook: Hook,
    pub sites: Sites,
    pub live: Vec<Registers>,
    /// The number of stack bytes that are tracked: all 512, or none for a program that never
    /// accesses the stack.
    pub depth: usize,
}

/// What is known at a slot, in the segment that begins at site `begun`; the number of sites stands
/// for the entry.
#[derive(Drop)]
struct Here {
    begun: usize,
    state: AbstractState<Value>,
    is_live: bool,
    /// Whether no run reaches the slot, which is followed only to find statements for sites that
    /// have none.
    is_idle: bool,
}

/// Passes over a program: the statements so far, and what is known at the slot that the current one
/// has reached.
#[derive(Drop)]
pub struct Passes<'a> {
    pub program: Program<'a>,
    pub draft: StatementDraft,
    here: Here,
}

/// A conditional jump.
#[derive(Clone, Copy)]
struct Branch {
    width: Width,
    test: Test,
    left: Register,
    right: Source,
    to: usize,
}

/// What is known at the start of a run: r1 points to the context. `depth` bytes of the stack are
/// tracked.
pub fn entry_state(memory: &Memory, depth: usize) -> AbstractState<Value> {
    let mut kinds = memory.filled(Kind::Unknown, 10);
    put(&mut kinds, 1, Kind::Pointer(PointerPlace::Context(0)));
    AbstractState {
        kinds,
        facts: memory.filled(None, 10),
        entries: memory.filled(StackEntry::Unknown, depth),
    }
}

/// Narrows what is known to the operands having these values. If that is impossible, no run takes
/// the edge.
fn narrow(here: &mut Here, branch: &Branch, values: Option<(Value, Value)>) {
    match values {
        Some((left, right)) => {
            put(
                &mut here.state.kinds,
                branch.left.index(),
                Kind::Number(left),
            );
            if let Source::Register(register) = branch.right {
                put(&mut here.state.kinds, register.index(), Kind::Number(right))
            }
        }
        None => here.is_idle = true,
    }
}

impl<'a> Passes<'a> {
    /// The program of the code at the hook, over which no pass has been made yet. It has a site for
    /// each given statement, too. Bounds that grow are widened to these limits.
    pub fn new(
        memory: &'a Memory,
        code: &'a Code,
        hook: Hook,
        given: &[Statement],
        limits: Vec<u64>,
    ) -> Passes<'a> {
        let program = Program {
            memory,
            code,
            hook,
            sites: sites_of(memory, code, given),
            live: live_registers(memory, code, hook),
            depth: if reads_frame(code, hook) { 512 } else { 0 },
        };
        let draft = StatementDraft::new(memory, program.sites.slots.len(), limits);
        let here = Here {
            begun: 0,
            state: entry_state(memory, program.depth),
            is_live: false,
            is_idle: false,
        };
        Passes {
            program,
            draft,
            here,
        }
    }

    /// Takes the edge to a slot, if that has a statement.
    fn enter(&mut self, slot: usize, is_back: bool) {
        if let Some(site) = self.program.sites.at(slot) {
            if !self.here.is_idle || self.draft.lacks(site) {
                let arrival = Arrival {
                    slot,
                    site,
                    from: self.here.begun,
                    is_back,
                    is_head: self.program.sites.is_head(site),
                    live: element_or(&self.program.live, slot, 0),
                };
                self.draft
                    .take(self.program.memory, &arrival, &self.here.state)
            }
        }
    }

    /// Moves on to the next slot. If that has a statement, the edge to it is taken, and the segment
    /// ends.
    fn go_on(&mut self, next: usize) {
        self.enter(next, false);
        let is_followed = !self.here.is_idle | self.draft.is_lenient;
        self.here.is_live = is_followed & self.program.sites.at(next).is_none();
    }

    /// Takes each edge of a conditional jump that a run may take.
    fn branch(&mut self, slot: usize, branch: &Branch)
        requires { slot < 4096 }
    {
        let tested = tested(
            &self.here.state,
            branch.width,
            branch.test,
            branch.left,
            branch.right,
        );
        if let Ok(edges) = tested {
            let was_idle = self.here.is_idle;
            narrow(&mut self.here, branch, edges.taken);
            self.enter(branch.to, branch.to <= slot);
            self.here.is_idle = was_idle;
            narrow(&mut self.here, branch, edges.not_taken);
        } else {
            // The verifier refuses the test: both edges get what is known before it.
            self.enter(branch.to, branch.to <= slot);
        }
        self.go_on(slot + 1)
    }

    /// Moves on past an instruction that is no jump.
    fn move_on(&mut self, slot: usize, instruction: Instruction)
        requires { slot < 4096 }
    {
        let before = copy_of(self.program.memory, &self.here.state);
        match straight(before, self.program.hook, instruction) {
            Ok(after) => self.here.state = after,
            Err(_) => excuse(&mut self.here.state, &instruction),
        }
        self.go_on(slot + slots_of(&instruction))
    }

    /// Begins a segment at the site, with this statement.
    pub fn begin(&mut self, site: usize, statement: &Statement) {
        let memory = self.program.memory;
        match stated(memory.alloc, statement) {
            Ok(target) => {
                self.here = Here {
                    begun: site,
                    state: reset(entry_state(memory, self.program.depth), &target),
                    is_live: true,
                    is_idle: false,
                }
            }
            Err(_) => memory.note(true),
        }
    }

    /// Reaches the slot. A statement there begins a segment, if that is to be visited now. A site
    /// that no edge reaches is stated, so that the verifier has a statement to check.
    fn arrive(&mut self, slot: usize) {
        if let Some(site) = self.program.sites.at(slot) {
            self.here.is_live = false;
            if self.draft.lacks(site) {
                let live = element_or(&self.program.live, slot, 0);
                self.draft.assume(site, idle_statement(slot, live))
            }
            if let Some(statement) = self.draft.due(site) {
                self.begin(site, &statement)
            }
        }
    }

    /// Moves on by the instruction at the slot.
    fn step(&mut self, slot: usize, instruction: Instruction)
        requires { slot < 4096 }
    {
        match instruction {
            Instruction::Jump { .. } | Instruction::LongJump { .. } | Instruction::Exit => {
                if let Some(to) = jump_of(slot, &instruction) {
                    self.enter(to, to <= slot);
                }
                self.here.is_live = false;
            }
            Instruction::Branch {
                width,
                test,
                left,
                right,
                distance,
            } => {
                let branch = Branch {
                    width,
                    test,
                    left,
                    right,
                    to: jumped_near(slot, distance),
                };
                self.branch(slot, &branch)
            }
            _ => self.move_on(slot, instruction),
        }
    }

    /// Begins at the entry of the program. If slot 0 has a statement, the edge from the entry leads
    /// there, which is no backward jump: it comes from before the first slot. Else the entry's
    /// segment begins there, if it `is_due`.
    pub fn begin_at_entry(&mut self, is_due: bool) {
        self.here = Here {
            begun: self.program.sites.slots.len(),
            state: entry_state(self.program.memory, self.program.depth),
            is_live: is_due & self.program.sites.at(0).is_none(),
            is_idle: false,
        };
        self.enter(0, false)
    }

    /// Follows the segment that begins at the slot. Returns the number of its instructions.
    pub fn follow_segment(&mut self, first: usize) -> usize {
        let code = self.program.code;
        let mut steps = 0usize;
        for slot in first..code.len() {
            if !self.here.is_live {
                break;
            }
            if let Some(Slot::Start(instruction)) = code.at(slot as u64) {
                self.step(slot, instruction);
                steps = steps.saturating_add(1);
            }
        }
        steps
    }

    /// Passes over the code once.
    pub fn pass(&mut self) {
        let is_due = self.draft.is_new | !self.draft.is_rising();
        self.draft.is_new = false;
        self.begin_at_entry(is_due);
        let code = self.program.code;
        for slot in 0..code.len() {
            if let Some(Slot::Start(instruction)) = code.at(slot as u64) {
                self.arrive(slot);
                if self.here.is_live {
                    self.step(slot, instruction)
                }
            }
        }
    }
}

/// Sets what is known of a register, without a relation to the start of the segment.
fn put_known(state: &mut AbstractState<Value>, register: usize, kind: Kind<Value>) {
    put(&mut state.kinds, register, kind);
    put(&mut state.facts, register, None)
}

/// Moves on past an instruction that the verifier refuses: it fills its target with any number that
/// it may load, and a call empties the registers that any call empties, and fills r0 with any
/// number.
fn excuse(state: &mut AbstractState<Value>, instruction: &Instruction) {
    if let Some(target) = target_of(instruction) {
        let filled = match *instruction {
            Instruction::Load { size, .. } => Kind::Number(any_loaded(size)),
            _ => any_number(),
        };
        put_known(state, target.index(), filled)
    }
    if matches!(instruction, Instruction::Call { .. }) {
        for register in 0..6usize {
            put_known(state, register, Kind::Unknown)
        }
        put_known(state, 0, any_number())
    }
}
