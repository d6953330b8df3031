//! The place of one program.
ghost use Rattle.std.specs.Prelude.{◌≡◌, ◌↔◌, IfOk, IsTrue, None, Some, MatchOption};
ghost use Rattle.hooks.specs.Operations.{outcome_of, program_of};

use crate::operation::LoaderOperation;
use std::alloc::{AllocError, Global};
use std::marker::Model;
use verifier::Accepted;

/// The program counts while `attached`. The slot has capacity for every program. Contracts see the
/// program that it shows.
#[derive(Drop)]
pub struct ProgramSlot {
    accepted: Accepted,
    attached: bool,
}

impl Model for ProgramSlot {
    ghost use Rattle.std.specs.Prelude.{cond, Option, Some, None};
    ghost use Rattle.verifier.specs.Programs.{HasRoom};
    ghost use Rattle.hooks.specs.Operations.{Program, program_of};

    ghost Value = { Option Program };

    ghost view = { λ s. cond s.attached (Some (program_of s.accepted)) None };

    ghost invariant = { λ s. HasRoom s.accepted };
}

impl ProgramSlot {
    /// A slot without a program, with capacity for every one.
    ///
    /// # Errors
    /// `AllocError` if an allocation is refused.
    pub fn empty(alloc: Global) -> Result<ProgramSlot, AllocError>
        ensures { IfOk result (λ s. s ≡ None) }
    {
        Ok(ProgramSlot {
            accepted: Accepted::room(alloc)?,
            attached: false,
        })
    }

    /// Applies the operation, without an allocation.
    pub fn change(&mut self, operation: &LoaderOperation)
        ensures { self.new ≡ outcome_of operation.now }
    {
        match operation {
            LoaderOperation::Attach(accepted) => {
                accepted.copy_into(&mut self.accepted);
                self.attached = true;
            }
            LoaderOperation::Detach(_) => self.attached = false,
        }
    }

    /// Whether no program is attached here.
    pub fn is_vacant(&self) -> bool
        ensures { IsTrue result ↔ (self.now ≡ None) }
    {
        !self.attached
    }

    /// The program that is attached here.
    pub fn program(&self) -> Option<&Accepted>
        ensures { MatchOption result (self.now ≡ None) (λ a. self.now ≡ Some (program_of a.now)) }
    {
        if self.attached {
            Some(&self.accepted)
        } else {
            None
        }
    }
}
