//! Objects: code with its hook, the rank at its entry and its statements.
ghost use Rattle.std.specs.Prelude.{◌≡◌, ◌↔◌, ◌^◌, ◌<◌, ◌≤◌, length, IfSome, IsSome, IsTrue};
ghost use Rattle.object.specs.Objects.{AreStatements, IsObject, ObjectParts, slots_of};

use crate::statement::Statement;
use isa::{Hook, MAX_SLOTS};
use std::marker::Model;

/// A program as a file has it: 1 to 4096 slots of code, not decoded here, and statements at some of
/// them in the order of their slots. Contracts see the record of its parts, the code as its bytes.
#[derive(Drop)]
pub struct Object {
    hook: Hook,
    entry_rank: u32,
    code: Vec<u8>,
    statements: Vec<Statement>,
}

impl Model for Object {
    ghost use Rattle.object.specs.Objects.{IsObject, ObjectParts};

    ghost Value = { ObjectParts };

    ghost view = { λ o. record {
      hook = o.hook;
      entry_rank = o.entry_rank;
      code = o.code.items;
      statements = o.statements.items;
    } };

    ghost invariant = { λ o. IsObject (record {
      hook = o.hook;
      entry_rank = o.entry_rank;
      code =
          o.code.items;
      statements = o.statements.items;
    }) };
}

/// Whether the statements' slots ascend and lie below `slots`.
fn are_in_order(statements: &[Statement], slots: usize) -> bool
    requires { slots < 2 ^ 32 }
    ensures { IsTrue result ↔ AreStatements 0 slots statements.now }
{
    let mut least = 0;
    for statement in statements {
        let slot = statement.slot() as usize;
        if slot < least || slots <= slot {
            return false;
        }
        least = slot + 1;
    }
    true
}

impl Object {
    /// An object of these parts. `None` if the code isn't 1 to 4096 whole slots, or if the
    /// statements' slots don't ascend or aren't in the code.
    pub fn new(
        hook: Hook,
        entry_rank: u32,
        code: Vec<u8>,
        statements: Vec<Statement>,
    ) -> Option<Object>
        ensures some { IsSome result
            ↔ IsObject (record {
              hook = hook;
              entry_rank = entry_rank;
              code = code.items;
              statements
                  = statements.items;
            }) }
        ensures value { IfSome result (λ o. o ≡ record {
          hook = hook;
          entry_rank = entry_rank;
          code
              = code.items;
          statements = statements.items;
        }) }
    {
        let slots = code.len() / 8;
        if code.len() % 8 != 0 || slots == 0 || slots > MAX_SLOTS {
            return None;
        }
        if !are_in_order(&statements, slots) {
            return None;
        }
        Some(Object {
            hook,
            entry_rank,
            code,
            statements,
        })
    }

    pub(crate) fn from_parts(
        hook: Hook,
        entry_rank: u32,
        code: Vec<u8>,
        statements: Vec<Statement>,
    ) -> Object
        requires { IsObject (record {
          hook = hook;
          entry_rank = entry_rank;
          code = code.items;
          statements = statements.items;
        }) }
        ensures { result ≡ record {
          hook = hook;
          entry_rank = entry_rank;
          code = code.items;
          statements = statements.items;
        } }
    {
        Object {
            hook,
            entry_rank,
            code,
            statements,
        }
    }

    /// The hook that the program is for.
    pub fn hook(&self) -> Hook
        ensures value { result ≡ self.now.hook }
        ensures is_object { IsObject self.now }
    {
        self.hook
    }

    /// The rank at the entry: what the file claims to be an upper bound of the backward jumps of a
    /// run.
    pub fn entry_rank(&self) -> u32
        ensures value { result ≡ self.now.entry_rank }
        ensures is_object { IsObject self.now }
    {
        self.entry_rank
    }

    /// The bytes of the code, eight a slot.
    pub fn code(&self) -> &[u8]
        ensures value { result.now ≡ self.now.code }
        ensures is_object { IsObject self.now }
    {
        &self.code
    }

    /// The number of slots of the code, 1 to 4096.
    pub fn slots(&self) -> usize
        ensures value { result ≡ slots_of self.now }
        ensures is_object { IsObject self.now }
    {
        self.code.len() / 8
    }

    /// The statements, in the order of their slots: at most 4096.
    pub fn statements(&self) -> &[Statement]
        ensures value { result.now ≡ self.now.statements }
        ensures is_object { IsObject self.now }
        ensures most { length result.now ≤ 4096 }
    {
        &self.statements
    }
}
