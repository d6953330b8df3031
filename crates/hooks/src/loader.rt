//! Attaches and detaches programs.
ghost use Rattle.std.specs.Prelude.{◌≡◌, ◌≢◌, ◌<◌, ◌≤◌, [], ◌∷◌, ◌++◌, drop, fold, Some, All};
ghost use Rattle.std.specs.Prelude.{vec_len, IfOk, IfErr, MatchResult};
ghost use Rattle.left_right.specs.Sides.{view};
ghost use Rattle.hooks.specs.History.{head_of};
ghost use Rattle.hooks.specs.Shown.{Fits, after_operation, history, vacant};
ghost use Rattle.hooks.specs.declared.operation.LoaderOperation.TheVariants.{Attach, Detach};
ghost use Rattle.isa.specs.declared.hook.Hook.TheVariants.{Count as HookCount};

use crate::asker::Asker;
use crate::error::HookError;
use crate::history::{Head, HistoryPrefix};
use crate::numbered::Numbered;
use crate::operation::LoaderOperation;
use crate::rule::{ProgramWriter, Sees, Takes, Tells};
use crate::value::{HistoryEntry, Programs};
use core::mem::replace_with;
use machine::Hook;
use std::alloc::{AllocError, Global};
use std::sync::Wait;
use verifier::Accepted;

/// Attaches and detaches programs. It keeps the handle `R`, since its drop waits for the askers
/// that are reading.
pub struct Loader<R: Wait + Drop> {
    writer: ProgramWriter,
    head: Head,
    rt: R,
    ghost idle: { drop writer.behind writer.log.items ≡ [] },
    ghost knows: { view writer.desk.place ≡ Some writer.desk.shown.value.prefix },
    ghost head_is: { head ≡ head_of (history writer.desk.shown.value) },
}

/// What the loader tells an asker: its operations.
#[derive(Drop)]
pub struct Notice {
    pub(crate) prefix: HistoryPrefix,
}

/// Publishes each pending entry.
fn show<R: Wait>(writer: ProgramWriter, rt: &R) -> (ProgramWriter, ())
    requires { Fits writer.desk.shown.value (drop writer.behind writer.log.items) }
    ensures shown { result.0.desk.shown.value ≡ fold after_operation writer.desk.shown.value
        (drop writer.behind writer.log.items) }
    ensures idle { drop result.0.behind result.0.log.items ≡ [] }
    ensures knows { view result.0.desk.place ≡ Some result.0.desk.shown.value.prefix }
{
    let (writer, _published) = writer.publish_as::<Sees, R>(rt);
    (writer, ())
}

/// An entry that has no effect: it detaches from a hook without a program.
fn pad(prefix: &HistoryPrefix) -> HistoryEntry
    ensures { (result.operation ≡ Detach HookCount) × (result.prefix ≡ prefix.now) }
{
    HistoryEntry {
        operation: LoaderOperation::Detach(Hook::Count),
        prefix: prefix.copy(),
    }
}

/// Reserves two entries, so that no later one allocates: the one that readers see, and the next.
fn make_room<R: Wait>(
    mut writer: ProgramWriter,
    rt: &R,
    prefix: &HistoryPrefix,
) -> Result<ProgramWriter, AllocError>
    requires new { prefix.now.seen.log ≡ [] }
    requires shown { writer.desk.shown.value ≡ vacant prefix.now }
    requires idle { drop writer.behind writer.log.items ≡ [] }
    ensures shown { IfOk result (λ w. w.desk.shown.value ≡ vacant prefix.now) }
    ensures idle { IfOk result (λ w. drop w.behind w.log.items ≡ []) }
    ensures knows { IfOk result (λ w. view w.desk.place ≡ Some w.desk.shown.value.prefix) }
{
    if writer.append(pad(prefix)).is_err() || writer.append(pad(prefix)).is_err() {
        drop(writer.take(rt));
        return Err(AllocError);
    }
    let (writer, ()) = show(writer, rt);
    let (writer, ()) = show(writer, rt);
    Ok(writer)
}

impl<R: Wait + Drop> Loader<R> {
    ghost use Rattle.hooks.specs.Known.{IsNew, loader_history, notice_history, operations_of};
    ghost use Rattle.hooks.specs.Known.{told_by};
    ghost use Rattle.hooks.specs.declared.error.HookError.TheVariants.{Count};

    pub(crate) fn new(alloc: Global, rt: R, askers: usize) -> Result<Loader<R>, AllocError>
        requires { (0 < askers) × (askers ≤ 64) }
        ensures { IfOk result (λ l. operations_of l ≡ []) }
    {
        let (head, prefix) = HistoryPrefix::open();
        let first = Programs::empty(alloc, prefix.copy())?;
        let second = Programs::empty(alloc, prefix.copy())?;
        let writer = ProgramWriter::new(alloc, first, second, askers)?;
        let writer = make_room(writer, &rt, &prefix)?;
        Ok(Loader { writer, head, rt })
    }

    pub(crate) fn askers(&mut self, alloc: Global, askers: usize) -> Result<Vec<Asker>, HookError>
        requires { operations_of self.old ≡ [] }
        ensures same { (operations_of self.new ≡ operations_of self.old)
            × (loader_history self.new ≡ loader_history self.old) }
        ensures made { IfOk result (λ v. (vec_len v ≡ askers)
            × All (IsNew (loader_history self.old)) v.items) }
        ensures count { IfErr result (λ e. e ≢ Count) }
    {
        let Ok(mut list) = Vec::with_capacity(alloc, askers) else {
            return Err(HookError::Memory);
        };
        for _ in 0..askers {
            let Ok(mut reader) = self.writer.factory().reader() else {
                return Err(HookError::Places);
            };
            reader.learn::<Takes>(self.writer.tell::<Tells>());
            list.push_reserved(Asker::new(reader, self.writer.published().prefix.copy()));
        }
        Ok(list)
    }

    /// Publishes the program at its hook, without an allocation.
    ///
    /// # Errors
    /// `AllocError` if the history has no number left for the operation, which isn't about memory;
    /// nothing is changed.
    pub fn attach(&mut self, accepted: Accepted) -> Result<(), AllocError>
        ensures operations { MatchResult result (λ _. operations_of self.new
            ≡ operations_of self.old ++ Attach accepted ∷ []) (λ _. operations_of self.new
            ≡ operations_of self.old) }
        ensures history { loader_history self.new ≡ loader_history self.old }
    {
        self.publish(LoaderOperation::Attach(accepted))
    }

    /// Publishes that the hook has no program, without an allocation.
    ///
    /// # Errors
    /// As [`attach`](Loader::attach).
    pub fn detach(&mut self, hook: Hook) -> Result<(), AllocError>
        ensures operations { MatchResult result (λ _. operations_of self.new
            ≡ operations_of self.old ++ Detach hook ∷ []) (λ _. operations_of self.new
            ≡ operations_of self.old) }
        ensures history { loader_history self.new ≡ loader_history self.old }
    {
        self.publish(LoaderOperation::Detach(hook))
    }

    // Once the operation has its number, nothing can fail any more.
    fn publish(&mut self, operation: LoaderOperation) -> Result<(), AllocError>
        ensures operations { MatchResult result (λ _. operations_of self.new
            ≡ operations_of self.old ++ operation ∷ []) (λ _. operations_of self.new
            ≡ operations_of self.old) }
        ensures history { loader_history self.new ≡ loader_history self.old }
    {
        let prefix = &self.writer.published().prefix;
        let Some(numbered) = Numbered::next(prefix, &self.head, operation) else {
            return Err(AllocError);
        };
        numbered.append_to(&mut self.writer, &self.rt);
        replace_with(&mut self.writer, &self.rt, show);
        Ok(())
    }

    /// A notice of all operations so far.
    pub fn notice(&self) -> Notice
        ensures { (told_by result ≡ operations_of self.now)
            × (notice_history result ≡ loader_history self.now) }
    {
        Notice {
            prefix: self.writer.published().prefix.copy(),
        }
    }
}

impl<R: Wait + Drop> Drop for Loader<R> {
    fn drop(self) {
        let Self {
            writer,
            head: _head,
            rt,
        } = self;
        drop(writer.take(&rt));
    }
}
