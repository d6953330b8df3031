//! The loader's operations on the published programs.
ghost use Rattle.std.specs.Prelude.{◌≡◌};
ghost use Rattle.hooks.specs.Operations.{hook_of};

use machine::Hook;
use verifier::Accepted;

/// One operation of the loader.
#[derive(Drop)]
pub enum LoaderOperation {
    /// The program is attached at its hook from now on, in place of any other.
    Attach(Accepted),
    /// The hook has no program from now on.
    Detach(Hook),
}

impl LoaderOperation {
    pub(crate) fn hook(&self) -> Hook
        ensures { result ≡ hook_of self.now }
    {
        match self {
            LoaderOperation::Attach(accepted) => accepted.hook(),
            LoaderOperation::Detach(hook) => *hook,
        }
    }
}
