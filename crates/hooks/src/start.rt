//! Makes a loader and its askers.
ghost use Rattle.std.specs.Prelude.{◌≡◌, ◌<◌, ◌⊎◌, ◌↔◌, [], All, IfOk, Err, vec_len};
ghost use Rattle.hooks.specs.declared.error.HookError.TheVariants.{Count};
ghost use Rattle.hooks.specs.Known.{operations_of, loader_history, IsNew};

use crate::MAX_ASKERS;
use crate::asker::Asker;
use crate::error::HookError;
use crate::loader::Loader;
use std::alloc::Global;
use std::sync::Wait;

/// Makes a loader with no program at any hook, and `askers` askers, which have seen nothing. All
/// memory that attaching and detaching will ever need is allocated here: for a program of 4,096
/// slots at each of the four hooks, in each of two copies.
///
/// # Errors
/// `Count` if `askers` is 0 or above 64, which is checked first; `Memory` if an allocation is
/// refused; `Places` if there was no place for an asker.
pub fn programs<R: Wait + Drop>(
    alloc: Global,
    rt: R,
    askers: usize,
) -> Result<(Loader<R>, Vec<Asker>), HookError>
    ensures made { IfOk result (λ t. (operations_of t.0 ≡ []) × (vec_len t.1 ≡ askers)
        × All (IsNew (loader_history t.0)) t.1.items) }
    ensures count { (result ≡ Err Count) ↔ ((askers ≡ 0) ⊎ (64 < askers)) }
{
    if askers == 0 || askers > MAX_ASKERS {
        return Err(HookError::Count);
    }
    let mut loader = Loader::new(alloc, rt, askers)?;
    let list = loader.askers(alloc, askers)?;
    Ok((loader, list))
}
