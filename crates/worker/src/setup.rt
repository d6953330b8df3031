//! What workers start with.
ghost use Rattle.std.specs.Prelude.{◌≡◌, ◌⊎◌, ◌↔◌, ◌+◌, ◌<◌, ◌≤◌, [], All, Err, IfOk, vec_len};
ghost use Rattle.maps.specs.Words.{IsSeatOf};
ghost use Rattle.hooks.specs.declared.error.HookError.TheVariants.{Count};
ghost use Rattle.hooks.specs.Known.{IsNew, asker_history, loader_history, operations_of};

use hooks::{Asker, HookError, Loader, programs};
use maps::{MAX_SEATS, Seat, Shared};
use std::alloc::{AllocError, Global};
use std::sync::Wait;
use std::sync::ledger::Blank;

/// What the workers of one router start with, for this number of ports: counters and cells
/// with a seat for each port, an asker for each, and a ledger with a part for each. The ledger
/// (`blank`) is there for the contracts: nothing that the router does depends on it.
#[derive(Drop)]
pub struct Setup {
    pub(crate) blank: Blank,
    pub(crate) shared: Shared,
    pub(crate) seats: Vec<Seat>,
    pub(crate) askers: Vec<Asker>,
    pub ghost some: { 0 < vec_len seats },
    pub ghost few: { vec_len seats ≤ 64 },
    pub ghost parts: { blank.parts ≡ vec_len seats },
    pub ghost every: { shared.seats ≡ vec_len seats },
    pub ghost enough: { vec_len askers ≡ vec_len seats },
    pub ghost seated: { All (IsSeatOf shared) seats.items },
}

impl Setup {
    /// All for this number of ports, and the loader whose programs they will run; no program is
    /// attached yet.
    ///
    /// # Errors
    /// `Count` if `ports` is 0 or above 64, which is tried first; `Memory` if an allocation is
    /// refused; `Places` if there was no place for an asker.
    pub fn new<R: Wait + Drop>(
        alloc: Global,
        rt: R,
        ports: usize,
    ) -> Result<(Loader<R>, Setup), HookError>
        ensures ports { IfOk result (λ r. vec_len r.1.seats ≡ ports) }
        ensures loader { IfOk result (λ r. (operations_of r.0 ≡ [])
            × All (IsNew (loader_history r.0)) r.1.askers.items) }
        ensures count { (result ≡ Err Count) ↔ ((ports ≡ 0) ⊎ (64 < ports)) }
    {
        if ports == 0 || ports > MAX_SEATS {
            return Err(HookError::Count);
        }
        let (shared, seats) = shared_words(alloc, ports)?;
        let (loader, askers) = programs(alloc, rt, ports)?;
        let setup = Setup {
            blank: Blank::new(ports as u64),
            shared,
            seats,
            askers,
        };
        Ok((loader, setup))
    }
}

// Counters and cells with this number of seats.
fn shared_words(alloc: Global, count: usize) -> Result<(Shared, Vec<Seat>), AllocError>
    requires { (0 < count) × (count ≤ 64) }
    ensures every { IfOk result (λ r. r.0.seats ≡ count) }
    ensures count { IfOk result (λ r. vec_len r.1 ≡ count) }
    ensures seated { IfOk result (λ r. All (IsSeatOf r.0) r.1.items) }
{
    match Shared::new(alloc, count) {
        Ok(made) => Ok(made),
        Err(_) => Err(AllocError),
    }
}
