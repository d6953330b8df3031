//! A copy as the database stores it.
ghost use Rattle.std.specs.Prelude.{◌≡◌, ◌↔◌, ◌<◌, IfOk, IsTrue, Some, false, option_copied};
ghost use Rattle.words.specs.Constants.{max_age};
ghost use Rattle.words.specs.Numbers.{Moment};
ghost use Rattle.lsdb.specs.Changes.{HaveSameStoredAge};
ghost use Rattle.lsdb.specs.Copies.{copy_of, is_aged_out, contents_of};
ghost use Rattle.lsdb.specs.Headers.{lsa_with_age};

use crate::database_copy::DatabaseCopy;
use crate::order::age_at;
use crate::times::CopyTimes;
use keyed_map::TryCopy;
use lsa::{Lsa, LsaBody};
use std::alloc::{AllocError, Global};
use std::marker::Model;
use std::sync::Arc;
use words::{MAX_AGE, Second};

/// A copy of an LSA, as the database has it. Clones of the database share the LSA, and each has
/// times of its own.
#[derive(Drop)]
pub struct StoredLsa {
    lsa: Arc<Lsa, Global>,
    times: CopyTimes,
}

impl Model for StoredLsa {
    ghost use Rattle.std.specs.Arc.{arc_value};
    ghost use Rattle.lsdb.specs.Copies.{DatabaseCopy as Kept, copy_of};

    ghost Value = { Kept };

    ghost view = { λ a. copy_of (arc_value a.lsa) a.times };
}

impl StoredLsa {
    /// Stores an LSA with its times, on the heap.
    ///
    /// # Errors
    /// `AllocError` if an allocation is refused.
    pub(crate) fn new(alloc: Global, lsa: Lsa, times: CopyTimes) -> Result<Self, AllocError>
        ensures { IfOk result (λ made. made ≡ copy_of lsa times) }
    {
        match Arc::new(alloc, lsa) {
            Ok(lsa) => Ok(StoredLsa { lsa, times }),
            Err(_) => Err(AllocError),
        }
    }

    /// Borrows the LSA, with its times.
    pub(crate) fn borrowed(&self) -> DatabaseCopy<'_>
        ensures { result ≡ self.now }
    {
        let lsa: &Lsa = &self.lsa;
        let times: CopyTimes = self.times;
        DatabaseCopy { lsa, times }
    }

    /// The LSA. Its age is not that of the copy.
    pub(crate) fn lsa(&self) -> &Lsa
        ensures { result.now.body ≡ self.now.lsa.body }
    {
        &self.lsa
    }

    /// The copy, marked as sent at this moment. It shares the LSA.
    ///
    /// # Errors
    /// `AllocError` if the LSA has as many owners as can be counted.
    pub(crate) fn marked(&self, moment: Second) -> Result<Self, AllocError>
        ensures { IfOk result (λ made. made ≡ record self.now { sent = Some moment }) }
    {
        let lsa = Arc::try_clone(&self.lsa)?;
        let times = CopyTimes {
            sent: Some(moment),
            ..self.times
        };
        Ok(StoredLsa { lsa, times })
    }

    /// The copy, at MaxAge from this moment on. It shares the LSA.
    ///
    /// # Errors
    /// `AllocError` if the LSA has as many owners as can be counted.
    pub(crate) fn aged_out(&self, moment: Second) -> Result<Self, AllocError>
        ensures { IfOk result (λ made. made
            ≡ record self.now { lsa = lsa_with_age max_age self.now.lsa; stored = moment }) }
    {
        let lsa = Arc::try_clone(&self.lsa)?;
        let times = CopyTimes {
            age: MAX_AGE,
            stored: moment,
            ..self.times
        };
        Ok(StoredLsa { lsa, times })
    }

    /// Whether it is at MaxAge at the moment.
    pub(crate) fn is_aged_out(&self, moment: Second) -> bool
        ensures { result ≡ is_aged_out moment self.now }
    {
        age_at(self.times.age, self.times.stored, moment) == MAX_AGE
    }

    /// The moment at which a copy that was stored below MaxAge reaches it.
    pub(crate) fn young_until(&self) -> Second
        requires { self.now.lsa.header.age < max_age }
        ensures { (moment : Moment) → moment < result → is_aged_out moment self.now ≡ false }
    {
        let left = MAX_AGE.saturating_sub(self.times.age);
        Second::new(self.times.stored.count().saturating_add(u64::from(left)))
    }

    /// Its body, if it is below MaxAge at the moment.
    pub(crate) fn body_at(&self, moment: Second) -> Option<&LsaBody>
        ensures { option_copied result ≡ contents_of moment (Some self.now) }
    {
        if self.is_aged_out(moment) {
            return None;
        }
        Some(self.lsa().body())
    }

    /// Whether both had the same age at the same moment.
    pub(crate) fn has_stored_age_of(&self, other: &StoredLsa) -> bool
        ensures { IsTrue result ↔ HaveSameStoredAge self.now other.now }
    {
        self.times.age == other.times.age && self.times.stored.count() == other.times.stored.count()
    }
}

impl TryCopy for StoredLsa {
    fn copy(&self, _alloc: Global) -> Result<Self, AllocError> {
        let lsa = Arc::try_clone(&self.lsa)?;
        let times: CopyTimes = self.times;
        Ok(StoredLsa { lsa, times })
    }
}
