//! Which copies may have reached MaxAge.
ghost use Rattle.std.specs.Prelude.{◌≡◌, Option, Some, IfOk, OnOk};
ghost use Rattle.words.specs.declared.key.Key.{Key};
ghost use Rattle.lsdb.specs.Foresight.{Foresees, ForeseesAll};
ghost use Rattle.lsdb.specs.Copies.{DatabaseCopy};

use crate::stored::StoredLsa;
use keyed_map::KeyedMap;
use std::alloc::{AllocError, Global};
use words::{Key, Second};

/// When copies may have MaxAge: before the moment `due`, only those of the `aged` keys.
#[derive(Drop)]
pub struct Ages {
    /// Before this moment, only copies of the aged keys have MaxAge.
    pub due: Second,
    pub aged: KeyedMap<()>,
}

impl Ages {
    /// No aged keys: before `due`, no copy has MaxAge.
    pub fn new(alloc: Global, due: Second) -> Self
        ensures { result.due ≡ due }
    {
        Ages {
            due,
            aged: KeyedMap::new(alloc),
        }
    }

    /// Notes that the database may have this copy of the key from this moment on. What `Ages` says
    /// of the database stays true.
    ///
    /// # Errors
    /// `AllocError` if an allocation is refused.
    pub fn note(&mut self, moment: Second, key: &Key, copy: &StoredLsa) -> Result<(), AllocError>
        ensures more { (q : Key) (o : Option DatabaseCopy) → Foresees self.old q o
            → Foresees self.new q o }
        ensures there { OnOk result (Foresees self.new key.now (Some copy.now)) }
    {
        if copy.is_aged_out(moment) {
            self.aged.insert(*key, ())?;
            self.aged.commit();
            return Ok(());
        }
        let until = copy.young_until();
        if until < self.due {
            self.due = until;
        }
        Ok(())
    }
}

/// Scans all of these copies for when they reach MaxAge. Copies that have MaxAge at the moment are
/// among the aged keys, and no other reaches it before `due`, which is after the moment.
///
/// # Errors
/// `AllocError` if an allocation is refused.
pub fn foresee(
    alloc: Global,
    copies: &KeyedMap<StoredLsa>,
    moment: Second,
) -> Result<Ages, AllocError>
    ensures { IfOk result (λ ages. ForeseesAll ages copies.now.present) }
{
    let mut ages = Ages::new(alloc, Second::new(u64::MAX));
    for key in copies.keys() {
        if let Some(copy) = copies.get(&key) {
            ages.note(moment, &key, copy)?;
        }
    }
    Ok(ages)
}

/// Updates `ages` for these copies, of which only those of its aged keys are visited. Those that
/// have MaxAge at the moment stay among the aged keys.
///
/// # Errors
/// `AllocError` if an allocation is refused.
pub fn foresee_again(
    alloc: Global,
    ages: &Ages,
    copies: &KeyedMap<StoredLsa>,
    moment: Second,
) -> Result<Ages, AllocError>
    requires { ForeseesAll ages.now copies.now.present }
    ensures { IfOk result (λ made. ForeseesAll made copies.now.present) }
{
    let mut made = Ages::new(alloc, ages.due);
    for key in ages.aged.keys() {
        if let Some(copy) = copies.get(&key) {
            made.note(moment, &key, copy)?;
        }
    }
    Ok(made)
}
