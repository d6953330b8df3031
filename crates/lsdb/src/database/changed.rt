//! Which copies have other contents than when the database was last committed, and which bodies
//! they had then.
ghost use Rattle.std.specs.Prelude.{◌≡◌, IfOk, option_copied};
ghost use Rattle.std.specs.FinMap as finite;
ghost use Rattle.std.specs.List.{Contains};
ghost use Rattle.lsdb.specs.Changes.{ContentsAgree};
ghost use Rattle.lsdb.specs.Copies.{contents_of};
ghost use Rattle.words.specs.declared.key.Key.{Key as KeyValue};

use super::{Lsdb, SameUpTo};
use lsa::LsaBody;
use std::alloc::{AllocError, Global};
use words::{Key, Second};

impl Lsdb {
    /// The keys whose copies have other contents at the moment than when the database was last
    /// committed, as `is_unchanged` compares them (RFC 2328, section 13.2): one that stayed isn't
    /// among them even if it has come to MaxAge since, which `max_age_keys` tells. It visits the
    /// edits since then, and for each whose contents differ those before it.
    ///
    /// # Errors
    /// `AllocError` if an allocation for the keys, or for the bytes of LSAs, which are compared, is
    /// refused.
    pub fn changed_keys(&self, alloc: Global, moment: Second) -> Result<Vec<Key>, AllocError>
        ensures changed { IfOk result (λ keys. (key : KeyValue) → Contains keys.items key
            → ContentsAgree moment (finite.get self.now.committed key)
            (finite.get self.now.present key) → ⊥) }
        ensures others { IfOk result (λ keys. (key : KeyValue) → (Contains keys.items key → ⊥)
            → ContentsAgree moment
            (finite.get self.now.committed key) (finite.get self.now.present key)) }
    {
        let test = SameUpTo {
            last_type: None,
            moment,
        };
        self.copies.changed_keys(alloc, &test)
    }

    /// The body that the copy of this key had when the database was last committed, if there was
    /// one below MaxAge at the moment. It visits the edits since then.
    pub fn committed_body_at(&self, moment: Second, key: &Key) -> Option<&LsaBody>
        ensures { option_copied result ≡ contents_of moment
            (finite.get self.now.committed key.now) }
    {
        match self.copies.committed_get(key) {
            None => None,
            Some(copy) => copy.body_at(moment),
        }
    }
}
