//! Which LSAs an event may have changed, and which networks they advertise.
ghost use Rattle.std.specs.Prelude.{◌≡◌, ◌↔◌, ◌≤◌, IfOk, IsTrue, MatchOption, OnOk, Some};
ghost use Rattle.std.specs.Prelude.{option_copied};
ghost use Rattle.std.specs.List.{Contains};
ghost use Rattle.kept_routes.specs.Changes.{AreAllAdvertised, OthersHaveSameContents};
ghost use Rattle.lsa.specs.declared.body.LsaBody.TheVariants as body;
ghost use Rattle.lsa.specs.declared.body.ExternalLsa.{ExternalLsa as ExternalValue};
ghost use Rattle.routes.specs.Offers.{IsPrefix};
ghost use Rattle.routes.specs.Contents.{contents_at};
ghost use Rattle.words.specs.Prefixes.{Network};

use candidates::network_of;
use lsa::{ExternalLsa, LsaBody};
use routes::Lsdb;
use std::alloc::{AllocError, Global};
use words::{Key, Prefix, Second};

/// The keys whose LSAs may differ in contents at this moment from those of the committed database
/// at the moment `before`: those that changed since, and those of the copies that have MaxAge. A
/// key may occur more than once.
///
/// # Errors
/// `AllocError` if an allocation is refused.
pub fn possibly_changed_keys(
    alloc: Global,
    db: &Lsdb,
    before: Second,
    moment: Second,
) -> Result<Vec<Key>, AllocError>
    requires { before ≤ moment }
    ensures { IfOk result (λ keys. OthersHaveSameContents keys.items
        (contents_at before db.now.committed) (contents_at moment db.now.present)) }
{
    let mut keys = db.changed_keys(alloc, moment)?;
    // Within one moment no LSA reaches MaxAge.
    if before.count() == moment.count() {
        return Ok(keys);
    }
    let aged = db.max_age_keys(alloc, moment)?;
    keys.extend_from_slice(&aged)?;
    Ok(keys)
}

fn is_among(prefixes: &[Prefix], prefix: Prefix) -> bool
    ensures { IsTrue result ↔ Contains prefixes.now prefix }
{
    for other in prefixes {
        if *other == prefix {
            return true;
        }
    }
    false
}

// The AS-external-LSA's body, if it is one.
fn external_of(lsa_body: Option<&LsaBody>) -> Option<&ExternalLsa>
    ensures { MatchOption result ((lsa : ExternalValue)
        → option_copied lsa_body.entry ≡ Some (body.External lsa) → ⊥) (λ lsa.
        option_copied lsa_body.entry ≡ Some (body.External lsa.now)) }
{
    match lsa_body? {
        LsaBody::External(lsa) => Some(lsa),
        _ => None,
    }
}

// Records the network, if there is one and it isn't recorded yet.
fn note(prefixes: &mut Vec<Prefix>, advertised: Option<Prefix>) -> Result<(), AllocError>
    ensures kept { OnOk result ((prefix : Network) → Contains prefixes.old.items prefix
        → Contains prefixes.new.items prefix) }
    ensures noted { OnOk result ((prefix : Network) → advertised ≡ Some prefix
        → Contains prefixes.new.items prefix) }
{
    match advertised {
        None => Ok(()),
        Some(prefix) => {
            if is_among(prefixes.as_slice(), prefix) {
                return Ok(());
            }
            prefixes.push(prefix)?;
            Ok(())
        }
    }
}

// Records the network that this body of the key's AS-external-LSA advertises, if there is one.
fn note_network(
    prefixes: &mut Vec<Prefix>,
    key: &Key,
    lsa_body: Option<&LsaBody>,
) -> Result<(), AllocError>
    ensures kept { OnOk result ((prefix : Network) → Contains prefixes.old.items prefix
        → Contains prefixes.new.items prefix) }
    ensures noted { OnOk result ((lsa : ExternalValue) (prefix : Network)
        → option_copied lsa_body.entry ≡ Some (body.External lsa)
        → IsPrefix key.now.link_state_id lsa.mask prefix
        → Contains prefixes.new.items prefix) }
{
    match external_of(lsa_body) {
        None => Ok(()),
        Some(lsa) => {
            note(prefixes, network_of(key, lsa.mask))?;
            Ok(())
        }
    }
}

/// The networks that the AS-external-LSAs with these keys advertised before the event, or advertise
/// now.
///
/// # Errors
/// `AllocError` if an allocation is refused.
pub fn networks_told(
    alloc: Global,
    db: &Lsdb,
    before: Second,
    moment: Second,
    keys: &[Key],
) -> Result<Vec<Prefix>, AllocError>
    ensures { IfOk result (λ prefixes. AreAllAdvertised
        (contents_at before db.now.committed) (contents_at moment db.now.present)
        keys.now prefixes.items) }
{
    let mut prefixes = Vec::new(alloc);
    for key in keys {
        note_network(&mut prefixes, key, db.committed_body_at(before, key))?;
        note_network(&mut prefixes, key, db.body_at(moment, key))?;
    }
    Ok(prefixes)
}
