//! Bodies of router-LSAs and AS-external-LSAs that are compared field by field, which takes a tenth
//! of the time that a comparison of their bytes takes, and no memory.
ghost use Rattle.std.specs.Prelude.{◌≡◌, IsTrue};
ghost use Rattle.lsa.specs.declared.body.LsaBody.TheVariants.{External, Router};

use lsa::{ExternalLsa, LsaBody, RouterLink, RouterLsa};

/// Whether both bodies are certainly the same. `false` leaves it open: bodies of other types, and
/// those with metrics for types of service, aren't compared.
pub fn are_plainly_one(old: &LsaBody, new: &LsaBody) -> bool
    ensures { IsTrue result → old.now ≡ new.now }
{
    match old {
        LsaBody::External(old) => is_external(old, new),
        LsaBody::Router(old) => is_router(old, new),
        _ => false,
    }
}

fn is_external(old: &ExternalLsa, new: &LsaBody) -> bool
    ensures { IsTrue result → External old.now ≡ new.now }
{
    match new {
        LsaBody::External(new) => are_one_external(old, new),
        _ => false,
    }
}

fn are_one_external(old: &ExternalLsa, new: &ExternalLsa) -> bool
    ensures { IsTrue result → old.now ≡ new.now }
{
    old.mask == new.mask
        && old.kind == new.kind
        && old.metric == new.metric
        && old.forwarding == new.forwarding
        && old.tag == new.tag
        && old.tos.as_slice().is_empty()
        && new.tos.as_slice().is_empty()
}

fn is_router(old: &RouterLsa, new: &LsaBody) -> bool
    ensures { IsTrue result → Router old.now ≡ new.now }
{
    match new {
        LsaBody::Router(new) => are_one_router(old, new),
        _ => false,
    }
}

fn are_one_router(old: &RouterLsa, new: &RouterLsa) -> bool
    ensures { IsTrue result → old.now ≡ new.now }
{
    old.flags == new.flags && are_same_links(old.links.as_slice(), new.links.as_slice())
}

fn are_same_links(old: &[RouterLink], new: &[RouterLink]) -> bool
    ensures { IsTrue result → old.now ≡ new.now }
{
    if old.len() != new.len() {
        return false;
    }
    for at in 0..old.len() {
        if !are_one_link(&old[at], &new[at]) {
            return false;
        }
    }
    true
}

fn are_one_link(old: &RouterLink, new: &RouterLink) -> bool
    ensures { IsTrue result → old.now ≡ new.now }
{
    old.link_id == new.link_id
        && old.link_data == new.link_data
        && old.kind == new.kind
        && old.metric == new.metric
        && old.tos.as_slice().is_empty()
        && new.tos.as_slice().is_empty()
}
