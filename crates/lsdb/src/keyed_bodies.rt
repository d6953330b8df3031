//! The bodies of all copies at a moment, borrowed, in the order of their keys.
ghost use Rattle.std.specs.Prelude.{◌≡◌, ◌≤◌, IfOk, length};
ghost use Rattle.std.specs.FinMap as finite;
ghost use Rattle.lsdb.specs.Bodies.{AreBodies};
ghost use Rattle.lsdb.specs.Copies.{contents_of};

use crate::database::is_up_to;
use crate::stored::StoredLsa;
use keyed_map::KeyedMap;
use lsa::LsaBody;
use std::alloc::{AllocError, Global};
use std::marker::Model;
use words::{Key, Second};

/// A key with the body of its LSA. Clauses see the pair.
#[derive(Drop)]
pub struct KeyedBody<'a> {
    key: Key,
    body: &'a LsaBody,
}

impl<'a> Model for KeyedBody<'a> {
    ghost use Rattle.words.specs.declared.key.Key.{Key};
    ghost use Rattle.lsa.specs.declared.body.LsaBody.{LsaBody};

    ghost Value = { Key × LsaBody };

    ghost view = { λ a. (a.key, a.body.now) };
}

impl<'a> KeyedBody<'a> {
    fn new(key: Key, body: &'a LsaBody) -> Self
        ensures { result ≡ (key, body.now) }
    {
        KeyedBody { key, body }
    }

    /// The key of the LSA.
    pub fn key(&self) -> &Key
        ensures { result.now ≡ self.now.0 }
    {
        &self.key
    }

    /// The body of the LSA.
    pub fn body(&self) -> &'a LsaBody
        ensures { result.now ≡ self.now.1 }
    {
        self.body
    }
}

/// The bodies of the copies of LS types up to this one, or of all types, that are below MaxAge at
/// the moment.
///
/// # Errors
/// `AllocError` if an allocation is refused.
pub fn bodies_of<'a>(
    alloc: Global,
    copies: &'a KeyedMap<StoredLsa>,
    last_type: Option<u32>,
    moment: Second,
) -> Result<Vec<KeyedBody<'a>>, AllocError>
    ensures bodies { IfOk result (λ bodies. AreBodies last_type
        (λ key. contents_of moment (finite.get copies.now.present key)) bodies.items) }
    ensures few { IfOk result (λ bodies. length bodies.items ≤ finite.len copies.now.present) }
{
    let mut bodies = Vec::new(alloc);
    for (key, copy) in copies.entries() {
        if !is_up_to(last_type, &key) {
            break;
        }
        if !copy.is_aged_out(moment) {
            bodies.push(KeyedBody::new(key, copy.lsa().body()))?;
        }
    }
    Ok(bodies)
}
