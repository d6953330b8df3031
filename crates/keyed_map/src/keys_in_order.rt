//! An iterator over the keys of a map.
use crate::slot::KeySlot;
use std::collections::btree_map;
use std::marker::Model;
use words::Key;

/// The remaining keys, in their order. It doesn't allocate.
#[derive(Drop)]
pub struct KeysInOrder<'a, X> {
    pub(crate) slots: btree_map::Iter<'a, Key, KeySlot<X>>,
}

impl<'a, X> Model for KeysInOrder<'a, X> {
    ghost use Rattle.std.specs.Prelude.{List};
    ghost use Rattle.std.specs.Coded.{coded_list};
    ghost use Rattle.words.specs.declared.key.Key.{Key};
    ghost use Rattle.keyed_map.specs.Keys.{coded_key};
    ghost use Rattle.keyed_map.specs.Slots.{kept_keys};

    ghost Value = { List Key };

    ghost coded = { coded_list coded_key };

    ghost view = { λ a. kept_keys a.slots };
}

impl<'a, X> Iterator for KeysInOrder<'a, X> {
    type Item = Key;

    ghost use Rattle.std.specs.Iterator.{YieldsFirst, item_count};

    ghost next_gives = { YieldsFirst (λ a. a) };

    ghost remaining = { item_count (λ a. a) };

    fn next(&mut self) -> Option<Key> {
        while let Some((key, slot)) = self.slots.next() {
            if let KeySlot::Holds(_) = slot {
                return Some(*key);
            }
        }
        None
    }
}
