//! An iterator over the entries of a map.
use crate::slot::KeySlot;
use std::collections::btree_map;
use std::marker::Model;
use words::Key;

/// The remaining entries, in the order of their keys. It doesn't allocate.
#[derive(Drop)]
pub struct EntriesInOrder<'a, X> {
    pub(crate) slots: btree_map::Iter<'a, Key, KeySlot<X>>,
}

impl<'a, X> Model for EntriesInOrder<'a, X> {
    ghost use Rattle.std.specs.Prelude.{List};
    ghost use Rattle.std.specs.Coded.{coded_list, coded×};
    ghost use Rattle.words.specs.declared.key.Key.{Key};
    ghost use Rattle.keyed_map.specs.Keys.{coded_key};
    ghost use Rattle.keyed_map.specs.Slots.{kept};

    ghost Value = { List (Key × X) };

    ghost coded = { coded_list (coded× coded_key X.code) };

    ghost view = { λ a. kept a.slots };
}

impl<'a, X> Iterator for EntriesInOrder<'a, X> {
    type Item = (Key, &'a X);

    ghost use Rattle.std.specs.Iterator.{YieldsFirstBy, item_count};

    ghost next_gives = { YieldsFirstBy (λ item. (item.0, item.1.now)) (λ a. a) };

    ghost remaining = { item_count (λ a. a) };

    fn next(&mut self) -> Option<(Key, &'a X)> {
        while let Some((key, slot)) = self.slots.next() {
            if let KeySlot::Holds(x) = slot {
                return Some((*key, x));
            }
        }
        None
    }
}
