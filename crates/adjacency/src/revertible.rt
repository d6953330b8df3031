//! A value that an event may replace.
ghost use Rattle.std.specs.Prelude.{◌≡◌};

use std::marker::Model;

/// A value, and the committed one: the first replacement moves it away, so that neither committing
/// nor rolling back allocates.
#[derive(Drop)]
pub struct Revertible<X> {
    value: X,
    before: Option<X>,
}

impl<X> Model for Revertible<X> {
    ghost use Rattle.adjacency.specs.Kept.{Kept};
    ghost use Rattle.adjacency.specs.Codes.{coded_kept};

    ghost Value = { Kept X };

    ghost coded = { coded_kept X.code };

    ghost use Rattle.adjacency.specs.Views.{committed_value};

    ghost view = { λ a.
        record { present = a.value; committed = committed_value a.before a.value } };
}

impl<X: Drop> Revertible<X> {
    /// This value, committed.
    pub fn new(value: X) -> Self
        ensures { result ≡ record { present = value; committed = value } }
    {
        Revertible {
            value,
            before: None,
        }
    }

    /// The value as it is now.
    pub fn get(&self) -> &X
        ensures { result.now ≡ self.now.present }
    {
        &self.value
    }

    /// Replaces the value.
    pub fn set(&mut self, value: X)
        ensures { self.new ≡ record self.old { present = value } }
    {
        let before = std::mem::replace(&mut self.value, value);
        if self.before.is_none() {
            self.before = Some(before);
        }
    }

    /// Makes the changes so far final.
    pub fn commit(&mut self)
        ensures { self.new ≡ record { present = self.old.present; committed = self.old.present } }
    {
        self.before = None;
    }

    /// Undoes all changes since the value was last committed.
    pub fn roll_back(&mut self)
        ensures { self.new
            ≡ record { present = self.old.committed; committed = self.old.committed } }
    {
        if let Some(before) = self.before.take() {
            self.value = before;
        }
    }
}
