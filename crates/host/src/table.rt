// A table that a caller brings, filled from the front.
ghost use Rattle.std.specs.Prelude.{◌≡◌, ◌≤◌, cond, [], ◌∷◌, ◌++◌, length, take, drop, is_ok, nat_lt, slice_set, vec_len, IfErr};
ghost use Rattle.host.specs.Table.{Parts, capacity_of};

use std::marker::Model;

/// A table that a caller brings: the items in use, in the order in which they were added, and the rest as it was.
// The first `filled` items are in use; those behind them are what the caller brought.
#[derive(Drop)]
pub struct Table<T> {
    items: Vec<T>,
    filled: usize,
}

impl<T> Model for Table<T> {
    ghost Value = { Parts T };

    ghost view = { λ t. record { used = take t.filled t.items.items; rest = drop t.filled t.items.items } };

    ghost invariant = { λ t. t.filled ≤ vec_len t.items };
}

impl<T: Copy> Table<T> {
    /// The table with no item in use.
    pub fn new(items: Vec<T>) -> Table<T>
        ensures used { result.used ≡ [] }
        ensures rest { result.rest ≡ items.items }
    {
        Table { items, filled: 0 }
    }

    /// The items in use, in the order in which they were added.
    pub fn used(&self) -> &[T]
        ensures { result.now ≡ self.now.used }
    {
        &self.items[..self.filled]
    }

    /// How many items the table holds in all.
    pub fn capacity(&self) -> usize
        ensures { result ≡ capacity_of self.now }
    {
        self.items.len()
    }

    /// Uses one more item; where all are in use, hands it back.
    pub fn push(&mut self, item: T) -> Result<(), T>
        ensures test { is_ok result ≡ nat_lt 0 (length self.old.rest) }
        ensures used { self.new.used ≡ cond (is_ok result) (self.old.used ++ item ∷ []) self.old.used }
        ensures rest { self.new.rest ≡ cond (is_ok result) (drop 1 self.old.rest) self.old.rest }
        ensures refused { IfErr result (λ y. y ≡ item) }
        ensures capacity { capacity_of self.new ≡ capacity_of self.old }
    {
        if self.filled >= self.items.len() {
            return Err(item);
        }
        self.items[self.filled] = item;
        self.filled += 1;
        Ok(())
    }

    /// Changes an item in use; nothing where there is none of that index.
    pub fn set(&mut self, index: usize, item: T)
        ensures used { self.new.used ≡ slice_set self.old.used index item }
        ensures rest { self.new.rest ≡ self.old.rest }
    {
        if index < self.filled {
            self.items[index] = item;
        }
    }

    /// Gives the table back: the items in use, and then the rest as it was.
    pub fn into_items(self) -> Vec<T>
        ensures { result.items ≡ self.used ++ self.rest }
    {
        let Table { items, filled: _ } = self;
        items
    }
}
