//! What can be done with marks.
ghost use Rattle.std.specs.Prelude.{◌≡◌, ℕ, ◌+◌, ◌<◌, ◌≤◌, true, false, length};
ghost use Rattle.graph.specs.Column.{covered, marked, with_mark, Kept, Wiped};
ghost use Rattle.graph.specs.Held.{held};
ghost use Rattle.graph.specs.Reach.{Least};

use super::{Marks, mark_bytes, wipe};

impl<'a> Marks<'a> {
    /// Takes the column, with no point marked.
    pub fn new(column: &'a mut [u8]) -> Marks<'a>
        ensures wiped { Wiped column.old (held result) }
        ensures same { result.column.ghost_name ≡ column.entry.ghost_name }
    {
        wipe(column);
        Marks { column }
    }

    /// Whether the column has a mark for the point `i`.
    pub(crate) fn covers(&self, i: usize) -> bool
        ensures { result ≡ covered (length (held self.now)) i }
    {
        i < mark_bytes(self.column)
    }

    /// Whether the point `i` is marked.
    pub fn is_set(&self, i: usize) -> bool
        ensures { result ≡ marked (held self.now) i }
    {
        self.covers(i) && self.column[i] != 0
    }

    /// Whether none of the eight points from `i` on is marked.
    fn no_mark_in_eight(&self, i: usize) -> bool
        requires { i + 8 ≤ length (held self.now) }
        ensures { result ≡ true → (k : ℕ) → i ≤ k → k < i + 8 → marked (held self.now) k ≡ false }
    {
        let bytes = [
            self.column[i],
            self.column[i + 1],
            self.column[i + 2],
            self.column[i + 3],
            self.column[i + 4],
            self.column[i + 5],
            self.column[i + 6],
            self.column[i + 7],
        ];
        u64::from_le_bytes(bytes) == 0
    }

    /// The least marked point above `after`.
    pub fn next_set(&self, after: usize) -> Option<usize>
        ensures { Least (λ k. marked (held self.now) k ≡ true) after result }
    {
        let end = mark_bytes(self.column);
        let mut i = after.saturating_add(1);
        while i < end {
            // marks are few, and eight bytes are one word
            if end - i >= 8 && self.no_mark_in_eight(i) {
                i += 8;
            } else if self.column[i] != 0 {
                return Some(i);
            } else {
                i += 1;
            }
        }
        None
    }

    /// Marks the point `i`; changes nothing where the column has no mark for it.
    pub fn set(&mut self, i: usize)
        ensures after { held self.new ≡ with_mark (held self.old) i }
        ensures kept { Kept (held self.old) (held self.new) }
        ensures same { self.new.column.ghost_name ≡ self.old.column.ghost_name }
    {
        if self.covers(i) {
            self.column[i] = 1;
        }
    }

    /// Takes all marks away.
    pub(crate) fn clear(&mut self)
        ensures wiped { Wiped (held self.old) (held self.new) }
        ensures same { self.new.column.ghost_name ≡ self.old.column.ghost_name }
    {
        wipe(self.column);
    }
}
