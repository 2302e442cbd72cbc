// The rows that are the highest of their step.
ghost use Rattle.std.specs.Prelude.{◌≡◌, ℕ, true, false, not, ◌&&◌, ◌==◌, MatchOption};
ghost use Rattle.rowset.specs.Members.{contains};
ghost use Rattle.rows.specs.Highest.{is_highest};
ghost use Rattle.rows.specs.Tables.{rows_of};

use super::RowTable;
use rowset::RowSet;

impl RowTable {
    /// The rows that are the highest of their step.
    pub fn highest(&self) -> RowSet
        ensures { (k : ℕ) → contains result k ≡ is_highest (rows_of self.now) k }
    {
        self.sets.highest
    }

    // The highest row of a step, if the step has rows.
    fn highest_of(&self, step: u16) -> Option<u16>
        ensures { MatchOption result
            ((k : ℕ) → is_highest (rows_of self.now) k ≡ true → (rows_of self.now).step k == step ≡ false)
            (λ row. (is_highest (rows_of self.now) row ≡ true) × ((rows_of self.now).step row ≡ step)) }
    {
        let highest = self.highest();
        highest.iter().find(|row| self.step(*row) == step)
    }

    /// Those of other steps than this one.
    pub(crate) fn highest_of_others(&self, step: u16) -> RowSet
        ensures { (k : ℕ) → contains result k
            ≡ (is_highest (rows_of self.now) k && not ((rows_of self.now).step k == step)) }
    {
        let mut others = self.highest();
        if let Some(row) = self.highest_of(step) {
            others.remove(row);
        }
        others
    }
}
