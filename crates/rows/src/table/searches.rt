// The rows searched.
ghost use Rattle.std.specs.Prelude.{◌≡◌, ℕ, true, ◌&&◌};
ghost use Rattle.values.specs.declared.RowState.{RowState as State};
ghost use Rattle.values.specs.declared.RowState.TheVariants.{Due};
ghost use Rattle.graph.specs.Reach.{Least};
ghost use Rattle.model.specs.Search.{has};
ghost use Rattle.model.specs.Rows.{in_state, live, any_live};
ghost use Rattle.model.specs.Calls.{lowest_row};
ghost use Rattle.rowset.specs.Members.{contains};
ghost use Rattle.rows.specs.Tables.{rows_of};

use super::RowTable;
use crate::counted::numbered;
use rowset::RowSet;
use values::RowState;

impl RowTable {
    /// Whether a row is in that state.
    pub fn is_in(&self, state: RowState, number: u16) -> bool
        ensures { result ≡ in_state (rows_of self.now) state number }
    {
        self.state(number) == state
    }

    /// Whether a row is live: it runs or is committed.
    pub fn is_live(&self, row: u16) -> bool
        ensures { result ≡ live ((rows_of self.now).state row) }
    {
        matches!(self.state(row), RowState::Running | RowState::Committed)
    }

    // The live rows: those that run and those that are committed.
    fn live(&self) -> RowSet
        ensures { (k : ℕ) → contains result k ≡ live ((rows_of self.now).state k) }
    {
        let mut live = self.rows_in(RowState::Running);
        live.join(&self.rows_in(RowState::Committed));
        live
    }

    /// Whether any row is live.
    pub fn any_live(&self) -> bool
        ensures { result ≡ any_live (rows_of self.now) }
    {
        self.live().next_above(0).is_some()
    }

    /// The lowest number in that state. Each number that is no row's is absent, so of that state it is 0.
    pub fn lowest(&self, state: RowState) -> Option<u16>
        ensures { result ≡ lowest_row (rows_of self.now) (in_state (rows_of self.now) state) }
    {
        if state == RowState::Absent {
            return Some(0);
        }
        self.rows_in(state).next_above(0)
    }

    // The rows that follow a row by one arrow.
    fn followers(&self, earlier: u16) -> RowSet
        ensures { (k : ℕ) → contains result k ≡ has earlier ((rows_of self.now).preds k) }
    {
        match numbered(&self.sets.followers, earlier) {
            Some(followers) => *followers,
            None => RowSet::new(),
        }
    }

    /// The lowest row above `after` that follows row `earlier` by one arrow.
    pub(crate) fn next_follower(&self, earlier: u16, after: u16) -> Option<u16>
        ensures { Least (λ k. has earlier ((rows_of self.now).preds k) ≡ true) after result }
    {
        self.followers(earlier).next_above(after)
    }

    /// The lowest due row above `after`.
    pub(crate) fn next_due(&self, after: u16) -> Option<u16>
        ensures { Least (λ k. in_state (rows_of self.now) Due k ≡ true) after result }
    {
        self.rows_in(RowState::Due).next_above(after)
    }

    /// The live rows that follow a row by one arrow.
    pub fn live_followers(&self, earlier: u16) -> RowSet
        ensures { (k : ℕ) → contains result k
            ≡ (live ((rows_of self.now).state k) && has earlier ((rows_of self.now).preds k)) }
    {
        let mut live = self.live();
        live.meet(&self.followers(earlier));
        live
    }
}
