// Questions on the paths between rows.
ghost use Rattle.std.specs.Prelude.{◌≡◌, ℕ, ◌<◌, ◌≤◌, true, not, ◌||◌};
ghost use Rattle.graph.specs.Held.{held};
ghost use Rattle.graph.specs.Scratch.{roomy_in};
ghost use Rattle.model.specs.Calls.{due_after};
ghost use Rattle.values.specs.declared.RowState.TheVariants.{PassedOver};
ghost use Rattle.model.specs.Rows.{in_state};
ghost use Rattle.rows.specs.Marking.{Walked, due_above, lowest_due};
ghost use Rattle.rows.specs.Linked.{HasLinks, LinksAmong, brings, links_at};
ghost use Rattle.rowset.specs.Members.{is_number, contains};
ghost use Rattle.rows.specs.Tables.{rows_of};

use crate::graphs::Forth;
use crate::table::RowTable;
use graph::marks::Marks;
use graph::reach::NoRoom;
use graph::scratch::Scratch;
use rowset::RowSet;
use values::RowState;

impl RowTable {
    /// Whether a row above this one is due.
    fn any_due_above(&self, row: u16) -> bool
        ensures { result ≡ due_above (rows_of self.now) row }
    {
        self.next_due(row).is_some()
    }

    /// The lowest row above this one that is due and marked.
    fn lowest_due(&self, row: u16, marks: &Marks) -> Option<u16>
        ensures { result ≡ lowest_due (rows_of self.now) row (held marks.now) }
    {
        let due = self.rows_in(RowState::Due);
        due.iter_above(row).find(|k| marks.is_set(usize::from(*k)))
    }

    /// The lowest due row after this one. Rows after it have higher numbers: where none of these is due, no room is
    /// needed.
    pub fn due_after(&self, row: u16, scratch: &mut Scratch) -> Result<Option<u16>, NoRoom>
        ensures { Walked result
            (not (due_above (rows_of self.now) row) || roomy_in (rows_of self.now).count scratch.old)
            (λ o. o ≡ due_after (rows_of self.now) row) scratch.old scratch.new }
    {
        if !self.any_due_above(row) {
            return Ok(None);
        }
        self.walk(Forth, &[row], scratch)?;
        Ok(self.lowest_due(row, scratch.marks))
    }

    // Adds a row, and if it is passed over what is linked to it; not a row below `least`, to which only lower ones are linked.
    fn add_links(&self, row: u16, least: u16, known: &[RowSet; 257], links: &mut RowSet)
        requires row { is_number row ≡ true }
        requires known { least ≤ row → in_state (rows_of self.now) PassedOver row ≡ true
            → HasLinks (rows_of self.now) least row (links_at known.now row) }
        ensures { (u : ℕ) → least ≤ u
            → contains links.new u ≡ (contains links.old u || brings (rows_of self.now) row u) }
    {
        if row < least {
            return;
        }
        links.insert(row);
        if self.is_in(RowState::PassedOver, row) {
            links.join(&known[row as usize]);
        }
    }

    // The rows from `least` on that are linked to a row, where those linked to each lower row that is passed over are known.
    fn links_of(&self, row: u16, least: u16, known: &[RowSet; 257]) -> RowSet
        requires { (q : ℕ) → least ≤ q → q < row → in_state (rows_of self.now) PassedOver q ≡ true
            → HasLinks (rows_of self.now) least q (links_at known.now q) }
        ensures { HasLinks (rows_of self.now) least row result }
    {
        let mut links = RowSet::new();
        for before in self.predecessors(row) {
            self.add_links(*before, least, known, &mut links);
        }
        links
    }

    // Some rows, with all that are passed over.
    fn with_passed(&self, rows: &RowSet) -> RowSet
        ensures { (k : ℕ) → contains result k ≡ (in_state (rows_of self.now) PassedOver k || contains rows.now k) }
    {
        let mut wanted = self.rows_in(RowState::PassedOver);
        wanted.join(rows);
        wanted
    }

    /// Writes, of some rows, those that are linked to each of them, by its number. What else the sets have afterwards is of no
    /// meaning.
    // what is linked to rows that are passed over is found too: links lead through them
    pub fn write_links(&self, rows: &RowSet, links: &mut [RowSet; 257])
        ensures { (v : ℕ) → contains rows.now v ≡ true
            → LinksAmong (rows_of self.now) rows.now v (links_at links.new v) }
    {
        let Some(least) = rows.next_above(0) else {
            return;
        };
        let wanted = self.with_passed(rows);
        for row in wanted.iter_above(least - 1) {
            links[row as usize] = self.links_of(row, least, links);
        }
    }
}
