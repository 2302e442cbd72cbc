// The rows that an abort strikes.
ghost use Rattle.std.specs.Prelude.{◌≡◌, ℕ, ◌+◌, not, ◌&&◌, ◌||◌};
ghost use Rattle.graph.specs.Column.{marked};
ghost use Rattle.graph.specs.Held.{held};
ghost use Rattle.graph.specs.Scratch.{roomy_in};
ghost use Rattle.values.specs.declared.Mode.TheVariants.{Partial};
ghost use Rattle.values.specs.declared.RowState.TheVariants.{Committed};
ghost use Rattle.model.specs.Rows.{in_state};
ghost use Rattle.model.specs.Search.{any_below, has};
ghost use Rattle.rowset.specs.Members.{is_number, contains};
ghost use Rattle.rows.specs.Marking.{Walked, BackwardMarked, PartMarked, HasBackward, HasStruck, is_partial};
ghost use Rattle.rows.specs.Steps.{steps_only};
ghost use Rattle.rows.specs.Tables.{rows_of};

use crate::graphs::{BackToSavepoints, Forth};
use crate::table::RowTable;
use arrayvec::ArrayVec;
use graph::marks::Marks;
use graph::reach::NoRoom;
use graph::scratch::Scratch;
use process::parts::Step;
use rowset::RowSet;
use values::{Mode, RowState};

// The members of a set, as a list.
fn listed(set: RowSet) -> ArrayVec<u16, 256>
    ensures { (k : ℕ) → has k result.items ≡ contains set k }
{
    let mut list = ArrayVec::new();
    for row in set.iter() {
        list.push(row);
    }
    list
}

// The numbers that are marked, as a set.
fn marked_rows(marks: &Marks) -> RowSet
    ensures { (k : ℕ) → contains result k ≡ (is_number k && marked (held marks.now) k) }
{
    let mut set = RowSet::new();
    let mut last = 0;
    while let Some(number) = marks.next_set(last) {
        // a mark has a number up to 256
        set.insert(number as u16);
        last = number;
    }
    set
}

impl RowTable {
    // Marks the backward part of row `f`.
    fn mark_backward(&self, steps: &[Step], f: u16, scratch: &mut Scratch) -> Result<(), NoRoom>
        ensures { Walked result (roomy_in (rows_of self.now).count scratch.old)
            (λ _. BackwardMarked (steps_only steps.now) (rows_of self.now) f (held scratch.new.marks.now))
            scratch.old scratch.new }
    {
        let starts = self.uncut(steps, f);
        self.walk(BackToSavepoints { steps }, starts.as_slice(), scratch)
    }

    /// The backward part of row `f`.
    ///
    /// What was marked before does not matter. The line wants a place for each row, and the column a mark for each;
    /// where one is too short, nothing changes. What the line holds afterwards is of no meaning.
    pub fn backward_rows(
        &self,
        steps: &[Step],
        f: u16,
        scratch: &mut Scratch,
    ) -> Result<RowSet, NoRoom>
        ensures { Walked result (roomy_in (rows_of self.now).count scratch.old)
            (HasBackward (steps_only steps.now) (rows_of self.now) f) scratch.old scratch.new }
    {
        self.mark_backward(steps, f, scratch)?;
        Ok(marked_rows(scratch.marks))
    }

    // The committed rows that are marked.
    fn committed_marked(&self, marks: &Marks) -> RowSet
        ensures { (k : ℕ) → contains result k
            ≡ (in_state (rows_of self.now) Committed k && marked (held marks.now) k) }
    {
        let committed = self.rows_in(RowState::Committed);
        let mut set = RowSet::new();
        for row in committed.iter() {
            set.put(row, marks.is_set(usize::from(row)));
        }
        set
    }

    // Marks the backward part of row `f`, and all rows after it.
    fn mark_part(&self, steps: &[Step], f: u16, scratch: &mut Scratch) -> Result<(), NoRoom>
        ensures { Walked result (roomy_in (rows_of self.now).count scratch.old)
            (λ _. PartMarked (steps_only steps.now) (rows_of self.now) f (held scratch.new.marks.now))
            scratch.old scratch.new }
    {
        let part = self.backward_rows(steps, f, scratch)?;
        self.walk(Forth, listed(part).as_slice(), scratch)
    }

    // The rows that an abort strikes for which row `f` failed.
    fn struck_by(&self, steps: &[Step], f: u16, scratch: &mut Scratch) -> Result<RowSet, NoRoom>
        ensures { Walked result (roomy_in (rows_of self.now).count scratch.old)
            (HasStruck (steps_only steps.now) (rows_of self.now) (Partial f)) scratch.old scratch.new }
    {
        self.mark_part(steps, f, scratch)?;
        Ok(self.committed_marked(scratch.marks))
    }

    /// The rows that an abort strikes. A complete abort needs no memory.
    pub fn struck(
        &self,
        steps: &[Step],
        mode: Mode,
        scratch: &mut Scratch,
    ) -> Result<RowSet, NoRoom>
        ensures { Walked result (not (is_partial mode) || roomy_in (rows_of self.now).count scratch.old)
            (HasStruck (steps_only steps.now) (rows_of self.now) mode) scratch.old scratch.new }
    {
        match mode {
            Mode::Complete => Ok(self.rows_in(RowState::Committed)),
            Mode::Partial(f) => self.struck_by(steps, f, scratch),
        }
    }

    /// The rows that those of a set follow by one arrow.
    pub fn predecessors_of(&self, rows: &RowSet) -> RowSet
        ensures { (w : ℕ) → contains result w ≡ any_below ((rows_of self.now).count + 1)
            (λ x. contains rows.now x && has w ((rows_of self.now).preds x)) }
    {
        let mut before = RowSet::new();
        for row in rows.iter() {
            before.join(&self.before(row));
        }
        before
    }

    // The rows that a row follows by one arrow, as a set.
    fn before(&self, row: u16) -> RowSet
        ensures { (w : ℕ) → contains result w ≡ has w ((rows_of self.now).preds row) }
    {
        let mut before = RowSet::new();
        for w in self.predecessors(row) {
            before.insert(*w);
        }
        before
    }
}
