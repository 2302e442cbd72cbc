// The listing: the compensating graph, and where the competition may go on.
ghost use Rattle.std.specs.Prelude.{◌≡◌, ℕ, ◌+◌, ◌^◌, ◌<◌, true, false, ◌&&◌, ◌==◌, length};
ghost use Rattle.graph.specs.Held.{held};
ghost use Rattle.graph.specs.Scratch.{SameLoans};
ghost use Rattle.process.specs.Accepted.{enough};
ghost use Rattle.model.specs.Search.{any_below};
ghost use Rattle.model.specs.Rows.{is_savepoint};
ghost use Rattle.model.specs.Rollback.{stopped, restart_points};
ghost use Rattle.model.specs.Sheet.{arrows_from, graph_arrows};
ghost use Rattle.model.specs.Run.{column_after};
ghost use Rattle.rowset.specs.Members.{contains};
ghost use Rattle.rows.specs.Linked.{LinksAmong, links_at};
ghost use Rattle.values.specs.Checks.{answer};
ghost use Rattle.values.specs.declared.Mode.TheVariants.{Partial};
ghost use Rattle.sheet.specs.Listings.{graph_check, HasBehind, Puts, ends, listed};
ghost use Rattle.sheet.specs.Reports.{Lists, points_of};
ghost use Rattle.sheet.specs.SheetOf.{sheet_of, chart_of};

use super::Sheet;
use crate::memory::wants_memory;
use crate::tables::{put, put_if};
use graph::marks::Marks;
use graph::scratch::Scratch;
use rowset::RowSet;
use values::{Cause, Fault, Layer, Mode, Phase, RowArrow, RowState};

// Each function that puts something into a table gives the next place of it. A table that is too short is written as far as
// it goes, so with an empty one the same functions count.

// Where the competition may go on: whether at the start, and at which savepoints.
#[derive(Clone, Copy, Drop)]
struct Points {
    start: bool,
    stops: RowSet,
}

impl Points {
    // Puts them: 0 for the start, and then the savepoints, the lowest first.
    fn put(self, table: &mut [u16]) -> usize
        ensures { Puts (listed self) 0 table.old result table.new }
    {
        let mut next = put_if(self.start, 0, table, 0);
        for row in self.stops.iter() {
            next = put(row, table, next);
        }
        next
    }
}

impl Sheet {
    // Puts the arrows from a row of the graph, by the set of the rows that they lead to.
    fn put_arrows_to(&self, from: u16, to: &RowSet, table: &mut [RowArrow], at: usize) -> usize
        requires to { (u : ℕ) → contains to.now u ≡ ends (sheet_of self.now) from u }
        requires room { at + 257 < 2 ^ 64 }
        ensures { Puts (arrows_from (sheet_of self.now) from) at table.old result table.new }
    {
        let mut next = at;
        for row in to.iter() {
            next = put(RowArrow { from, to: row }, table, next);
        }
        next
    }

    // Puts the arrows from a row of the graph, by the rows that are linked to it.
    fn put_arrows_from(&self, from: u16, links: &RowSet, table: &mut [RowArrow], at: usize) -> usize
        requires links { LinksAmong (sheet_of self.now).rows self.now.graph from links.now }
        requires room { at + 257 < 2 ^ 64 }
        ensures { Puts (arrows_from (sheet_of self.now) from) at table.old result table.new }
    {
        let mut to = self.graph;
        to.meet(links);
        self.put_arrows_to(from, &to, table, at)
    }

    // Puts the arrows of the graph.
    fn put_arrows(&self, links: &[RowSet; 257], table: &mut [RowArrow]) -> usize
        requires { (v : ℕ) → contains self.now.graph v ≡ true
            → LinksAmong (sheet_of self.now).rows self.now.graph v (links_at links.now v) }
        ensures { Puts (graph_arrows (sheet_of self.now)) 0 table.old result table.new }
    {
        let mut next = 0;
        for row in self.graph.iter() {
            next = self.put_arrows_from(row, &links[usize::from(row)], table, next);
        }
        next
    }

    // Whether one of some rows is of the first step.
    fn any_of_first_step(&self, rows: &RowSet) -> bool
        ensures { result ≡ any_below ((sheet_of self.now).rows.count + 1)
            (λ x. contains rows.now x && (sheet_of self.now).rows.step x == 1) }
    {
        rows.iter().any(|row| self.table.step(row) == 1)
    }

    // Those of some rows that are savepoints.
    fn savepoints(&self, rows: RowSet) -> RowSet
        ensures { (k : ℕ) → contains result k
            ≡ (is_savepoint (chart_of self.now) (sheet_of self.now).rows k && contains rows k) }
    {
        let mut savepoints = RowSet::new();
        for row in rows.iter() {
            savepoints.put(row, self.table.is_savepoint(self.process.steps(), row));
        }
        savepoints
    }

    // The committed savepoints at which the way back from the failing row ended.
    fn stops(&self, f: u16, behind: &RowSet) -> RowSet
        requires { HasBehind (chart_of self.now) (sheet_of self.now).rows f behind.now }
        ensures { (w : ℕ) → contains result w ≡ stopped (chart_of self.now) (sheet_of self.now).rows f w }
    {
        let mut reached = self.table.predecessors_of(behind);
        reached.meet(&self.table.rows_in(RowState::Committed));
        self.savepoints(reached)
    }

    // The failing row and its backward part.
    fn behind(&self, f: u16, scratch: &mut Scratch) -> RowSet
        requires { enough (length (held scratch.old.marks.now)) (length scratch.old.line.now) ≡ true }
        ensures rows { HasBehind (chart_of self.now) (sheet_of self.now).rows f result }
        ensures loans { SameLoans scratch.old scratch.new }
    {
        let steps = self.process.steps();
        let mut behind = self.table.backward_rows(steps, f, scratch).unwrap();
        behind.insert(f);
        behind
    }

    // The restart points of a partial abort: the savepoints where the way back ended, and the start where it got there.
    fn points_from(&self, f: u16, scratch: &mut Scratch) -> Points
        requires { enough (length (held scratch.old.marks.now)) (length scratch.old.line.now) ≡ true }
        ensures points { listed result ≡ restart_points (chart_of self.now) (sheet_of self.now).rows (Partial f) }
        ensures loans { SameLoans scratch.old scratch.new }
    {
        let behind = self.behind(f, scratch);
        Points {
            start: self.any_of_first_step(&behind),
            stops: self.stops(f, &behind),
        }
    }

    // The restart points of the last abort.
    fn points(&self, scratch: &mut Scratch) -> Points
        requires { enough (length (held scratch.old.marks.now)) (length scratch.old.line.now) ≡ true }
        ensures points { listed result ≡ points_of (chart_of self.now) (sheet_of self.now) }
        ensures loans { SameLoans scratch.old scratch.new }
    {
        match self.mode {
            Mode::Complete => Points {
                start: true,
                stops: RowSet::new(),
            },
            Mode::Partial(f) => self.points_from(f, scratch),
        }
    }

    // Declines a listing of a sheet that goes forward.
    fn wants_graph(&self) -> Result<(), Fault>
        ensures { result ≡ answer (graph_check (sheet_of self.now)) tt }
    {
        if self.phase == Phase::Forward {
            return Err(Layer::Sheet.fault(Cause::WrongPhase, usize::from(u8::from(self.phase))));
        }
        Ok(())
    }

    // The listing, in memory that is long enough.
    fn list_in(
        &self,
        scratch: &mut Scratch,
        arrows: &mut [RowArrow],
        restarts: &mut [u16],
    ) -> Result<(usize, usize), Fault>
        requires { enough (length (held scratch.old.marks.now)) (length scratch.old.line.now) ≡ true }
        ensures lists { Lists (chart_of self.now) (sheet_of self.now) (length (held scratch.old.marks.now))
            (length scratch.old.line.now) arrows.old restarts.old result arrows.new restarts.new }
        ensures loans { SameLoans scratch.old scratch.new }
    {
        self.wants_graph()?;
        let mut links = [RowSet::new(); 257];
        self.table.write_links(&self.graph, &mut links);
        let points = self.points(scratch);
        // both are counted first: a declined listing leaves both tables as they were
        let arrow_count = self.put_arrows(&links, &mut []);
        let restart_count = points.put(&mut []);
        if arrow_count > arrows.len() || restart_count > restarts.len() {
            return Err(Layer::Sheet.fault(Cause::ShortMemory, 0));
        }
        self.put_arrows(&links, arrows);
        points.put(restarts);
        Ok((arrow_count, restart_count))
    }

    /// Fills one table from the front with the arrows of the compensating graph, and one with the restart points, both in
    /// rising order, and says how far each is filled.
    pub fn listing(
        &self,
        column: &mut [u8],
        line: &mut [u16],
        arrows: &mut [RowArrow],
        restarts: &mut [u16],
    ) -> Result<(usize, usize), Fault>
        ensures lists { Lists (chart_of self.now) (sheet_of self.now) (length column.old) (length line.old)
            arrows.old restarts.old result arrows.new restarts.new }
        ensures column { column.new ≡ column_after column.old (length line.old) }
        ensures line { enough (length column.old) (length line.old) ≡ false → line.new ≡ line.old }
    {
        wants_memory(column, line)?;
        let mut marks = Marks::new(column);
        let mut scratch = Scratch {
            marks: &mut marks,
            line,
        };
        self.list_in(&mut scratch, arrows, restarts)
    }
}
