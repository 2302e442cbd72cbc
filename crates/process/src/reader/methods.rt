// What the reader does.
ghost use Rattle.std.specs.Prelude.{◌≡◌, ◌+◌, ◌<◌, ◌≤◌, Some, length, take, drop};
ghost use Rattle.process.specs.Items.{told, said_by, stand, Handed};
ghost use Rattle.process.specs.Reading.{HeaderRecord, StepRecord, ArrowRecord, NoRecord, next_of, start, expected};

use super::Reader;
use crate::cursor::{Cursor, Progress};
use crate::parts::Item;
use values::{Cause, Fault};

impl<'a> Reader<'a> {
    /// A reader at the first byte of the input.
    pub fn new(input: &'a [u8]) -> Reader<'a>
        ensures { stand result ≡ (input.now, start) }
    {
        Reader {
            rest: input,
            cursor: Cursor {
                place: 0,
                progress: None,
            },
        }
    }

    /// Goes past so many bytes.
    fn pass(&mut self, size: usize) -> &'a [u8]
        requires { size ≤ length self.old.rest.now }
        ensures bytes { result.now ≡ take size self.old.rest.now }
        ensures rest { self.new.rest.now ≡ drop size self.old.rest.now }
        ensures place { self.new.cursor.place ≡ self.old.cursor.place + size }
        ensures progress { self.new.cursor.progress ≡ self.old.cursor.progress }
    {
        let (record, rest) = self.rest.split_at(size);
        self.rest = rest;
        self.cursor.place += size;
        record
    }

    fn header(&mut self) -> Result<Option<Item<'a>>, Fault>
        ensures { Handed HeaderRecord self.old result self.new }
    {
        let progress = self.read_header()?;
        self.pass(4);
        self.cursor.progress = Some(progress);
        Ok(Some(Item::Header {
            steps: progress.steps,
            arrows: progress.arrows_left,
        }))
    }

    // `progress` is what the match in `next` found.
    fn step(&mut self, progress: Progress) -> Result<Option<Item<'a>>, Fault>
        requires progress { self.old.cursor.progress ≡ Some progress }
        requires left { 0 < progress.steps_left }
        ensures { Handed StepRecord self.old result self.new }
    {
        let (step, len) = self.read_step()?;
        let place = self.cursor.place + 2;
        let record = self.pass(2 + len);
        self.cursor.progress = Some(Progress {
            steps_left: progress.steps_left - 1,
            ..progress
        });
        Ok(Some(Item::Step {
            step,
            name: &record[2..],
            place,
        }))
    }

    fn arrow(&mut self, progress: Progress) -> Result<Option<Item<'a>>, Fault>
        requires progress { self.old.cursor.progress ≡ Some progress }
        requires left { 0 < progress.arrows_left }
        ensures { Handed ArrowRecord self.old result self.new }
    {
        let arrow = self.read_arrow(progress)?;
        self.pass(2);
        self.cursor.progress = Some(Progress {
            arrows_left: progress.arrows_left - 1,
            last: Some(arrow),
            ..progress
        });
        Ok(Some(Item::Arrow(arrow)))
    }

    fn end(&self) -> Result<Option<Item<'a>>, Fault>
        ensures { told result ≡ said_by (next_of NoRecord self.now.rest.now self.now.cursor) }
    {
        if !self.rest.is_empty() {
            return Err(self.fault(Cause::WrongLength));
        }
        Ok(None)
    }

    /// The next record, or `None` once there is none and no byte is left over; a fault leaves
    /// the reader where it stands.
    // After a fault each further call answers the same fault.
    pub fn next(&mut self) -> Result<Option<Item<'a>>, Fault>
        ensures { Handed (expected self.old.cursor) self.old result self.new }
    {
        match self.cursor.progress {
            None => self.header(),
            Some(progress) if progress.steps_left > 0 => self.step(progress),
            Some(progress) if progress.arrows_left > 0 => self.arrow(progress),
            Some(_) => self.end(),
        }
    }
}
