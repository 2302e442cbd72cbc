// One record at the front of what is left: its checks in their order, and its fields.
ghost use Rattle.std.specs.Prelude.{◌≡◌, ◌+◌, ◌<◌, ◌≤◌, Some, length, IfOk, OnOk};
ghost use Rattle.values.specs.Checks.{first_fault, answer};
ghost use Rattle.values.specs.declared.Layer.TheVariants.{Reader as OfReader};
ghost use Rattle.process.specs.Bits.{field};
ghost use Rattle.process.specs.Reading.{HeaderRecord, StepRecord, ArrowRecord, checks, header_at, header_done, step_of, word2, name_length, read_arrow};

use super::Reader;
use crate::bits::{bit, field, word2};
use crate::cursor::Progress;
use crate::parts::{Arrow, Step};
use crate::tables::{MOST_ARROWS, MOST_STEPS};
use values::{Cause, Fault, Flow, Kind, Layer};

impl Reader<'_> {
    /// A fault of the record that comes next, at its first byte.
    pub(crate) fn fault(&self, cause: Cause) -> Fault
        ensures { result ≡ record { cause = cause; layer = OfReader; place = self.now.cursor.place } }
    {
        Layer::Reader.fault(cause, self.cursor.place)
    }

    /// The header: how many steps and arrows there are.
    pub(crate) fn read_header(&self) -> Result<Progress, Fault>
        ensures answer { result ≡ answer (first_fault (checks HeaderRecord self.now.rest.now self.now.cursor))
            (header_done (header_at self.now.rest.now 1) (header_at self.now.rest.now 2)) }
        ensures long { OnOk result (4 ≤ length self.now.rest.now) }
    {
        let [p, q, r, s, ..] = self.rest else {
            return Err(self.fault(Cause::WrongLength));
        };
        let word = u32::from_be_bytes([*p, *q, *r, *s]);
        let steps = field(word, 17, 7) as u16;
        let arrows = field(word, 7, 10) as u16;
        if field(word, 24, 8) != 1 || field(word, 0, 7) != 0 {
            return Err(self.fault(Cause::WrongForm));
        }
        if steps == 0 || steps > MOST_STEPS || arrows > MOST_ARROWS {
            return Err(self.fault(Cause::WrongValue));
        }
        Ok(Progress {
            steps,
            steps_left: steps,
            arrows_left: arrows,
            last: None,
        })
    }

    /// A step, and how long the name is that follows its two bytes.
    // By that length the caller passes the record and cuts the name out of it.
    pub(crate) fn read_step(&self) -> Result<(Step, usize), Fault>
        ensures answer { result ≡ answer (first_fault (checks StepRecord self.now.rest.now self.now.cursor))
            (step_of (word2 self.now.rest.now), name_length self.now.rest.now) }
        ensures long { IfOk result (λ v. 2 + v.1 ≤ length self.now.rest.now) }
    {
        let [hi, lo, tail @ ..] = self.rest else {
            return Err(self.fault(Cause::WrongLength));
        };
        let word = word2(*hi, *lo);
        let len = field(word, 4, 5) as usize;
        if tail.len() < len {
            return Err(self.fault(Cause::WrongLength));
        }
        if field(word, 0, 4) != 0 {
            return Err(self.fault(Cause::WrongForm));
        }
        let Ok(kind) = Kind::try_from(field(word, 9, 2) as u8) else {
            return Err(self.fault(Cause::WrongValue));
        };
        if len == 0 {
            return Err(self.fault(Cause::WrongValue));
        }
        let step = Step {
            savepoint: bit(word, 15),
            counterpart: bit(word, 14),
            private: bit(word, 13),
            entry: Flow::from(bit(word, 12)),
            exit: Flow::from(bit(word, 11)),
            kind,
        };
        Ok((step, len))
    }

    /// An arrow, which comes after the last one.
    pub(crate) fn read_arrow(&self, progress: Progress) -> Result<Arrow, Fault>
        requires { self.now.cursor.progress ≡ Some progress }
        ensures answer { result ≡ answer (first_fault (checks ArrowRecord self.now.rest.now self.now.cursor))
            (read_arrow self.now.rest.now) }
        ensures long { OnOk result (2 ≤ length self.now.rest.now) }
    {
        let [hi, lo, ..] = self.rest else {
            return Err(self.fault(Cause::WrongLength));
        };
        let word = word2(*hi, *lo);
        let from = field(word, 10, 6) as u16 + 1;
        let to = field(word, 4, 6) as u16 + 1;
        if field(word, 0, 4) != 0 {
            return Err(self.fault(Cause::WrongForm));
        }
        let Progress { steps, last, .. } = progress;
        let arrow = Arrow { from, to };
        if from > steps || to > steps || to == 1 || last >= Some(arrow) {
            return Err(self.fault(Cause::WrongValue));
        }
        Ok(arrow)
    }
}
