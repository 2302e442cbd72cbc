// The reply: what a sheet shows to those outside.
ghost use Rattle.std.specs.Prelude.{◌≡◌, ◌+◌, ◌<◌, ◌≤◌, length, true};
ghost use Rattle.model.specs.Chart.{step_at};
ghost use Rattle.model.specs.Report.{shown};
ghost use Rattle.rows.specs.Highest.{is_highest};
ghost use Rattle.sheet.specs.Fields.{SetsStep, Shows, ShowsNow, StandsFirst, shown_below};
ghost use Rattle.sheet.specs.Reports.{Replies};
ghost use Rattle.sheet.specs.SheetOf.{sheet_of, chart_of};

use super::Sheet;
use crate::bits::set_field;
use rows::step_at;
use values::{Cause, Fault, Layer};

/// How many bytes a reply has.
const REPLY: usize = 32;

/// How many steps have a field.
const STEPS: u16 = 64;

/// What is shown of a private step.
const PRIVATE: u8 = 7;

// Below, `bytes` begins with the reply; what stands behind it stays.

// Sets the field of a step: 3 bits, behind the first 32 and the fields of the steps before it.
fn set_step(bytes: &mut [u8], step: u16, value: u8)
    requires room { 32 ≤ length bytes.old }
    requires low { 1 ≤ step }
    requires high { step ≤ 64 }
    requires fits { value < 8 }
    ensures { SetsStep step value bytes.old bytes.new }
{
    set_field(bytes, 32 + 3 * (usize::from(step) - 1), 3, u16::from(value));
}

impl Sheet {
    // Whether a step is private.
    fn is_private(&self, step: u16) -> bool
        ensures { result ≡ (step_at (chart_of self.now) step).private }
    {
        step_at(self.process.steps(), step).private
    }

    // Writes the form number, the phase, the number of steps less 1 and that of the rollback, and zeros.
    fn write_front(&self, bytes: &mut [u8])
        requires { 32 ≤ length bytes.old }
        ensures { ShowsNow self.now (λ _. 0) bytes.old bytes.new }
    {
        bytes[..REPLY].fill(0);
        set_field(bytes, 0, 8, 1);
        set_field(bytes, 8, 2, u16::from(u8::from(self.phase)));
        set_field(bytes, 10, 6, self.process.steps().len() as u16 - 1);
        set_field(bytes, 16, 16, self.rollback);
    }

    // Writes which steps are private.
    fn write_private(&self, bytes: &mut [u8])
        requires room { 32 ≤ length bytes.old }
        requires blank { Shows self.now (λ _. 0) bytes.old }
        ensures { ShowsNow self.now (shown_below self.now 1) bytes.old bytes.new }
    {
        let steps = self.process.steps().len() as u16;
        for step in 1..steps + 1 {
            if self.is_private(step) {
                set_step(bytes, step, PRIVATE);
            }
        }
    }

    // Writes the state of a row that is the highest of its step, if the step is one that has a field, and is not private.
    fn write_row(&self, row: u16, bytes: &mut [u8])
        requires room { 32 ≤ length bytes.old }
        requires highest { is_highest (sheet_of self.now).rows row ≡ true }
        requires before { Shows self.now (shown_below self.now row) bytes.old }
        ensures { ShowsNow self.now (shown_below self.now (row + 1)) bytes.old bytes.new }
    {
        let step = self.table.step(row);
        if (1..=STEPS).contains(&step) && !self.is_private(step) {
            set_step(bytes, step, u8::from(self.table.state(row)));
        }
    }

    // Writes the state of the highest row of each step.
    fn write_rows(&self, bytes: &mut [u8])
        requires room { 32 ≤ length bytes.old }
        requires before { Shows self.now (shown_below self.now 1) bytes.old }
        ensures { ShowsNow self.now (shown (chart_of self.now) (sheet_of self.now)) bytes.old bytes.new }
    {
        let highest = self.table.highest();
        for row in highest.iter() {
            self.write_row(row, bytes);
        }
    }

    // Writes the reply.
    fn write_reply(&self, bytes: &mut [u8])
        requires { 32 ≤ length bytes.old }
        ensures { StandsFirst self.now bytes.old bytes.new }
    {
        self.write_front(bytes);
        self.write_private(bytes);
        self.write_rows(bytes);
    }

    /// Puts the reply into a buffer, where its 32 bytes begin at `place`.
    pub fn reply(&self, place: usize, buffer: &mut [u8]) -> Result<(), Fault>
        ensures { Replies (chart_of self.now) (sheet_of self.now) place buffer.old result buffer.new }
    {
        if buffer.len().saturating_sub(place) < REPLY {
            return Err(Layer::Sheet.fault(Cause::ShortMemory, 0));
        }
        self.write_reply(&mut buffer[place..]);
        Ok(())
    }
}
