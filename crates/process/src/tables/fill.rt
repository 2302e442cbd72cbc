// The records of a stored process, taken into the tables.
ghost use Rattle.std.specs.Prelude.{◌≡◌, ◌+◌, Err, vec_len, MatchResult};
ghost use Rattle.process.specs.Items.{record_of};
ghost use Rattle.process.specs.Reading.{Scan};
ghost use Rattle.process.specs.Drafts.{bare, bare_with, step_more, arrow_more, RoomFor, Filled};

use super::{Draft, Tables};
use crate::parts::Item;
use crate::reader::Reader;
use values::Fault;

impl Draft {
    /// Takes in one record more.
    fn take(&mut self, item: &Item)
        requires { RoomFor (record_of item.now) self.old }
        ensures steps { vec_len self.new.steps
            ≡ vec_len self.old.steps + step_more (record_of item.now) }
        ensures arrows { vec_len self.new.arrows
            ≡ vec_len self.old.arrows + arrow_more (record_of item.now) }
        ensures bare { bare self.new ≡ bare_with (bare self.old) (record_of item.now) }
    {
        match item {
            Item::Header { .. } => {}
            Item::Step { step, .. } => self.steps.push_reserved(*step),
            Item::Arrow(arrow) => self.arrows.push_reserved(*arrow),
        }
    }
}

/// The tables with all records of the input in them, or the fault that the reader comes to first.
pub(crate) fn filled(input: &[u8], tables: Tables) -> Result<Draft, Fault>
    ensures { MatchResult result (Filled input.now) (λ f. Scan input.now (Err f)) }
{
    let Tables { mut draft } = tables;
    let mut reader = Reader::new(input);
    while let Some(item) = reader.next()? {
        draft.take(&item);
    }
    Ok(draft)
}
