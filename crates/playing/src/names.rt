// The names of the steps of a stored process, as they are printed.
ghost use Rattle.std.specs.Prelude.{◌≡◌, [], ◌++◌, IfOk, OnOk};
ghost use Rattle.process.specs.Items.{record_of};
ghost use Rattle.process.specs.Reading.{start};
ghost use Rattle.playing.specs.Names.{texts, name_before, names_handed};

use crate::summary::printable_name;
use process::Reader;
use process::parts::Item;
use std::alloc::{AllocError, Global};

// Adds the name of a step; other records have none.
fn add_name(heap: Global, names: &mut Vec<String>, item: Item<'_>) -> Result<(), AllocError>
    ensures { OnOk result (texts names.new ≡ texts names.old ++ name_before (record_of item.entry) []) }
{
    if let Item::Step { name, .. } = item {
        names.push(printable_name(heap, name)?)?;
    }
    Ok(())
}

// The names of the steps among the first records that the bytes store.
pub fn step_names(heap: Global, stored: &[u8], records: usize) -> Result<Vec<String>, AllocError>
    ensures { IfOk result (λ v. texts v ≡ names_handed records stored.now start) }
{
    let mut names = Vec::new(heap);
    let mut reader = Reader::new(stored);
    // so many records are read, if the reader has them
    for _i in 0..records {
        let Ok(Some(item)) = reader.next() else {
            return Ok(names);
        };
        add_name(heap, &mut names, item)?;
    }
    Ok(names)
}
