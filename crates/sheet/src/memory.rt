// The memory that calls are lent.
ghost use Rattle.std.specs.Prelude.{◌≡◌, length, replicate, vec_items, IfOk};
ghost use Rattle.values.specs.Checks.{answer};
ghost use Rattle.model.specs.Calls.{memory_check};
ghost use Rattle.sheet.specs.Lent.{lent_of, zeros};

use crate::events::Sizes;
use process::is_enough;
use std::alloc::{AllocError, Global};
use values::{Cause, Fault, Layer, RowArrow};

/// Declines a call whose column or line is too short.
pub(crate) fn wants_memory(column: &[u8], line: &[u16]) -> Result<(), Fault>
    ensures { result ≡ answer (memory_check (length column.now) (length line.now)) tt }
{
    if !is_enough(column, line) {
        return Err(Layer::Sheet.fault(Cause::ShortMemory, 0));
    }
    Ok(())
}

/// The memory that is lent to calls: a scratch column and a line, two tables for a listing, and a buffer for replies.
#[derive(PartialEq, Eq, Debug, Drop)]
pub struct Memory {
    pub column: Vec<u8>,
    pub line: Vec<u16>,
    pub arrows: Vec<RowArrow>,
    pub restarts: Vec<u16>,
    pub buffer: Vec<u8>,
}

impl Memory {
    /// Memory of these lengths, all zero.
    pub fn new(heap: Global, sizes: Sizes) -> Result<Memory, AllocError>
        ensures lent { IfOk result (λ m. lent_of m ≡ zeros sizes) }
        ensures line { IfOk result (λ m. vec_items m.line ≡ replicate sizes.line 0) }
    {
        let none = RowArrow { from: 0, to: 0 };
        Ok(Memory {
            column: vec![in heap; 0; sizes.column]?,
            line: vec![in heap; 0; sizes.line]?,
            arrows: vec![in heap; none; sizes.arrows]?,
            restarts: vec![in heap; 0; sizes.restarts]?,
            buffer: vec![in heap; 0; sizes.buffer]?,
        })
    }
}
