// The tables that a process is read into.
ghost use Rattle.std.specs.Prelude.{◌≡◌, ◌≤◌, vec_len, vec_capacity};

use crate::parts::{Arrow, Step};
use std::alloc::{AllocError, Global};

mod fill;

pub(crate) use fill::filled;

/// How many steps a process may have.
pub(crate) const MOST_STEPS: u16 = 64;

/// How many arrows a process may have.
pub(crate) const MOST_ARROWS: u16 = 512;

/// The steps and arrows that were read so far, with room for the largest process.
#[derive(Drop)]
pub(crate) struct Draft {
    pub(crate) steps: Vec<Step>,
    pub(crate) arrows: Vec<Arrow>,
    ghost steps_room: { 64 ≤ vec_capacity steps },
    ghost arrows_room: { 512 ≤ vec_capacity arrows },
}

/// Empty tables with room for the largest process, so that reading needs no more memory.
#[derive(Drop)]
pub struct Tables {
    draft: Draft,
    ghost no_steps: { vec_len draft.steps ≡ 0 },
    ghost no_arrows: { vec_len draft.arrows ≡ 0 },
}

impl Tables {
    /// Empty tables, or want of memory.
    pub fn new(heap: Global) -> Result<Tables, AllocError> {
        let draft = Draft {
            steps: Vec::with_capacity(heap, MOST_STEPS as usize)?,
            arrows: Vec::with_capacity(heap, MOST_ARROWS as usize)?,
        };
        Ok(Tables { draft })
    }
}
