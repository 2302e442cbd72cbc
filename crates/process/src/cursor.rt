// Where the reader stands in a stored process.
use crate::parts::Arrow;

/// What the header says, and what was read after it.
#[derive(Clone, Copy, Drop)]
pub(crate) struct Progress {
    /// How many steps there are.
    pub(crate) steps: u16,
    pub(crate) steps_left: u16,
    pub(crate) arrows_left: u16,
    /// The last arrow that was read.
    pub(crate) last: Option<Arrow>,
}

#[derive(Clone, Copy, Drop)]
pub(crate) struct Cursor {
    pub(crate) place: usize,
    /// None before the header.
    pub(crate) progress: Option<Progress>,
}
