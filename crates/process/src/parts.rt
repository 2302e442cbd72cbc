// What a process consists of.
use values::{Flow, Kind};

/// A step of a process: a row of the sheet is started for it.
#[derive(Clone, Copy, PartialEq, Eq, Debug, Drop)]
pub struct Step {
    /// The way back of a rollback ends before its rows.
    pub savepoint: bool,
    /// What its rows did can be taken back.
    pub counterpart: bool,
    /// Outsiders learn nothing of what its rows hold.
    pub private: bool,
    /// How many rows a row comes after: a single one, or as many as arrows enter the step.
    pub entry: Flow,
    /// How many rows may come after a row: a single one, or one of each step that arrows lead to.
    pub exit: Flow,
    /// The kind of its rows' entries.
    pub kind: Kind,
}

/// An arrow between two steps, which may be the same; the first step has number 1.
///
/// Two are compared by where they begin, and if that is equal by where they end.
#[derive(Clone, Copy, PartialEq, Eq, PartialOrd, Ord, Debug, Drop)]
pub struct Arrow {
    pub from: u16,
    pub to: u16,
}

/// One record of a stored process.
#[derive(Drop)]
pub enum Item<'a> {
    Header {
        steps: u16,
        arrows: u16,
    },
    /// The bytes of `name` are borrowed from the input, where they begin at index `place`.
    Step {
        step: Step,
        name: &'a [u8],
        place: usize,
    },
    Arrow(Arrow),
}
