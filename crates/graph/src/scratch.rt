//! The memory that a traversal is lent.
ghost use Rattle.std.specs.Prelude.{◌≡◌};
ghost use Rattle.graph.specs.Scratch.{roomy_in};

use crate::marks::Marks;

/// The memory that a traversal is lent: the marks that it sets, and the line that its queue waits in.
///
/// What the line holds after a traversal is of no meaning.
// The marks are lent, so that who made them can prove that the column is wiped in the end.
#[derive(Drop)]
pub struct Scratch<'s, 'a> {
    pub marks: &'s mut Marks<'a>,
    pub line: &'s mut [u16],
}

impl Scratch<'_, '_> {
    /// Whether there is room to traverse a graph of `points` points.
    pub(crate) fn has_room(&self, points: usize) -> bool
        ensures { result ≡ roomy_in points self.now }
    {
        points <= self.line.len() && self.marks.covers(points)
    }
}
