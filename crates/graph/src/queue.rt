//! A queue over lent memory.
ghost use Rattle.std.specs.Prelude.{◌<◌, ◌≤◌, length};

mod methods;

/// A queue over slots that are lent to it: the element that waits longest is the first to go.
// A ring: after the last slot comes the first.
#[derive(Drop)]
pub struct Queue<'a, T> {
    slots: &'a mut [T],
    head: usize,
    count: usize,
    ghost fits: { count ≤ length slots.now },
    ghost within: { 0 < length slots.now → head < length slots.now },
}
