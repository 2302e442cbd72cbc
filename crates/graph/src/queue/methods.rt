//! What a queue does.
ghost use Rattle.std.specs.Prelude.{◌≡◌, ◌+◌, ◌<◌, [], ◌∷◌, ◌++◌, drop, length, is_ok, IfErr, if◌then◌else◌, MatchOption, ◌==◌, nat_lt};
ghost use Rattle.graph.specs.Ring.{Spot};
ghost use Rattle.graph.specs.Waiting.{waiting, places};

use super::Queue;

/// The place `count` after `head`, going round at the end of `n` places.
fn spot(n: usize, head: usize, count: usize) -> usize
    requires { (head < n) × (count < n) }
    ensures { Spot n (head + count) result }
{
    // The sum of both may not fit: of elements that take no memory there may be that many.
    let ahead = n - head;
    if count < ahead {
        head + count
    } else {
        count - ahead
    }
}

impl<'a, T: Drop> Queue<'a, T> {
    /// An empty queue over `slots`, with a place for each of them.
    pub fn new(slots: &'a mut [T]) -> Queue<'a, T>
        ensures waiting { waiting result ≡ [] }
        ensures places { places result ≡ length slots.old }
    {
        Queue {
            slots,
            head: 0,
            count: 0,
        }
    }

    /// How many elements wait.
    #[tactic(auto, using(crate::proofs::Rings::length_waiting))]
    pub fn len(&self) -> usize
        ensures { result ≡ length (waiting self.now) }
    {
        self.count
    }

    /// Whether none waits.
    pub fn is_empty(&self) -> bool
        ensures { result ≡ (length (waiting self.now) == 0) }
    {
        self.len() == 0
    }

    /// Puts `x` last; where no place is free, hands it back.
    #[tactic(auto, using(crate::proofs::Rings::length_waiting))]
    pub fn push(&mut self, x: T) -> Result<(), T>
        ensures test { is_ok result ≡ nat_lt (length (waiting self.old)) (places self.old) }
        ensures waiting { waiting self.new
            ≡ (if is_ok result then waiting self.old ++ x ∷ [] else waiting self.old) }
        ensures refused { IfErr result (λ y. y ≡ x) }
        ensures places { places self.new ≡ places self.old }
    {
        let n = self.slots.len();
        if self.count >= n {
            return Err(x);
        }
        let place = spot(n, self.head, self.count);
        self.slots[place] = x;
        self.count += 1;
        Ok(())
    }

    /// The first, if one waits.
    pub fn first(&self) -> Option<&T>
        ensures { MatchOption result
            (waiting self.now ≡ [])
            (λ x. waiting self.now ≡ x.now ∷ drop 1 (waiting self.now)) }
    {
        if self.count == 0 {
            return None;
        }
        let slots = &*self.slots;
        Some(&slots[self.head])
    }

    /// Lets the first go, if one waits. Its place keeps it until the place is wanted again.
    pub fn drop_first(&mut self)
        ensures waiting { waiting self.new ≡ drop 1 (waiting self.old) }
        ensures places { places self.new ≡ places self.old }
    {
        if self.count == 0 {
            return;
        }
        let n = self.slots.len();
        self.head = if self.head + 1 < n { self.head + 1 } else { 0 };
        self.count -= 1;
    }
}

impl<T: Copy + Drop> Queue<'_, T> {
    /// Takes the first.
    pub fn pop(&mut self) -> Option<T>
        ensures waiting { MatchOption result
            ((waiting self.old ≡ []) × (waiting self.new ≡ []))
            (λ x. waiting self.old ≡ x ∷ waiting self.new) }
        ensures places { places self.new ≡ places self.old }
    {
        let first = *self.first()?;
        self.drop_first();
        Some(first)
    }
}
