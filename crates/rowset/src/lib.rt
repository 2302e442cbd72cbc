//! A set of row numbers, from 1 to 256.
#![tactic(auto)]

ghost use Rattle.std.specs.Prelude.{◌≡◌, ℕ, ◌+◌, ◌<◌, true, false, not, MatchOption, if◌then◌else◌, ◌&&◌, ◌||◌, ◌==◌};
ghost use Rattle.std.specs.Iterator.{YieldsFirst, item_count};
ghost use Rattle.graph.specs.Reach.{Least};
ghost use Rattle.rowset.specs.Members.{is_number, contains};
ghost use Rattle.rowset.specs.Iteration.{members, members_above, rest};

/// How many numbers there are.
const NUMBERS: usize = 256;

/// A set of the numbers 1 to 256: a bit for each, the lowest first.
#[derive(Clone, Copy, Drop)]
pub struct RowSet {
    words: [u64; 4],
}

/// The place of a number's bit.
fn place_of(number: u16) -> Option<usize>
    ensures { MatchOption result (is_number number ≡ false) (λ place. (place + 1 ≡ number) × (place < 256)) }
{
    let place = usize::from(number).checked_sub(1)?;
    if place < NUMBERS { Some(place) } else { None }
}

impl RowSet {
    /// The set without members.
    pub fn new() -> RowSet
        ensures { (k : ℕ) → contains result k ≡ false }
    {
        RowSet { words: [0; 4] }
    }

    /// Whether a number is a member.
    pub fn contains(&self, number: u16) -> bool
        ensures { result ≡ contains self.now number }
    {
        match place_of(number) {
            Some(place) => self.words[place / 64] >> (place % 64) & 1 == 1,
            None => false,
        }
    }

    /// Adds a number; changes nothing where it is not from 1 to 256.
    pub fn insert(&mut self, number: u16)
        ensures { (k : ℕ) → contains self.new k ≡ (contains self.old k || (k == number && is_number k)) }
    {
        if let Some(place) = place_of(number) {
            self.words[place / 64] |= 1 << (place % 64);
        }
    }

    /// Takes a number out.
    pub fn remove(&mut self, number: u16)
        ensures { (k : ℕ) → contains self.new k ≡ (contains self.old k && not (k == number)) }
    {
        if let Some(place) = place_of(number) {
            self.words[place / 64] &= !(1 << (place % 64));
        }
    }

    /// Makes a number a member or not; changes nothing where it is not from 1 to 256.
    pub fn put(&mut self, number: u16, is_member: bool)
        ensures { (k : ℕ) → contains self.new k
            ≡ (if k == number then is_member && is_number k else contains self.old k) }
    {
        if is_member {
            self.insert(number);
        } else {
            self.remove(number);
        }
    }

    /// Adds the members of another set.
    pub fn join(&mut self, other: &RowSet)
        ensures { (k : ℕ) → contains self.new k ≡ (contains self.old k || contains other.now k) }
    {
        let words = self.words;
        self.words = std::array::from_fn(|i| words[i] | other.words[i]);
    }

    /// Keeps only the members of another set.
    pub fn meet(&mut self, other: &RowSet)
        ensures { (k : ℕ) → contains self.new k ≡ (contains self.old k && contains other.now k) }
    {
        let words = self.words;
        self.words = std::array::from_fn(|i| words[i] & other.words[i]);
    }

    /// The members, rising.
    pub fn iter(&self) -> Iter<'_>
        ensures { rest result ≡ members self.now }
    {
        self.iter_above(0)
    }

    /// The members above a number, rising.
    pub fn iter_above(&self, number: u16) -> Iter<'_>
        ensures { rest result ≡ members_above self.now number }
    {
        Iter {
            set: self,
            last: number,
        }
    }

    /// The least member above a number.
    pub fn next_above(&self, number: u16) -> Option<u16>
        ensures { Least (λ k. contains self.now k ≡ true) number result }
    {
        // the place of a number's bit is one less than the number
        let place = usize::from(number);
        if place >= NUMBERS {
            return None;
        }
        let word = self.words[place / 64] >> (place % 64);
        if word != 0 {
            return Some(number + word.trailing_zeros() as u16 + 1);
        }
        for i in place / 64 + 1..4 {
            let word = self.words[i];
            if word != 0 {
                return Some(64 * i as u16 + word.trailing_zeros() as u16 + 1);
            }
        }
        None
    }
}

/// The members of a set that are left, rising.
#[derive(Drop)]
pub struct Iter<'a> {
    set: &'a RowSet,
    last: u16,
}

impl<'a> Iterator for Iter<'a> {
    type Item = u16;

    ghost next_gives = { YieldsFirst rest };

    ghost remaining = { item_count rest };

    fn next(&mut self) -> Option<u16> {
        let next = self.set.next_above(self.last)?;
        self.last = next;
        Some(next)
    }
}
