// A process that the reader accepted.
ghost use Rattle.std.specs.Prelude.{◌≡◌, ℕ, ◌≤◌, vec_len};
ghost use Rattle.graph.specs.Reach.{Within};
ghost use Rattle.process.specs.Stored.{Tail, Head};
ghost use Rattle.process.specs.Stored.{All, Placed, Rising, no_arrow, ends_at, Reachable};

use crate::parts::{Arrow, Step};

pub mod read;

/// A process whose stored form was accepted: what a sheet needs of it.
// The facts below speak of the two lists.
#[derive(Drop)]
pub struct Process {
    steps: Vec<Step>,
    arrows: Vec<Arrow>,
    ghost some_steps: { 1 ≤ vec_len steps },
    ghost few_steps: { vec_len steps ≤ 64 },
    ghost few_arrows: { vec_len arrows ≤ 512 },
    ghost placed: { ∥ All (Placed (vec_len steps)) arrows.items ∥₁ },
    ghost rising: { ∥ Rising no_arrow arrows.items ∥₁ },
    ghost out_few: { (k : ℕ) → Within (vec_len steps) k → ends_at Tail arrows.items k ≤ 8 },
    ghost in_few: { (k : ℕ) → Within (vec_len steps) k → ends_at Head arrows.items k ≤ 8 },
    ghost reached: { (k : ℕ) → Within (vec_len steps) k → ∥ Reachable arrows.items (vec_len steps) k ∥₁ },
}
