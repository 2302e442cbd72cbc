//! Tests of the traversal, of the column and of the queue.
#![tactic(auto)]

#[cfg(test)]
mod tests;
