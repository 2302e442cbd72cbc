// Playing journals: from a journal's text to what is printed and reported of it.
#![tactic(auto)]

mod answers;
mod competitions;
mod lists;
mod names;
mod outcomes;
mod play;
mod replay;
mod summary;

pub use answers::Answer;
pub use competitions::competition;
pub use names::step_names;
pub use outcomes::Outcome;
pub use replay::run;
pub use sheet::RowCounts;
pub use summary::{CallCounts, StepLine, Summary, printable_name};
