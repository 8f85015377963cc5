// Access logs: the status of a line, the counts of a log that arrives in parts, and the text that is printed of them.
#![tactic(auto)]

mod line;
mod search;
mod state;
mod text;

pub use state::State;
pub use text::{TEXT_SIZE, print};
