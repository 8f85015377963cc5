// The stages that judge a request, each over what the one before it made: reading, vouching and admitting, and the last two in a row. A stage
// that refuses says why.
#![tactic(auto)]

pub mod admitting;
pub mod reading;
pub mod refusal;
pub mod settling;
pub mod vouching;
