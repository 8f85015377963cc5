// The session table: records of 31 bytes each in a byte run that the host lends.
#![tactic(auto)]

pub mod place;
pub mod rule;
pub mod session;
