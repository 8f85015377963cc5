// The index beside the session table: the places of its used records by rising IV, in a byte run that the host lends.
#![tactic(auto)]

pub mod change;
mod entries;
pub mod lookup;
mod order;
pub mod rule;
