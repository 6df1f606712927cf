// The values that a host lends: copies, slots and held words.
#![tactic(auto)]

pub mod openings;
pub mod places;
pub mod results;
