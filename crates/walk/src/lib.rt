// The edges of a plan's items: from an item it walks round the loop to the writers of the places
// that the item touches.
#![tactic(auto)]

pub mod list;
pub mod rows;
