// Prepared plans. What steps by tables answer stands in specs/, and that they are the ordinary ones
// in proofs/. Tables are made in `tables`, judged in `ranges`, and `engine` takes steps by them.
// Here is where the parts of the tables start (specs/Tables.antt).
#![tactic(auto)]

pub const PREPARED: usize = 17666;

pub const FIRST_CODE: usize = 1;

pub const FIRST_SOURCE: usize = 641;

pub const FIRST_START: usize = 1281;

pub const FIRST_TARGET: usize = 1922;

pub const FIRST_READ: usize = 6146;

pub const FIRST_WRITE: usize = 11906;

// The numbers of a row of places, and where in it stands how many they are.
pub const ROW: usize = 9;

pub const ROW_COUNT: usize = 8;
