// The limits of a text and of its plan, as in specs/Limits.antt. Which numbers are kernels is not
// among them: `kernels::kernel_by` decides.
pub const MAX_BYTES: usize = 32768;

pub const MAX_PASSES: u64 = 1000000000000;

pub const MAX_RANKS: u64 = 16;

pub const MAX_REGIONS: u64 = 128;

pub const MAX_TASKS: u64 = 128;

pub const MAX_ACCESSES: usize = 8;

pub const MAX_TRANSFERS: u64 = 256;

// The largest starting value and constant.
pub const MAX_WORD: u64 = 18446744073709551615;
