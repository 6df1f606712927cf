// Where the words of a plan stand, and what an access says (specs/Layout.antt).
ghost use Rattle.std.specs.Prelude.{◌≡◌, ◌<◌, length, if◌then◌else◌, slice_set};
ghost use Rattle.plan.specs.Limits.{max_regions};
ghost use Rattle.plan.specs.Layout.{access_region, reads, writes};

pub const PLAN_WORDS: usize = 1668;

pub const PASSES: usize = 0;

pub const RANKS: usize = 1;

pub const REGIONS: usize = 2;

pub const TASKS: usize = 3;

// The starting value of region 0; the others follow.
pub const FIRST_START: usize = 4;

// The words of task 0: rank, kernel, constant, number of accesses, and the accesses. Those of the
// others follow.
pub const FIRST_RANK: usize = 132;

pub const FIRST_KERNEL: usize = 133;

pub const FIRST_CONSTANT: usize = 134;

pub const FIRST_COUNT: usize = 135;

pub const FIRST_ACCESS: usize = 136;

pub const TASK_WORDS: usize = 12;

// An access is its region and MODE times its mode: in 0, out 1, inout 2. Every access lies below
// ACCESS_END.
pub const MODE: u64 = 128;

pub const ACCESS_END: u64 = 384;

// The region of an access.
pub fn access_region(access: u64) -> usize
    ensures { (result ≡ access_region access) × (result < max_regions) }
{
    (access % MODE) as usize
}

// Whether it reads its region.
pub fn reads_region(access: u64) -> bool
    ensures { result ≡ reads access }
{
    access / MODE != 1
}

// Whether it writes it.
pub fn writes_region(access: u64) -> bool
    ensures { result ≡ writes access }
{
    access / MODE != 0
}

// The item goes to `at` where `yes` holds.
pub fn put_if<T: Copy>(items: &mut [T], at: usize, item: T, yes: bool)
    requires { at < length items.old }
    ensures { items.new ≡ (if yes then slice_set items.old at item else items.old) }
{
    if yes {
        items[at] = item;
    }
}
