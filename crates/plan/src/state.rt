// The layout of what is lent beside a plan, as in specs/Sizes.antt.
ghost use Rattle.std.specs.Prelude.{◌≡◌, ◌-◌, ◌<◌, ◌≤◌};
ghost use Rattle.plan.specs.Sizes.{max_items, value_words, slot_of};
ghost use Rattle.plan.specs.Code.{code_fewer};
ghost use Rattle.plan.specs.Counts.{surplus_of};

// A count of an item: of passes, or of unmet waits.
pub type Count = u64;

// The least number with its top bit set. Every count in form lies below it. Words joined by `|` lie
// below it exactly if each does.
pub const TOP_BIT: u64 = 9223372036854775808;

// x less y, modulo 2^64. Of counts below the top bit it has that bit set exactly if y is more.
pub fn surplus(x: Count, y: Count) -> Count
    ensures { result ≡ surplus_of x y }
{
    x.wrapping_sub(y)
}

// The passes of an item, of a plan with so many: one fewer where its code says so. None below 0.
// This tests the plan's passes, which the compiler takes out of the loops; `saturating_sub` would
// test the item's.
pub fn own_passes(passes: Count, code: u16) -> Count
    requires { code_fewer code ≤ 1 }
    ensures { result ≡ passes - code_fewer code }
{
    if passes == 0 {
        return 0;
    }
    passes - Count::from(code / 8192)
}

// Items that a plan can have: 128 tasks, and a send and a receive for each of 256 transfers.
pub const MAX_ITEMS: usize = 640;

// The counts: a the started passes of item a, FIRST_FINISHED + a its finished passes, and
// FIRST_UNMET + a how many of its waits are unmet.
pub const COUNTS: usize = 1920;

pub const FIRST_FINISHED: usize = 640;

pub const FIRST_UNMET: usize = 1280;

// The values: the copies, a slot for each item number, and a held word for each item.
pub const VALUES: usize = 3328;

pub const FIRST_SLOT: usize = 2048;

pub const FIRST_HELD: usize = 2688;

// The numbers of a list of all edges that a plan can have, three an edge.
pub const EDGE_WORDS: usize = 12672;

// The results: a word for each region.
pub const RESULTS: usize = 128;

// The bytes of the longest written text.
pub const TEXT_BYTES: usize = 18732;

// The slot that a send or a receive, item a, works on.
pub fn slot_of(kind: u64, a: usize) -> usize
    requires { (kind ≤ 2) × (a < max_items) }
    ensures { (result ≡ slot_of kind a) × (result < value_words) }
{
    FIRST_SLOT + (a + 1) - kind as usize
}
