// What refuses a step by tables: whether the words that it uses lie in their ranges, and its own
// tests. It looks at the numbers of that step's item, and at no other item's.
#![tactic(auto)]

ghost use Rattle.std.specs.Prelude.{ℕ, ◌+◌, ◌-◌, ◌≤◌, ◌<◌, ◌≡◌, ◌&&◌, ltb, leb, length, get_or};
ghost use Rattle.finite.specs.Below.{all_below};
ghost use Rattle.plan.specs.Limits.{max_accesses};
ghost use Rattle.plan.specs.Sizes.{max_items, max_edges, count_words, value_words, first_held};
ghost use Rattle.plan.specs.Code.{code_fewer};
ghost use Rattle.plan.specs.Refusals.{refusal_number};
ghost use Rattle.prepared.specs.Tables.{prepared_words, first_target, items_in, sources_in, start_in, target_count, target_in, place_count, place_in};
ghost use Rattle.prepared.specs.Laws.{Prepared};
ghost use Rattle.ranges.specs.Judged.{start_refusal, finish_refusal};
ghost use Rattle.ranges.specs.Numbers.{lengths_ok, early_refusal, Within, item_in, counted_ok, range_ok, running_ok, start_by, finish_by};

use plan::layout::PLAN_WORDS;
use plan::limits::{MAX_ACCESSES, MAX_PASSES};
use plan::refusal::Refusal;
use plan::state::{COUNTS, Count, FIRST_FINISHED, FIRST_HELD, FIRST_UNMET, VALUES};
use plan::words::Plan;
use prepared::{
    FIRST_CODE, FIRST_READ, FIRST_SOURCE, FIRST_START, FIRST_TARGET, FIRST_WRITE, PREPARED, ROW,
    ROW_COUNT,
};

// All items, and all targets, of a plan.
const MAX_ITEMS: u64 = 640;

const MAX_EDGES: usize = 4224;

// The numbers that a step of an item looks at: the passes of the plan, its own passes, how many
// items the plan has, its counts of passes, and how many of its waits are unmet.
#[derive(Clone, Copy)]
struct Item {
    passes: u64,
    own: u64,
    items: u64,
    started: Count,
    finished: Count,
    unmet: Count,
}

// Whether slices of these lengths are long enough.
fn are_long(plan: usize, tables: usize, counts: usize, values: usize) -> bool
    ensures { result ≡ lengths_ok plan tables counts values }
{
    ((PLAN_WORDS <= plan) & ((COUNTS <= counts) & (VALUES <= values))) & (PREPARED <= tables)
}

// Tests a step before the words of its item are looked at: whether a slice is too short, the items
// are too many, or there is no such item. The other slices have these lengths.
fn early_refusal(
    plan: usize,
    tables: &[u16],
    counts: usize,
    values: usize,
    item: u64,
) -> Result<(), Refusal>
    ensures { (refusal_number result ≡ early_refusal (lengths_ok plan (length tables.now) counts values) (items_in tables.now) item)
        × (refusal_number result ≡ 0 → Within plan tables.now counts item) }
{
    if !are_long(plan, tables.len(), counts, values) {
        return Err(Refusal::TooShort);
    }
    let items = u64::from(tables[0]);
    if items > MAX_ITEMS {
        return Err(Refusal::OutOfForm);
    }
    if item >= items {
        return Err(Refusal::Unknown);
    }
    Ok(())
}

// The passes of an item with this code, of a plan with so many. None below 0.
fn own_of(passes: u64, code: u16) -> u64
    ensures { result ≡ passes - code_fewer code }
{
    let fewer = u64::from(code / 8192);
    if passes < fewer {
        return 0;
    }
    passes - fewer
}

// The numbers of item a.
fn item_of(plan: &Plan, tables: &[u16], counts: &[Count], a: usize) -> Item
    requires { Within (length plan.now) tables.now (length counts.now) a }
    ensures { result ≡ item_in plan.now tables.now counts.now a }
{
    let passes = plan.passes();
    Item {
        passes,
        own: own_of(passes, tables[FIRST_CODE + a]),
        items: u64::from(tables[0]),
        started: counts[a],
        finished: counts[FIRST_FINISHED + a],
        unmet: counts[FIRST_UNMET + a],
    }
}

// Whether an item with so many passes has finished no more, and has started as many as it has
// finished, or one more with a pass left.
fn is_counted(own: u64, started: Count, finished: Count) -> bool
    ensures { result ≡ counted_ok own started finished }
{
    if finished < own {
        return (started == finished) | (started == finished + 1);
    }
    (finished == own) & (started == finished)
}

// Whether the numbers of an item lie in their ranges.
fn is_in_range(x: Item) -> bool
    ensures { result ≡ range_ok x }
{
    (x.passes <= MAX_PASSES) & (is_counted(x.own, x.started, x.finished) & (x.unmet <= x.items))
}

// Tests the start of an item by its numbers: whether they lie in their ranges, a pass is left, it
// does not run, and no wait is unmet. An accepted start passes the first test, which is the
// shortest.
fn start_by(x: Item) -> Result<(), Refusal>
    ensures { refusal_number result ≡ start_by x }
{
    if ((x.unmet == 0) & (x.started == x.finished))
        & ((x.finished < x.own) & (x.passes <= MAX_PASSES))
    {
        return Ok(());
    }
    if !is_in_range(x) {
        return Err(Refusal::OutOfForm);
    }
    if x.finished >= x.own {
        return Err(Refusal::NoPassLeft);
    }
    if x.started == x.finished {
        Err(Refusal::Waiting)
    } else {
        Err(Refusal::Running)
    }
}

// Whether an item runs, and its numbers lie in their ranges.
fn is_running(x: Item) -> bool
    ensures { result ≡ running_ok x }
{
    if x.finished >= x.own {
        return false;
    }
    (x.started == x.finished + 1) & ((x.unmet <= x.items) & (x.passes <= MAX_PASSES))
}

// Tests its finish by its numbers: whether they lie in their ranges, and it runs.
fn finish_by(x: Item) -> Result<(), Refusal>
    ensures { refusal_number result ≡ finish_by x }
{
    if is_running(x) {
        return Ok(());
    }
    if is_in_range(x) {
        Err(Refusal::NotRunning)
    } else {
        Err(Refusal::OutOfForm)
    }
}

// Whether the row of item a in the part from `first` on has room for its places, and they are
// places.
fn are_places(tables: &[u16], first: usize, a: usize) -> bool
    requires { (prepared_words ≤ length tables.now) × (first ≤ 11906) × (a < max_items) }
    ensures { result ≡ (leb (place_count tables.now first a) max_accesses
        && all_below (place_count tables.now first a) (λ k. ltb (place_in tables.now first a k) first_held)) }
{
    let count = usize::from(tables[first + (ROW * a + ROW_COUNT)]);
    if MAX_ACCESSES < count {
        return false;
    }
    for k in 0..count {
        if FIRST_HELD <= usize::from(tables[first + (ROW * a + k)]) {
            return false;
        }
    }
    true
}

// Whether the targets from `from` to `to` are items.
fn are_items(tables: &[u16], from: usize, to: usize, items: usize) -> bool
    requires { (prepared_words ≤ length tables.now) × (from < 65536) × (to ≤ max_edges) }
    ensures { result ≡ all_below (to - from) (λ k. ltb (get_or tables.now (first_target + (from + k)) 0) items) }
{
    for j in from..to {
        if items <= usize::from(tables[FIRST_TARGET + j]) {
            return false;
        }
    }
    true
}

// Whether the items with an edge to item a are fewer than all, and so are its targets, and whether
// they are items.
fn are_targets(tables: &[u16], a: usize, items: usize) -> bool
    requires { (prepared_words ≤ length tables.now) × (a < max_items) × (items ≤ max_items) }
    ensures { result ≡ (ltb (sources_in tables.now a) items
        && (leb (start_in tables.now (a + 1)) max_edges
        && (ltb (target_count tables.now a) items
        && all_below (target_count tables.now a) (λ k. ltb (target_in tables.now a k) items)))) }
{
    if items <= usize::from(tables[FIRST_SOURCE + a]) {
        return false;
    }
    let to = usize::from(tables[FIRST_START + (a + 1)]);
    if MAX_EDGES < to {
        return false;
    }
    let from = usize::from(tables[FIRST_START + a]);
    if from + items <= to {
        return false;
    }
    are_items(tables, from, to, items)
}

// Tests the start of an item; the lent values have this length.
pub fn start_refusal(
    plan: &[u64],
    tables: &[u16],
    counts: &[Count],
    values: usize,
    item: u64,
) -> Result<(), Refusal>
    ensures { refusal_number result ≡ start_refusal plan.now tables.now counts.now values item }
{
    early_refusal(plan.len(), tables, counts.len(), values, item)?;
    let a = item as usize;
    if !are_places(tables, FIRST_READ, a) {
        return Err(Refusal::OutOfForm);
    }
    start_by(item_of(&Plan::new(plan), tables, counts, a))
}

// Tests its finish.
pub fn finish_refusal(
    plan: &[u64],
    tables: &[u16],
    counts: &[Count],
    values: usize,
    item: u64,
) -> Result<(), Refusal>
    ensures { refusal_number result ≡ finish_refusal plan.now tables.now counts.now values item }
{
    early_refusal(plan.len(), tables, counts.len(), values, item)?;
    let a = item as usize;
    if !are_places(tables, FIRST_WRITE, a) {
        return Err(Refusal::OutOfForm);
    }
    if !are_targets(tables, a, usize::from(tables[0])) {
        return Err(Refusal::OutOfForm);
    }
    finish_by(item_of(&Plan::new(plan), tables, counts, a))
}

// Tests the start of an item, where the tables are known to be the plan's and the slices to be long
// enough: rows and targets need no test.
pub fn start_refusal_known(
    plan: &Plan,
    tables: &[u16],
    counts: &[Count],
    item: u64,
) -> Result<(), Refusal>
    requires { Prepared plan.now tables.now × (count_words ≤ length counts.now) }
    ensures { (values : ℕ) → value_words ≤ values → refusal_number result ≡ start_refusal plan.now tables.now counts.now values item }
{
    let _ = plan.words(); // its ensures: a Plan is long enough
    if item >= u64::from(tables[0]) {
        return Err(Refusal::Unknown);
    }
    start_by(item_of(plan, tables, counts, item as usize))
}

// Tests its finish, as above.
pub fn finish_refusal_known(
    plan: &Plan,
    tables: &[u16],
    counts: &[Count],
    item: u64,
) -> Result<(), Refusal>
    requires { Prepared plan.now tables.now × (count_words ≤ length counts.now) }
    ensures { (values : ℕ) → value_words ≤ values → refusal_number result ≡ finish_refusal plan.now tables.now counts.now values item }
{
    let _ = plan.words(); // its ensures: a Plan is long enough
    if item >= u64::from(tables[0]) {
        return Err(Refusal::Unknown);
    }
    finish_by(item_of(plan, tables, counts, item as usize))
}
