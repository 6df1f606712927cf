// The targets of all items, where those of each start, and how many sources each item has, by one
// walk from each item.
ghost use Rattle.std.specs.Prelude.{◌+◌, ◌≤◌, ◌<◌, ◌≡◌, [], ◌∷◌, length, get_or, set, replicate, MatchOption};
ghost use Rattle.finite.specs.Below.{any_below};
ghost use Rattle.finite.specs.Put.{Added, RoomAt};
ghost use Rattle.plan.specs.Sizes.{max_items, max_edges};
ghost use Rattle.plan.specs.Layout.{body_of};
ghost use Rattle.prepared.specs.Tables.{leads, targets_of};
ghost use Rattle.tables.specs.Targets.{is_marked, row_of, Passed, Countable, RowPut, TargetsMade};

use graph::items::Items;
use plan::state::MAX_ITEMS;
use walk::rows::mark_row;

// All targets that a plan can have.
pub(crate) const TARGETS: usize = 4224;

// A start for each item, and one behind the last.
pub(crate) const STARTS: usize = 641;

// Items that are looked at together.
const BLOCK: usize = 16;

// Puts the target b at an offset, and counts a source of it. Answers the offset behind.
fn put_target(targets: &mut [u16], at: usize, b: usize, sources: &mut [u16]) -> usize
    requires { RoomAt (b ∷ []) at targets.old × (b < max_items) × (b < length sources.old) × (get_or sources.old b 0 ≤ max_items) }
    ensures { Added (b ∷ []) at targets.old result targets.new
        × (sources.new ≡ set sources.old b (get_or sources.old b 0 + 1)) }
{
    targets[at] = b as u16;
    sources[b] += 1;
    at + 1
}

// Whether one of a block of items from b on is marked.
fn any_marked(marks: &[u8; MAX_ITEMS], b: usize) -> bool
    requires { b + 16 ≤ max_items }
    ensures { result ≡ any_below 16 (λ k. is_marked marks.now (b + k)) }
{
    let mut found = false;
    for k in 0..BLOCK {
        found |= marks[b + k] == 1;
    }
    found
}

// Passes blocks of items from b on that have none marked.
fn skip_blocks(marks: &[u8; MAX_ITEMS], b: usize, n: usize) -> usize
    requires { (b ≤ n) × (n ≤ max_items) }
    ensures { Passed marks.now b n result }
{
    let mut at = b;
    // an index: it skips blocks and stops at the first with a mark, for speed
    while at + BLOCK <= n && !any_marked(marks, at) {
        at += BLOCK;
    }
    at
}

// The first item from b on that is marked, of n.
fn next_marked(marks: &[u8; MAX_ITEMS], b: usize, n: usize) -> Option<usize>
    requires { (b ≤ n) × (n ≤ max_items) }
    ensures { MatchOption result
        (Passed marks.now b n n)
        (λ r. Passed marks.now b n r × (r < n) × (get_or marks.now r 0 ≡ 1)) }
{
    for at in skip_blocks(marks, b, n)..n {
        if marks[at] == 1 {
            return Some(at);
        }
    }
    None
}

// Puts the items that are marked, and counts a source of each.
fn put_row(
    targets: &mut [u16],
    at: usize,
    marks: &[u8; MAX_ITEMS],
    n: usize,
    sources: &mut [u16],
) -> usize
    requires { RoomAt (row_of marks.now n) at targets.old × (n ≤ max_items) × Countable sources.old }
    ensures { RowPut (row_of marks.now n) (is_marked marks.now) n at
        targets.old sources.old result targets.new sources.new }
{
    let mut end = at;
    let mut passed: usize = 0;
    while let Some(b) = next_marked(marks, passed, n) {
        end = put_target(targets, end, b, sources);
        passed = b + 1;
    }
    end
}

// Puts the targets of item a, and counts it as a source of each. Its edge to itself is left out.
fn put_from(items: &Items, a: usize, targets: &mut [u16], at: usize, sources: &mut [u16]) -> usize
    requires { (a < length items.now.codes.now) × RoomAt (targets_of (body_of items.now.plan.now) a) at targets.old × Countable sources.old }
    ensures { RowPut (targets_of (body_of items.now.plan.now) a) (leads (body_of items.now.plan.now) a) (length items.now.codes.now) at
        targets.old sources.old result targets.new sources.new }
{
    let mut marks = [0u8; MAX_ITEMS];
    mark_row(items, a, false, &mut marks);
    marks[a] = 0;
    put_row(targets, at, &marks, items.codes.len(), sources)
}

// Puts all targets, their starts, and counts the sources. Answers how many targets there are.
pub(crate) fn list_targets(
    items: &Items,
    targets: &mut [u16],
    starts: &mut [u16],
    sources: &mut [u16],
) -> usize
    requires { (length targets.old ≡ max_edges) × (length starts.old ≡ max_items + 1)
        × (sources.old ≡ replicate max_items 0) }
    ensures { TargetsMade (body_of items.now.plan.now) (length items.now.codes.now) result targets.new starts.new sources.new }
{
    let mut at: usize = 0;
    let n = items.codes.len();
    for a in 0..n {
        starts[a] = at as u16;
        at = put_from(items, a, targets, at, sources);
    }
    starts[n] = at as u16;
    at
}
