// The item table: for each item its rank, kind, task or region, and whether it has a pass fewer
// than the plan, in one number (graph/specs/Table.antt), put there in the order of the items.
#![tactic(auto)]

ghost use Rattle.std.specs.Prelude.{◌+◌, ◌≤◌, ◌<◌, ◌≡◌, cond, ◌∷◌, [], ◌++◌, Some, None, length, drop};
ghost use Rattle.finite.specs.Lists.{collect};
ghost use Rattle.finite.specs.Put.{Put, Added, RoomAt};
ghost use Rattle.body.specs.Items.{item_count};
ghost use Rattle.plan.specs.Limits.{max_ranks, max_regions, max_tasks, max_accesses};
ghost use Rattle.plan.specs.Sizes.{max_items};
ghost use Rattle.plan.specs.Layout.{plan_words, rank_of, tasks_of, body_of};
ghost use Rattle.plan.specs.Form.{in_form};
ghost use Rattle.graph.specs.Table.{table_of};
ghost use Rattle.items.specs.Codes.{pair_codes, mask_codes, access_codes, task_codes, all_codes, Coded};

use plan::code::{RECEIVE, SEND, TASK, item_code};
use plan::layout::access_region;
use plan::limits::MAX_ACCESSES;
use plan::words::Plan;
use transfers::PLAN_MASKS;

// Puts a number at n, and answers the place behind it.
fn put_item(items: &mut [u16], n: usize, code: u64) -> usize
    requires { RoomAt (code ∷ []) n items.old × (code < 65536) }
    ensures { Added (code ∷ []) n items.old result items.new }
{
    items[n] = code as u16;
    n + 1
}

// A send on a rank and its receive on rank q; `fewer` is 1 if their transfer is wrapped, else 0.
fn put_pair(items: &mut [u16], n: usize, fewer: u64, rank: u64, region: u64, q: u64) -> usize
    requires { RoomAt (pair_codes fewer rank region q) n items.old
        × (fewer ≤ 1) × (rank < max_ranks) × (region < max_regions) × (q < max_ranks) }
    ensures { Added (pair_codes fewer rank region q) n items.old result items.new }
{
    let m = put_item(items, n, item_code(fewer, rank, SEND, region));
    put_item(items, m, item_code(fewer, q, RECEIVE, region))
}

// The pairs of the ranks that a mask has, by rank rising. Those that `wrapped` has too are of
// wrapped transfers.
fn put_mask(items: &mut [u16], n: usize, mask: u64, wrapped: u64, rank: u64, region: u64) -> usize
    requires { RoomAt (mask_codes mask wrapped rank region) n items.old
        × (mask < 65536) × (rank < max_ranks) × (region < max_regions) }
    ensures { Added (mask_codes mask wrapped rank region) n items.old result items.new }
{
    let mut at = n;
    let mut rest = mask;
    while rest != 0 {
        let q = u64::from(rest.trailing_zeros());
        at = put_pair(items, at, (wrapped >> q) % 2, rank, region, q);
        rest = rest & (rest - 1);
    }
    at
}

// A plan, and for each of its accesses the ranks that want what it writes, and those of them to
// which it goes by a wrapped transfer.
#[derive(Clone, Copy)]
struct Wanted<'a> {
    plan: &'a Plan<'a>,
    masks: &'a [u16; PLAN_MASKS],
    wraps: &'a [u16; PLAN_MASKS],
    ghost coded: { Coded plan.now masks.now wraps.now },
}

// The transfers of access a of task i, which is on this rank.
fn put_access(items: &mut [u16], n: usize, from: Wanted, rank: u64, i: usize, a: usize) -> usize
    requires { RoomAt (access_codes from.plan.now from.masks.now from.wraps.now i a) n items.old
        × (i < tasks_of from.plan.now) × (rank ≡ rank_of from.plan.now i) × (a < max_accesses) }
    ensures { Added (access_codes from.entry.plan.now from.entry.masks.now from.entry.wraps.now i a) n items.old result items.new }
{
    let k = MAX_ACCESSES * i + a;
    let mask = u64::from(from.masks[k]);
    if mask == 0 {
        return n;
    }
    let region = access_region(from.plan.access(i, a));
    put_mask(
        items,
        n,
        mask,
        u64::from(from.wraps[k]),
        rank,
        region as u64,
    )
}

// The transfers of task i, by access.
fn put_accesses(items: &mut [u16], n: usize, from: Wanted, i: usize) -> usize
    requires { RoomAt (collect max_accesses (access_codes from.plan.now from.masks.now from.wraps.now i)) n items.old
        × (i < tasks_of from.plan.now) }
    ensures { Added (collect max_accesses (access_codes from.entry.plan.now from.entry.masks.now from.entry.wraps.now i)) n items.old result items.new }
{
    let rank = from.plan.rank(i);
    let mut at = n;
    for a in 0..MAX_ACCESSES {
        at = put_access(items, at, from, rank, i, a);
    }
    at
}

// Task i, and its transfers.
fn put_task(items: &mut [u16], n: usize, from: Wanted, i: usize) -> usize
    requires { RoomAt (task_codes from.plan.now from.masks.now from.wraps.now i) n items.old
        × (i < tasks_of from.plan.now) }
    ensures { Added (task_codes from.entry.plan.now from.entry.masks.now from.entry.wraps.now i) n items.old result items.new }
{
    let at = put_item(items, n, item_code(0, from.plan.rank(i), TASK, i as u64));
    put_accesses(items, at, from, i)
}

// The items of all tasks; answers their number.
fn put_items(items: &mut [u16], from: Wanted) -> usize
    requires { length items.old ≡ max_items }
    ensures { Put (all_codes from.entry.plan.now from.entry.masks.now from.entry.wraps.now (tasks_of from.entry.plan.now)) items.old result items.new }
{
    let tasks = from.plan.tasks();
    let mut at: usize = 0;
    for i in 0..tasks {
        at = put_task(items, at, from, i);
    }
    at
}

// Makes the table of the items of a plan, and answers their number; None where the plan is not in
// form.
pub fn make_table(plan: &Plan, items: &mut [u16]) -> Option<usize>
    requires { (length plan.now ≡ plan_words) × (length items.old ≡ max_items) }
    ensures { (result ≡ cond (in_form plan.now) (Some (item_count (body_of plan.now))) None)
        × (items.new ≡ cond (in_form plan.now)
        (table_of (body_of plan.now) ++ drop (item_count (body_of plan.now)) items.old) items.old) }
{
    let mut masks = [0u16; PLAN_MASKS];
    let mut wraps = [0u16; PLAN_MASKS];
    if !form::find_masks(plan, &mut masks, &mut wraps) {
        return None;
    }
    let wanted = Wanted {
        plan,
        masks: &masks,
        wraps: &wraps,
    };
    Some(put_items(items, wanted))
}
