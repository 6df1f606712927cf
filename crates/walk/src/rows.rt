// The edges of one item. A place is a region's copy on the item's rank. At first the places that
// the item touches are open. The other items are passed once round the loop, onwards or back. One
// that shares an open place is marked if one of the two writes it, and closes what it writes.
ghost use Rattle.std.specs.Prelude.{◌+◌, ◌≤◌, ◌<◌, ◌≡◌, true, false, cond, not, ◌||◌, eqb, length, set, replicate};
ghost use Rattle.body.specs.Items.{task, item_at};
ghost use Rattle.edges.specs.Touch.{touch, touch_on};
ghost use Rattle.plan.specs.Limits.{max_regions};
ghost use Rattle.plan.specs.Sizes.{max_items};
ghost use Rattle.plan.specs.Layout.{writes, body_of};
ghost use Rattle.graph.specs.Table.{Task};
ghost use Rattle.walk.specs.Rows.{Places, any_open, Touches, Meets, Passes, item_passed, CopyMarks, Marks, partner_of};

use graph::items::Items;
use plan::code::{RECEIVE, SEND, TASK, item_kind, item_rank, item_subject};
use plan::layout::{access_region, put_if, writes_region};
use plan::words::Plan;

// A place for each region.
const PLACES: usize = 128;

// How an access touches its region: 1 it reads it, 2 it writes it.
fn touch_of(access: u64) -> u64
    ensures { (result ≡ cond (writes access) 2 1) × (result ≤ 2) }
{
    if writes_region(access) { 2 } else { 1 }
}

// The places are met at region g alone.
fn meet_place(places: &mut [u8], g: usize, touch: u64) -> bool
    requires { Places places.old × (g < max_regions) × (touch ≤ 2) }
    ensures { Meets (λ h. cond (eqb h g) touch 0) places.old places.new result }
{
    let own = u64::from(places[g]);
    put_if(places, g, 0, touch == 2);
    3 <= own + touch
}

// The places are met by task i.
fn meet_task(plan: &Plan, i: usize, places: &mut [u8]) -> bool
    requires { Task plan.now i × Places places.old }
    ensures { Meets (touch (body_of plan.now) (task i)) places.old places.new result }
{
    let count = plan.access_count(i);
    let mut hit = false;
    for a in 0..count {
        let access = plan.access(i, a);
        let met = meet_place(places, access_region(access), touch_of(access));
        hit |= met;
    }
    hit
}

// The places of rank q are met by item b.
fn meet_item(items: &Items, b: usize, q: u64, places: &mut [u8]) -> bool
    requires { (b < length items.now.codes.now) × Places places.old }
    ensures { Meets (touch_on (body_of items.now.plan.now) q b) places.old places.new result }
{
    let code = u64::from(items.codes[b]);
    if item_rank(code) != q {
        return false;
    }
    let kind = item_kind(code);
    let subject = item_subject(code);
    if kind == TASK {
        meet_task(items.plan, subject, places)
    } else {
        meet_place(places, subject, kind)
    }
}

// Notes the places that task i touches.
fn note_task(plan: &Plan, i: usize, places: &mut [u8])
    requires { Task plan.now i × (places.old ≡ replicate max_regions 0) }
    ensures { Touches (touch (body_of plan.now) (task i)) places.new }
{
    let count = plan.access_count(i);
    for a in 0..count {
        let access = plan.access(i, a);
        places[access_region(access)] = touch_of(access) as u8;
    }
}

// Notes the places that item a touches.
fn note_item(items: &Items, a: usize, places: &mut [u8])
    requires { (a < length items.now.codes.now) × (places.old ≡ replicate max_regions 0) }
    ensures { Touches (touch (body_of items.now.plan.now) (item_at (body_of items.now.plan.now) a)) places.new }
{
    let code = u64::from(items.codes[a]);
    let kind = item_kind(code);
    let subject = item_subject(code);
    if kind == TASK {
        note_task(items.plan, subject, places);
    } else {
        places[subject] = kind as u8;
    }
}

// The item that is passed k-th, of `count` from lo on.
fn item_passed(lo: usize, count: usize, k: usize, back: bool) -> usize
    requires { (k < count) × (lo + count ≤ max_items) }
    ensures { result ≡ item_passed lo count k back }
{
    if back {
        return lo + count - (k + 1);
    }
    lo + k
}

// Whether a place is open.
fn any_open(places: &[u8]) -> bool
    requires { length places.now ≡ max_regions }
    ensures { result ≡ any_open places.now }
{
    let mut found = false;
    for &touch in places {
        found |= touch != 0;
    }
    found
}

// Whether a place may be open after an item is passed: only one with an edge closes any.
fn may_be_open(hit: bool, places: &[u8]) -> bool
    requires { length places.now ≡ max_regions }
    ensures { result ≡ (not hit || any_open places.now) }
{
    if !hit {
        return true;
    }
    any_open(places)
}

// Passes `count` items from lo on, as long as a place is open. Inlined, a call knows its direction
// and where the items stand: else listing edges takes up to twice the time.
#[inline(always)]
fn mark_run(
    items: &Items,
    q: u64,
    lo: usize,
    count: usize,
    back: bool,
    places: &mut [u8],
    marks: &mut [u8],
)
    requires { (lo + count ≤ length items.now.codes.now) × Places places.old × (length marks.old ≡ max_items) }
    ensures { Passes (length items.now.codes.now) (touch_on (body_of items.now.plan.now) q) lo count back places.old places.new marks.old marks.new }
{
    let mut left = any_open(places);
    for k in 0..count {
        if !left {
            return;
        }
        let b = item_passed(lo, count, k, back);
        let hit = meet_item(items, b, q, places);
        put_if(marks, b, 1, hit);
        left = may_be_open(hit, places);
    }
}

// Marks the items with an edge by a copy from item a, or if `back` to it.
fn mark_copies(items: &Items, a: usize, back: bool, marks: &mut [u8])
    requires { (a < length items.now.codes.now) × (length marks.old ≡ max_items) }
    ensures { CopyMarks (body_of items.now.plan.now) (length items.now.codes.now) a back marks.old marks.new }
{
    let n = items.codes.len();
    let q = item_rank(u64::from(items.codes[a]));
    let mut places = [0u8; PLACES];
    note_item(items, a, &mut places);
    if back {
        mark_run(items, q, 0, a, true, &mut places, marks);
        mark_run(items, q, a + 1, n - (a + 1), true, &mut places, marks);
        return;
    }
    mark_run(items, q, a + 1, n - (a + 1), false, &mut places, marks);
    mark_run(items, q, 0, a, false, &mut places, marks);
}

// The other item of a transfer, for a task the item itself.
fn partner_of(kind: u64, a: usize) -> usize
    requires { (a < max_items) × (kind ≡ 2 → 1 ≤ a) }
    ensures { result ≡ partner_of kind a }
{
    if kind == SEND {
        return a + 1;
    }
    if kind == RECEIVE {
        return a - 1;
    }
    a
}

// Marks the items with an edge from item a, or if `back` to it: itself, the other item of its
// transfer, and those by copies.
pub fn mark_row(items: &Items, a: usize, back: bool, marks: &mut [u8])
    requires { (a < length items.now.codes.now) × (marks.old ≡ replicate max_items 0) }
    ensures { Marks (body_of items.now.plan.now) (length items.now.codes.now) a back marks.new }
{
    mark_copies(items, a, back, marks);
    marks[a] = 1;
    let kind = item_kind(u64::from(items.codes[a]));
    marks[partner_of(kind, a)] = 1;
}

// Marks the items with an edge from item a, and those with an edge to it.
pub fn mark_edges(items: &Items, a: usize, from: &mut [u8], into: &mut [u8])
    requires { (a < length items.now.codes.now) × (from.old ≡ replicate max_items 0) × (into.old ≡ replicate max_items 0) }
    ensures { Marks (body_of items.now.plan.now) (length items.now.codes.now) a false from.new × Marks (body_of items.now.plan.now) (length items.now.codes.now) a true into.new }
{
    mark_row(items, a, false, from);
    mark_row(items, a, true, into);
}
