// The numbers of unmet waits at an opening, in one pass over the items. An item waits for the last
// writer of each place that it touches. One that writes a place also waits for the readers since
// then, and a receive for its send. An item found at two places is counted once. The definitions
// stand in specs/Sources.antt.
#![tactic(auto)]

ghost use Rattle.std.specs.Prelude.{ℕ, ◌+◌, ◌-◌, ◌*◌, ◌≤◌, ◌<◌, ◌≡◌, ◌&&◌, eqb, ltb, leb, length, get_or};
ghost use Rattle.finite.specs.Below.{count_below};
ghost use Rattle.finite.specs.Update.{replaced};
ghost use Rattle.body.specs.Items.{task, item_count};
ghost use Rattle.edges.specs.Touch.{touch};
ghost use Rattle.plan.specs.Limits.{max_ranks};
ghost use Rattle.plan.specs.Sizes.{max_items, count_words, first_unmet};
ghost use Rattle.plan.specs.Layout.{body_of};
ghost use Rattle.graph.specs.Table.{Task};
ghost use Rattle.steps.specs.Answers.{open_count};
ghost use Rattle.open_waits.specs.Sources.{max_places, max_events, on_chain, is_source, Links, Kept, Counted, Joined, Placed, Touched, ItemsPassed};

use graph::items::Items;
use plan::code::{RECEIVE, TASK, item_kind, item_rank, item_subject};
use plan::layout::{access_region, writes_region};
use plan::state::{Count, FIRST_UNMET, MAX_ITEMS};
use plan::words::Plan;

// Places of a rank, and of all; events of an item, and of all.
const RANK_PLACES: usize = 128;

const PLACES: usize = 2048;

const ITEM_EVENTS: usize = 8;

const EVENTS: usize = 5120;

// Marks item b, and counts it unless it is marked.
fn mark_item(seen: &mut [u16], mark: u16, b: usize, number: Count) -> Count
    requires { Counted mark seen.old number × (b < max_items) }
    ensures { Counted mark seen.new result × Joined mark (λ c. eqb c b) seen.old seen.new }
{
    if seen[b] == mark {
        return number;
    }
    seen[b] = mark;
    number + 1
}

// Marks and counts the items on the chain from a link on.
fn mark_chain(nexts: &[u16], link: usize, seen: &mut [u16], mark: u16, number: Count) -> Count
    requires { (length nexts.now ≡ max_events) × ((e : ℕ) → get_or nexts.now e 0 ≤ e) × (link ≤ max_events) × Counted mark seen.old number }
    ensures { Counted mark seen.new result × Joined mark (on_chain nexts.now link) seen.old seen.new }
{
    let mut sum = number;
    let mut left = link;
    while left > 0 {
        let e = left - 1;
        sum = mark_item(seen, mark, e / ITEM_EVENTS, sum);
        left = usize::from(nexts[e]);
    }
    sum
}

// Event e touches place x. Its item waits for the last writer, or if it writes for all that have
// touched the place since then, the writer too.
fn touch_place(
    x: usize,
    e: usize,
    writes: bool,
    heads: &mut [u16],
    writers: &mut [u16],
    nexts: &mut [u16],
    seen: &mut [u16],
    mark: u16,
    number: Count,
) -> Count
    requires { Links e heads.old writers.old nexts.old × (x < max_places) × (e < max_events) × Counted mark seen.old number }
    ensures { Placed x e mark writes heads.old heads.new writers.old writers.new nexts.old nexts.new
        seen.old seen.new result }
{
    let link = (e + 1) as u16;
    if writes {
        let sum = mark_chain(nexts, usize::from(heads[x]), seen, mark, number);
        nexts[e] = 0;
        heads[x] = link;
        writers[x] = link;
        return sum;
    }
    let sum = mark_chain(nexts, usize::from(writers[x]), seen, mark, number);
    nexts[e] = heads[x];
    heads[x] = link;
    sum
}

// Task i, which is item a on rank q, touches its places.
fn touch_task(
    plan: &Plan,
    i: usize,
    a: usize,
    q: usize,
    heads: &mut [u16],
    writers: &mut [u16],
    nexts: &mut [u16],
    seen: &mut [u16],
    mark: u16,
    number: Count,
) -> Count
    requires { Task plan.now i × (a < max_items) × (q < max_ranks) × Kept (body_of plan.now) a (λ x. 0) (8 * a) heads.old writers.old nexts.old × Counted mark seen.old number }
    ensures { Touched (body_of plan.now) a q (touch (body_of plan.now) (task i)) (8 * (a + 1)) mark heads.new writers.new nexts.new seen.old seen.new result }
{
    let count = plan.access_count(i);
    let mut sum = number;
    for k in 0..count {
        let access = plan.access(i, k);
        sum = touch_place(
            RANK_PLACES * q + access_region(access),
            ITEM_EVENTS * a + k,
            writes_region(access),
            heads,
            writers,
            nexts,
            seen,
            mark,
            sum,
        );
    }
    sum
}

// Marks and counts the send of a receive, item a.
fn mark_send(kind: u64, a: usize, seen: &mut [u16], mark: u16) -> Count
    requires { Counted mark seen.old 0 × (a < max_items) × (kind ≡ 2 → 1 ≤ a) }
    ensures { Counted mark seen.new result × Joined mark (λ b. eqb kind 2 && eqb b (a - 1)) seen.old seen.new }
{
    if kind == RECEIVE {
        return mark_item(seen, mark, a - 1, 0);
    }
    0
}

// Item a touches its places. Answers how many items before it have an edge to it.
fn count_sources(
    items: &Items,
    a: usize,
    heads: &mut [u16],
    writers: &mut [u16],
    nexts: &mut [u16],
    seen: &mut [u16],
) -> Count
    requires { (a < length items.now.codes.now) × ItemsPassed (body_of items.now.plan.now) a heads.old writers.old nexts.old seen.old }
    ensures { (result ≡ count_below (item_count (body_of items.now.plan.now)) (is_source (body_of items.now.plan.now) a))
        × ItemsPassed (body_of items.now.plan.now) (a + 1) heads.new writers.new nexts.new seen.new }
{
    let code = u64::from(items.codes[a]);
    let kind = item_kind(code);
    let subject = item_subject(code);
    let q = item_rank(code) as usize;
    let mark = (a + 1) as u16;
    let sent = mark_send(kind, a, seen, mark);
    if kind == TASK {
        return touch_task(
            items.plan, subject, a, q, heads, writers, nexts, seen, mark, sent,
        );
    }
    touch_place(
        RANK_PLACES * q + subject,
        ITEM_EVENTS * a,
        kind == RECEIVE,
        heads,
        writers,
        nexts,
        seen,
        mark,
        sent,
    )
}

// The numbers of unmet waits at the opening: of each item how many sources it has, 0 if it has no
// pass.
pub fn open_numbers(items: &Items, counts: &mut [Count])
    requires { count_words ≤ length counts.old }
    ensures { counts.new ≡ replaced (λ i. leb first_unmet i && ltb i (first_unmet + length items.now.codes.now)) (open_count (body_of items.now.plan.now)) counts.old }
{
    let mut heads = [0u16; PLACES];
    let mut writers = [0u16; PLACES];
    let mut nexts = [0u16; EVENTS];
    let mut seen = [0u16; MAX_ITEMS];
    for a in 0..items.codes.len() {
        let sources = count_sources(items, a, &mut heads, &mut writers, &mut nexts, &mut seen);
        counts[FIRST_UNMET + a] = if 0 < items.passes(a) { sources } else { 0 };
    }
}
