// What a finish does to the numbers of unmet waits that stand in the counts: one is taken off those
// of the items whose wait it meets, and the item's own is counted afresh after it. Nothing is
// refused here: a start looks at the numbers (crate calls).
#![tactic(auto)]

ghost use Rattle.std.specs.Prelude.{◌+◌, ◌-◌, ◌≤◌, ◌<◌, ◌≡◌, true, false, cond, ◌&&◌, eqb, ltb, length, set};
ghost use Rattle.body.specs.Places.{system};
ghost use Rattle.edges.specs.Tests.{distance, edge_test};
ghost use Rattle.waits.specs.Waits.{fresh_count};
ghost use Rattle.waits.specs.Stored.{lowered_to};
ghost use Rattle.plan.specs.Limits.{max_passes};
ghost use Rattle.plan.specs.Sizes.{max_items, count_words, first_unmet};
ghost use Rattle.plan.specs.Layout.{body_of};
ghost use Rattle.walk.specs.Rows.{Marks};
ghost use Rattle.steps.specs.State.{done_by, unmet_by};

use graph::items::Items;
use plan::state::{Count, FIRST_FINISHED, FIRST_UNMET, MAX_ITEMS};

// The distance of an edge from item b to item a.
fn distance_of(b: usize, a: usize) -> Count
    ensures { (result ≡ distance b a) × (result ≤ 1) }
{
    Count::from(a <= b)
}

// One less, 0 staying 0.
fn one_less(number: Count) -> Count
    ensures { result ≡ number - 1 }
{
    if number == 0 { 0 } else { number - 1 }
}

// One off the number of item a, which has `own` passes, if it is marked and the pass served is the
// first that it has not finished, and one that it has.
fn lower_number(counts: &mut [Count], a: usize, mark: u8, own: Count, served: Count)
    requires { (count_words ≤ length counts.old) × (a < max_items) }
    ensures { counts.new ≡ cond
        (eqb mark 1 && (eqb (done_by counts.old a) served && ltb (done_by counts.old a) own))
        (set counts.old (first_unmet + a) (unmet_by counts.old a - 1)) counts.old }
{
    if mark != 1 {
        return;
    }
    let done = counts[FIRST_FINISHED + a];
    if (done == served) & (done < own) {
        counts[FIRST_UNMET + a] = one_less(counts[FIRST_UNMET + a]);
    }
}

// Lowers the numbers of the items whose wait a finish of item b meets, before it is counted. The
// marks are those of the edges from b.
pub fn lower_waits(items: &Items, marks: &[u8; MAX_ITEMS], b: usize, counts: &mut [Count])
    requires { Marks (body_of items.now.plan.now) (length items.now.codes.now) b false marks.now × (b < length items.now.codes.now)
        × (count_words ≤ length counts.old) × (done_by counts.old b < max_passes) }
    ensures { counts.new ≡ lowered_to (system (body_of items.now.plan.now)) (edge_test (body_of items.now.plan.now)) first_unmet
        (done_by counts.old) b (length items.now.codes.now) counts.old }
{
    let pass = counts[FIRST_FINISHED + b];
    for a in 0..items.codes.len() {
        let served = pass + distance_of(b, a);
        lower_number(counts, a, marks[a], items.passes(a), served);
    }
}

// 1 if an item that is marked has finished fewer passes than needed, else 0.
fn unmet_of(mark: u8, done: Count, need: Count) -> Count
    ensures { (result ≡ cond (eqb mark 1 && ltb done need) 1 0) × (result ≤ 1) }
{
    Count::from((mark == 1) & (done < need))
}

// Counts the unmet waits of item a for the first pass that it has not finished. The marks are those
// of the edges to a. Every pass that it waits for is made.
pub fn count_unmet(items: &Items, marks: &[u8; MAX_ITEMS], a: usize, counts: &[Count]) -> Count
    requires { Marks (body_of items.now.plan.now) (length items.now.codes.now) a true marks.now × (a < length items.now.codes.now)
        × (count_words ≤ length counts.now) }
    ensures { result ≡ fresh_count (system (body_of items.now.plan.now)) (edge_test (body_of items.now.plan.now)) (done_by counts.now) a }
{
    let pass = counts[FIRST_FINISHED + a];
    if items.passes(a) <= pass {
        return 0;
    }
    let mut count: Count = 0;
    for b in 0..items.codes.len() {
        let need = pass + 1 - distance_of(b, a);
        count += unmet_of(marks[b], counts[FIRST_FINISHED + b], need);
    }
    count
}
