// The items whose start is accepted, behind the door by plan and counts.
ghost use Rattle.std.specs.Prelude.{ℕ, ◌≤◌, ◌<◌, ◌≡◌, cond, ◌&&◌, List, [], ◌∷◌, eqb, ltb, length};
ghost use Rattle.finite.specs.Put.{Put, Added, RoomAt};
ghost use Rattle.plan.specs.Sizes.{max_items, value_words};
ghost use Rattle.steps.specs.Ready.{ready_items};
ghost use Rattle.doors.specs.Doors.{Clear};

use graph::items::Items;
use plan::state::{Count, FIRST_FINISHED, FIRST_UNMET};

// Whether an item with so many passes and counts may start: it has a pass left, does not run, and
// has no unmet wait.
fn may_start(own: Count, started: Count, finished: Count, number: Count) -> bool
    ensures { result ≡ (ltb finished own && (eqb started finished && eqb number 0)) }
{
    (finished < own) & ((started == finished) & (number == 0))
}

// Puts item a at an offset where `yes` holds, and answers the offset behind it.
fn put_item(list: &mut [u16], at: usize, a: usize, yes: bool) -> usize
    requires { RoomAt (cond yes (a ∷ []) []) at list.old × (a < max_items) }
    ensures { Added (cond yes (a ∷ []) []) at list.old result list.new }
{
    if !yes {
        return at;
    }
    list[at] = a as u16;
    at + 1
}

// Puts the items whose start is accepted at the front, rising; answers how many they are. What the
// values hold does not matter.
pub fn ready_clear(items: &Items, counts: &[Count], list: &mut [u16]) -> usize
    requires { Clear items.now.plan.now counts.now (length items.now.codes.now) × (max_items ≤ length list.old) }
    ensures { (values : List ℕ) → value_words ≤ length values
        → Put (ready_items items.now.plan.now counts.now values) list.old result list.new }
{
    let mut at: usize = 0;
    for a in 0..items.codes.len() {
        let ready = may_start(
            items.passes(a),
            counts[a],
            counts[FIRST_FINISHED + a],
            counts[FIRST_UNMET + a],
        );
        at = put_item(list, at, a, ready);
    }
    at
}
