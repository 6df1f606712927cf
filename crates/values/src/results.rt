// The result of a region.
ghost use Rattle.std.specs.Prelude.{◌+◌, ◌*◌, ◌≤◌, ◌<◌, ◌≡◌, [], length, MatchOption};
ghost use Rattle.std.proofs.Math.Option.{none, some};
ghost use Rattle.finite.specs.Lists.{mem};
ghost use Rattle.body.specs.Body.{first_slot};
ghost use Rattle.body.specs.Transfers.{last_before};
ghost use Rattle.body.specs.Places.{result_of};
ghost use Rattle.plan.specs.Limits.{max_ranks, max_regions};
ghost use Rattle.plan.specs.Sizes.{value_words};
ghost use Rattle.plan.specs.Layout.{body_of, tasks_of, regions_of, writes_of};
ghost use Rattle.steps.specs.State.{state_of};
ghost use Rattle.values.specs.Items.{Formed};

use plan::layout::{access_region, writes_region};
use plan::words::Plan;

// Whether task i writes region g.
fn task_writes(plan: &Plan, i: usize, g: usize) -> bool
    requires { Formed plan.now × (i < tasks_of plan.now) }
    ensures { result ≡ mem g (writes_of plan.now i) }
{
    for k in 0..plan.access_count(i) {
        let access = plan.access(i, k);
        if writes_region(access) && access_region(access) == g {
            return true;
        }
    }
    false
}

// The last task that writes region g, where one does.
fn last_writer(plan: &Plan, g: usize) -> Option<usize>
    requires { Formed plan.now }
    ensures { MatchOption result
        (last_before (body_of plan.now) (tasks_of plan.now) g ≡ none)
        (λ i. last_before (body_of plan.now) (tasks_of plan.now) g ≡ some i) }
{
    for i in (0..plan.tasks()).rev() {
        if task_writes(plan, i, g) {
            return Some(i);
        }
    }
    None
}

// Where the copy of region g on a rank stands.
fn copy_index(rank: u64, regions: u64, g: usize) -> usize
    requires { (rank < max_ranks) × (regions ≤ max_regions) × (g < max_regions) }
    ensures { (result ≡ rank * regions + g) × (result < first_slot) }
{
    (rank * regions) as usize + g
}

// The copy of region g on the rank of its last writer; with no writer or no pass the starting
// value.
pub fn result_word(plan: &Plan, values: &[u64], g: usize) -> u64
    requires { Formed plan.now × (g < regions_of plan.now) × (value_words ≤ length values.now) }
    ensures { result ≡ result_of (body_of plan.now) (state_of [] values.now) g }
{
    match last_writer(plan, g) {
        Some(i) if plan.passes() > 0 => values[copy_index(plan.rank(i), plan.regions(), g)],
        _ => plan.start(g),
    }
}
