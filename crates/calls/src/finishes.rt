// Finishing an item, behind the door by plan and counts.
ghost use Rattle.std.specs.Prelude.{◌+◌, ◌≤◌, ◌<◌, ◌≡◌, [], length, get_or};
ghost use Rattle.finite.specs.Lists.{mem};
ghost use Rattle.finite.specs.Update.{replaced};
ghost use Rattle.body.specs.Places.{system};
ghost use Rattle.plan.specs.Limits.{max_passes};
ghost use Rattle.plan.specs.Sizes.{count_words, value_words, first_held};
ghost use Rattle.plan.specs.Layout.{body_of};
ghost use Rattle.steps.specs.State.{done_by};
ghost use Rattle.steps.specs.Answers.{finished_counts, finish_of};
ghost use Rattle.values.specs.Items.{Found};
ghost use Rattle.calls.specs.Told.{answer_of, told};
ghost use Rattle.doors.specs.Doors.{Clear};

use graph::items::Items;
use plan::refusal::Refusal;
use plan::state::{Count, FIRST_FINISHED, FIRST_HELD, FIRST_UNMET, MAX_ITEMS};
use plan::words::Plan;
use unmet::{count_unmet, lower_waits};
use values::places::write_places;
use walk::rows::mark_edges;

// The word that item a holds goes to the places that it writes, and is answered.
fn write_item(plan: &Plan, code: u64, a: usize, values: &mut [u64]) -> u64
    requires { Found plan.now a code × (value_words ≤ length values.old) }
    ensures { (result ≡ get_or values.old (first_held + a) 0)
        × (values.new ≡ replaced (λ x. mem x ((system (body_of plan.now)).writes a))
        (λ x. get_or values.old (first_held + a) 0) values.old) }
{
    let word = values[FIRST_HELD + a];
    write_places(plan, code, a, values, word);
    word
}

// Counts a finish of item a: one off the numbers of the items whose wait it meets, and its own
// number afresh.
fn count_finish(items: &Items, a: usize, counts: &mut [Count])
    requires { (a < length items.now.codes.now) × (count_words ≤ length counts.old) × (done_by counts.old a < max_passes) }
    ensures { counts.new ≡ finished_counts items.now.plan.now counts.old [] a }
{
    let mut from = [0u8; MAX_ITEMS];
    let mut into = [0u8; MAX_ITEMS];
    mark_edges(items, a, &mut from, &mut into);
    lower_waits(items, &from, a, counts);
    counts[FIRST_FINISHED + a] += 1;
    counts[FIRST_UNMET + a] = count_unmet(items, &into, a, counts);
}

// Finishes the pass of an item that runs, or refuses it: 13 there is no such item, 17 it does not
// run.
pub fn finish_clear(
    items: &Items,
    counts: &mut [Count],
    values: &mut [u64],
    item: u64,
) -> Result<u64, Refusal>
    requires { Clear items.now.plan.now counts.old (length items.now.codes.now) × (value_words ≤ length values.old) }
    ensures { told (answer_of result) counts.new values.new ≡ finish_of items.now.plan.now counts.old values.old item }
{
    if items.codes.len() as u64 <= item {
        return Err(Refusal::Unknown);
    }
    let a = item as usize;
    if counts[a] == counts[FIRST_FINISHED + a] {
        return Err(Refusal::NotRunning);
    }
    count_finish(items, a, counts);
    Ok(write_item(items.plan, u64::from(items.codes[a]), a, values))
}
