// Starting an item, behind the door by plan and counts.
ghost use Rattle.std.specs.Prelude.{◌≤◌, ◌<◌, ◌≡◌, length, get_or};
ghost use Rattle.plan.specs.Limits.{max_passes};
ghost use Rattle.plan.specs.Sizes.{count_words, value_words};
ghost use Rattle.steps.specs.Answers.{started, start_of};
ghost use Rattle.values.specs.Items.{Found};
ghost use Rattle.calls.specs.Told.{answer_of, told};
ghost use Rattle.doors.specs.Doors.{Clear};

use graph::items::Items;
use plan::refusal::Refusal;
use plan::state::{Count, FIRST_FINISHED, FIRST_HELD, FIRST_UNMET};
use plan::words::Plan;
use values::places::item_word;

// Item a reads and computes its word, which is held and answered; the start is counted.
fn start_item(plan: &Plan, code: u64, a: usize, counts: &mut [Count], values: &mut [u64]) -> u64
    requires { Found plan.now a code × (count_words ≤ length counts.old) × (value_words ≤ length values.old)
        × (get_or counts.old a 0 < max_passes) }
    ensures { told (record { refusal = 0; word = result }) counts.new values.new
        ≡ started plan.now counts.old values.old a }
{
    let word = item_word(plan, code, a, values);
    values[FIRST_HELD + a] = word;
    counts[a] += 1;
    word
}

// Starts the next pass of an item, or refuses it: 13 there is no such item, 14 it has no pass left,
// 15 it runs, 16 its number of unmet waits is not 0.
pub fn start_clear(
    items: &Items,
    counts: &mut [Count],
    values: &mut [u64],
    item: u64,
) -> Result<u64, Refusal>
    requires { Clear items.now.plan.now counts.old (length items.now.codes.now) × (value_words ≤ length values.old) }
    ensures { told (answer_of result) counts.new values.new ≡ start_of items.now.plan.now counts.old values.old item }
{
    if items.codes.len() as u64 <= item {
        return Err(Refusal::Unknown);
    }
    let a = item as usize;
    let pass = counts[a];
    let done = counts[FIRST_FINISHED + a];
    if items.passes(a) <= done {
        return Err(Refusal::NoPassLeft);
    }
    if pass != done {
        return Err(Refusal::Running);
    }
    if counts[FIRST_UNMET + a] != 0 {
        return Err(Refusal::Waiting);
    }
    Ok(start_item(items.plan, u64::from(items.codes[a]), a, counts, values))
}
