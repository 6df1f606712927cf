// The result of a region, behind the door by plan and counts.
ghost use Rattle.std.specs.Prelude.{◌≤◌, ◌≡◌, length};
ghost use Rattle.plan.specs.Sizes.{value_words};
ghost use Rattle.steps.specs.Answers.{result_of};
ghost use Rattle.calls.specs.Told.{answer_of, told};
ghost use Rattle.doors.specs.Doors.{Clear};

use doors::is_complete;
use graph::items::Items;
use plan::refusal::Refusal;
use plan::state::Count;
use values::results::result_word;

// The result of a region, or a refusal: 13 there is no such region, 18 the loop is not complete.
pub fn result_clear(
    items: &Items,
    counts: &[Count],
    values: &[u64],
    region: u64,
) -> Result<u64, Refusal>
    requires { Clear items.now.plan.now counts.now (length items.now.codes.now) × (value_words ≤ length values.now) }
    ensures { told (answer_of result) counts.now values.now ≡ result_of items.now.plan.now counts.now values.now region }
{
    if items.plan.regions() <= region {
        return Err(Refusal::Unknown);
    }
    if !is_complete(items, counts) {
        return Err(Refusal::Incomplete);
    }
    Ok(result_word(items.plan, values, region as usize))
}
