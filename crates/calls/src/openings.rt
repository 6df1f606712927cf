// Opening, behind the door by the plan.
ghost use Rattle.std.specs.Prelude.{◌≤◌, ◌≡◌, length};
ghost use Rattle.plan.specs.Sizes.{count_words, value_words};
ghost use Rattle.steps.specs.Answers.{open_of};
ghost use Rattle.calls.specs.Told.{told_opening};

use doors::counts::clear_counts;
use graph::items::Items;
use open_waits::open_numbers;
use plan::state::Count;
use values::openings::open_values;

// Every copy to its starting value; passes, slots and held words to 0; the unmet waits are counted.
// Inlined, its arrays would lie on the stack beneath those of the door.
#[inline(never)]
pub fn open_clear(items: &Items, counts: &mut [Count], values: &mut [u64])
    requires { (count_words ≤ length counts.old) × (value_words ≤ length values.old) }
    ensures { told_opening 0 counts.new values.new ≡ open_of items.now.plan.now counts.old values.old }
{
    clear_counts(counts, items.codes.len());
    open_numbers(items, counts);
    open_values(items, values);
}
