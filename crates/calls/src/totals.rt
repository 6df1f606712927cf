// The total of steps, behind the door by the plan.
ghost use Rattle.std.specs.Prelude.{◌≡◌};
ghost use Rattle.body.specs.Items.{total_steps};
ghost use Rattle.plan.specs.Layout.{body_of};

use graph::items::Items;

// Two steps for each pass that each item has.
pub fn total_steps(items: &Items) -> u64
    ensures { result ≡ total_steps (body_of items.now.plan.now) }
{
    let mut steps: u64 = 0;
    for a in 0..items.codes.len() {
        steps += 2 * items.passes(a);
    }
    steps
}
