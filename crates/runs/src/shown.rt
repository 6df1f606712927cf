// What a run hands out besides: the results.
ghost use Rattle.std.specs.Prelude.{◌≤◌, ◌≡◌, [], ltb, length, get_or};
ghost use Rattle.finite.specs.Update.{replaced};
ghost use Rattle.body.specs.Places.{result_of};
ghost use Rattle.plan.specs.Sizes.{value_words, result_words};
ghost use Rattle.plan.specs.Layout.{body_of, regions_of};
ghost use Rattle.steps.specs.State.{state_of};
ghost use Rattle.values.specs.Items.{Formed};

use plan::words::Plan;
use values::results::result_word;

// The result of each region.
pub fn put_results(plan: &Plan, values: &[u64], results: &mut [u64])
    requires { Formed plan.now × (value_words ≤ length values.now) × (result_words ≤ length results.old) }
    ensures { results.new ≡ replaced (λ g. ltb g (regions_of plan.now)) (result_of (body_of plan.now) (state_of [] values.now)) results.old }
{
    let regions = plan.regions() as usize;
    for g in 0..regions {
        results[g] = result_word(plan, values, g);
    }
}
