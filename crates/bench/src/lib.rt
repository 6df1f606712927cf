// What the benchmarks of bench/ call from C besides the runtime: the in-form test alone.
#![tactic(auto)]

ghost use Rattle.std.specs.Prelude.{◌≡◌, ◌&&◌, leb, length, take};
ghost use Rattle.plan.specs.Layout.{plan_words};
ghost use Rattle.plan.specs.Form.{in_form};

use plan::layout::PLAN_WORDS;

// Whether the slice has the words of a plan, and the first of them are in form.
pub fn bench_in_form(plan: &[u64]) -> bool
    ensures { result ≡ (leb plan_words (length plan.now) && in_form (take plan_words plan.now)) }
{
    if plan.len() < PLAN_WORDS {
        return false;
    }
    form::in_form(&plan[..PLAN_WORDS])
}
