// Crate bench for C: the benchmarks of bench/ link it.
#![tactic(auto)]

ghost use Rattle.std.specs.Prelude.{◌≡◌, ◌&&◌, leb, length, take};
ghost use Rattle.plan.specs.Layout.{plan_words};
ghost use Rattle.plan.specs.Form.{in_form};

// Whether the slice has the words of a plan, and the first of them are in form.
#[unsafe(no_mangle)]
pub extern "C" fn bench_in_form(plan: &[u64]) -> bool
    ensures { result ≡ (leb plan_words (length plan.now) && in_form (take plan_words plan.now)) }
{
    bench::bench_in_form(plan)
}
