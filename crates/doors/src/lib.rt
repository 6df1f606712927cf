// The two doors. Every call names its slices, goes through one of them, and is refused there, or
// finds the plan's items in a table and gets their number.
#![tactic(auto)]

ghost use Rattle.std.specs.Prelude.{◌+◌, ◌≤◌, ◌≡◌, ◌&&◌, ◌||◌, [], eqb, ltb, leb, length, get_or};
ghost use Rattle.finite.specs.Below.{all_below};
ghost use Rattle.body.specs.Items.{item_passes};
ghost use Rattle.plan.specs.Layout.{plan_words, body_of};
ghost use Rattle.plan.specs.Sizes.{max_items, count_words, value_words, first_finished};
ghost use Rattle.steps.specs.State.{state_of, unmet_by};
ghost use Rattle.steps.specs.Answers.{count_ok};
ghost use Rattle.doors.specs.Doors.{ByPlan, ByState};

pub mod counts;

use crate::counts::{are_complete, are_formed};
use graph::items::Items;
use items::make_table;
use plan::layout::PLAN_WORDS;
use plan::refusal::Refusal;
use plan::state::{COUNTS, Count, VALUES};
use plan::words::Plan;

// Whether a slice of one of these lengths is too short. A call may ask before it makes the table
// that a door fills.
pub fn is_short(plan: usize, counts: usize, values: usize) -> bool
    ensures { result ≡ (ltb plan plan_words || (ltb counts count_words || ltb values value_words)) }
{
    (plan < PLAN_WORDS) | ((counts < COUNTS) | (values < VALUES))
}

// By the plan alone: 11 where it is too short or, as the caller tells, another slice is; 12 where
// it is not in form. Else the table gets its items.
pub fn enter_plan(plan: &[u64], long: bool, table: &mut [u16]) -> Result<usize, Refusal>
    requires { length table.old ≡ max_items }
    ensures { ByPlan plan.now long table.old result table.new }
{
    if (plan.len() < PLAN_WORDS) | !long {
        return Err(Refusal::TooShort);
    }
    let plan = Plan::new(&plan[..PLAN_WORDS]);
    make_table(&plan, table).ok_or(Refusal::OutOfForm)
}

// Whether the counts of all items of a plan are in form.
fn is_formed(items: &Items, counts: &[Count]) -> bool
    requires { count_words ≤ length counts.now }
    ensures { result ≡ (all_below (length items.now.codes.now)
        (λ a. count_ok (item_passes (body_of items.now.plan.now) a) (state_of counts.now []) a)
        && all_below (length items.now.codes.now) (λ a. leb (unmet_by counts.now a) (length items.now.codes.now))) }
{
    are_formed(counts, items.codes, items.plan.passes(), items.codes.len())
}

// Whether all items of a plan have finished the passes that they have.
pub fn is_complete(items: &Items, counts: &[Count]) -> bool
    requires { count_words ≤ length counts.now }
    ensures { result ≡ all_below (length items.now.codes.now)
        (λ a. eqb (get_or counts.now (first_finished + a) 0) (item_passes (body_of items.now.plan.now) a)) }
{
    are_complete(counts, items.codes, items.plan.passes(), items.codes.len())
}

// By the plan and the counts: 11 and 12 as before, and 12 where the counts of an item or its number
// of unmet waits are not in form; the table then has the items.
pub fn enter_state(
    plan: &[u64],
    counts: &[Count],
    long: bool,
    table: &mut [u16],
) -> Result<usize, Refusal>
    requires { length table.old ≡ max_items }
    ensures { ByState plan.now counts.now long table.old result table.new }
{
    let n = enter_plan(plan, (COUNTS <= counts.len()) & long, table)?;
    let plan = Plan::new(&plan[..PLAN_WORDS]);
    let items = Items::new(&plan, table, n);
    if !is_formed(&items, counts) {
        return Err(Refusal::OutOfForm);
    }
    Ok(n)
}
