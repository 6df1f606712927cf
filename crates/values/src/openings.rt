// Opening the values that a plan uses.
ghost use Rattle.std.specs.Prelude.{◌+◌, ◌-◌, ◌*◌, ◌≤◌, ◌<◌, ◌≡◌, ◌&&◌, ◌||◌, eqb, ltb, leb, length, get_or};
ghost use Rattle.finite.specs.Update.{replaced};
ghost use Rattle.body.specs.Body.{first_slot};
ghost use Rattle.body.specs.Places.{initial};
ghost use Rattle.plan.specs.Sizes.{max_items, value_words, first_held};
ghost use Rattle.plan.specs.Layout.{body_of};
ghost use Rattle.plan.specs.Code.{code_kind};
ghost use Rattle.steps.specs.Answers.{is_copy, is_slot, is_held};
ghost use Rattle.values.specs.Items.{Formed};

use graph::items::Items;
use plan::code::{SEND, item_kind};
use plan::layout::put_if;
use plan::state::{FIRST_HELD, FIRST_SLOT};
use plan::words::Plan;

// How many copies a plan has.
fn copy_count(plan: &Plan) -> usize
    requires { Formed plan.now }
    ensures { (result ≡ (body_of plan.now).ranks * (body_of plan.now).regions) × (result ≤ first_slot) }
{
    (plan.ranks() * plan.regions()) as usize
}

// Every copy to its starting value.
fn set_copies(plan: &Plan, values: &mut [u64])
    requires { Formed plan.now × (value_words ≤ length values.old) }
    ensures { values.new ≡ replaced (is_copy (body_of plan.now)) (initial (body_of plan.now)) values.old }
{
    let count = copy_count(plan);
    let regions = plan.regions() as usize;
    for x in 0..count {
        values[x] = plan.start(x % regions);
    }
}

// The slot of each send among the items with these codes, and the word that each item holds.
fn clear_words(codes: &[u16], values: &mut [u64])
    requires { (length codes.now ≤ max_items) × (value_words ≤ length values.old) }
    ensures { values.new ≡ replaced
        (λ x. (leb first_slot x && (ltb x (first_slot + length codes.now) && eqb (code_kind (get_or codes.now (x - first_slot) 0)) 1)) || (leb first_held x && ltb x (first_held + length codes.now)))
        (λ x. 0) values.old }
{
    for (a, &code) in codes.iter().enumerate() {
        let kind = item_kind(u64::from(code));
        put_if(values, FIRST_SLOT + a, 0, kind == SEND);
        values[FIRST_HELD + a] = 0;
    }
}

// The values that a plan uses.
pub fn open_values(items: &Items, values: &mut [u64])
    requires { value_words ≤ length values.old }
    ensures { values.new ≡ replaced
        (λ x. is_copy (body_of items.now.plan.now) x || (is_slot (body_of items.now.plan.now) x || is_held (body_of items.now.plan.now) x))
        (initial (body_of items.now.plan.now)) values.old }
{
    set_copies(items.plan, values);
    clear_words(items.codes, values);
}
