// The items of a plan in form.
ghost use Rattle.std.specs.Prelude.{◌≤◌, ◌<◌, ◌≡◌, length, take};
ghost use Rattle.body.specs.Items.{item_passes};
ghost use Rattle.plan.specs.Layout.{body_of};
ghost use Rattle.graph.specs.Table.{Graph};

use plan::state::{Count, own_passes};
use plan::words::Plan;

// A plan in form, and the number of each of its items in the item table, its code.
#[derive(Clone, Copy)]
pub struct Items<'a> {
    pub plan: &'a Plan<'a>,
    pub codes: &'a [u16],
    pub ghost drawn: { Graph plan.now codes.now (length codes.now) },
}

impl<'a> Items<'a> {
    // A plan with the first n numbers of a table of its items.
    pub fn new(plan: &'a Plan<'a>, table: &'a [u16], n: usize) -> Items<'a>
        requires { Graph plan.now table.now n × (n ≤ length table.now) }
        ensures { (result.plan.now ≡ plan.now) × (result.codes.now ≡ take n table.now) }
    {
        Items {
            plan,
            codes: &table[..n],
        }
    }

    // How many passes item a has.
    pub fn passes(&self, a: usize) -> Count
        requires { a < length self.now.codes.now }
        ensures { result ≡ item_passes (body_of self.now.plan.now) a }
    {
        own_passes(self.plan.passes(), self.codes[a])
    }
}
