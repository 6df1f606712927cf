// The set of the items that are ready when a run begins.
ghost use Rattle.std.specs.Prelude.{◌≤◌, ◌<◌, ◌≡◌, length, replicate};
ghost use Rattle.plan.specs.Layout.{body_of};
ghost use Rattle.plan.specs.Sizes.{max_items, count_words};
ghost use Rattle.masks.specs.Masks.{mask_words};
ghost use Rattle.steps.specs.Turns.{is_ready};
ghost use Rattle.runs.specs.Turns.{ReadyBut};

use graph::items::Items;
use masks::insert;
use plan::state::{Count, FIRST_FINISHED, FIRST_UNMET};

// Whether item b, which does not run, may start.
fn is_ready(items: &Items, counts: &[Count], b: usize) -> bool
    requires { (count_words ≤ length counts.now) × (b < length items.now.codes.now) }
    ensures { result ≡ is_ready (body_of items.now.plan.now) counts.now b }
{
    (counts[FIRST_FINISHED + b] < items.passes(b)) & (counts[FIRST_UNMET + b] == 0)
}

// Puts each item that is ready into an empty set.
pub(crate) fn put_ready(items: &Items, counts: &[Count], words: &mut [u64])
    requires { (count_words ≤ length counts.now) × (words.old ≡ replicate mask_words 0) }
    ensures { ReadyBut items.now.plan.now counts.now max_items words.new }
{
    for b in 0..items.codes.len() {
        if is_ready(items, counts, b) {
            insert(words, b);
        }
    }
}
