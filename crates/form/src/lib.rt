// Whether the words of a plan are in form (plan/specs/Form.antt), and the ranks that want what its
// accesses write. Nothing here changes a plan.
#![tactic(auto)]

ghost use Rattle.std.specs.Prelude.{◌≡◌, length, replicate, if◌then◌else◌};
ghost use Rattle.plan.specs.Layout.{plan_words};
ghost use Rattle.plan.specs.Form.{in_form, words_ok};
ghost use Rattle.transfers.specs.Wanted.{plan_masks, wanted_masks, wrapped_masks};

mod words;

use plan::limits::MAX_TRANSFERS;
use plan::words::Plan;
use transfers::{find_transfers, transfer_count};

// Whether reading leaves these words for some text. The transfers are looked for only where the
// changes of rank do not show that they are few enough.
pub fn in_form(words: &[u64]) -> bool
    requires { length words.now ≡ plan_words }
    ensures { result ≡ in_form words.now }
{
    let plan = Plan::new(words);
    match words::words_ok(&plan) {
        Some(changes) => changes <= MAX_TRANSFERS || transfer_count(&plan) <= MAX_TRANSFERS,
        None => false,
    }
}

// Whether the words are in form. Puts the masks of their transfers, and those of the wrapped ones,
// where there are zeros, also where the transfers are too many; where the words fail otherwise, the
// zeros stay.
pub fn find_masks(plan: &Plan, masks: &mut [u16], wrapped: &mut [u16]) -> bool
    requires { (length plan.now ≡ plan_words) × (masks.old ≡ replicate plan_masks 0) × (wrapped.old ≡ replicate plan_masks 0) }
    ensures { (result ≡ in_form plan.now)
        × (masks.new ≡ (if words_ok plan.now then wanted_masks plan.now else masks.old))
        × (wrapped.new ≡ (if words_ok plan.now then wrapped_masks plan.now else wrapped.old)) }
{
    match words::words_ok(plan) {
        Some(_) => find_transfers(plan, masks, wrapped) <= MAX_TRANSFERS,
        None => false,
    }
}
