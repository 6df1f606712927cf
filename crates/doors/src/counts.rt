// The counts: whether those of passes and the numbers of unmet waits are in form, and whether the
// loop is complete; the opening of the passes.
ghost use Rattle.std.specs.Prelude.{ℕ, ◌+◌, ◌-◌, ◌≤◌, ◌<◌, ◌≡◌, ◌&&◌, ◌||◌, [], eqb, ltb, leb, length, get_or};
ghost use Rattle.finite.specs.Below.{all_below};
ghost use Rattle.finite.specs.Update.{replaced};
ghost use Rattle.plan.specs.Limits.{max_passes};
ghost use Rattle.plan.specs.Sizes.{max_items, count_words, first_finished};
ghost use Rattle.plan.specs.Code.{code_fewer};
ghost use Rattle.steps.specs.State.{state_of, unmet_by};
ghost use Rattle.steps.specs.Answers.{count_ok};

use plan::state::{Count, FIRST_FINISHED, FIRST_UNMET, TOP_BIT, own_passes, surplus};

// Whether the counts of all n items of a table are in form: no more finished than the item has
// passes, and as many started, or one more with a pass left; and no more unmet waits than items.
// `apart` joins the passes started and not finished, 0 or 1 an item. `beyond` and `above` have
// their top bit clear while no count of passes and no number is too large.
pub fn are_formed(counts: &[Count], table: &[u16], passes: Count, n: usize) -> bool
    requires { (count_words ≤ length counts.now) × (n ≤ length table.now) × (passes ≤ max_passes) × (n ≤ max_items)
        × ((a : ℕ) → a < n → code_fewer (get_or table.now a 0) ≤ 1) }
    ensures { result ≡ (all_below n (λ a. count_ok (passes - code_fewer (get_or table.now a 0)) (state_of counts.now []) a)
        && all_below n (λ a. leb (unmet_by counts.now a) n)) }
{
    let most = n as u64;
    let mut apart: u64 = 0;
    let mut beyond: u64 = 0;
    let mut above: u64 = 0;
    for a in 0..n {
        let own = own_passes(passes, table[a]);
        let started = counts[a];
        let finished = counts[FIRST_FINISHED + a];
        apart = apart | surplus(started, finished);
        beyond = beyond | (finished | surplus(own, started));
        let number = counts[FIRST_UNMET + a];
        above = above | (number | surplus(most, number));
    }
    ((apart < 2) & (beyond < TOP_BIT)) & (above < TOP_BIT)
}

// Whether all n items of a table have finished the passes that they have. `missing` joins the
// differences.
pub fn are_complete(counts: &[Count], table: &[u16], passes: Count, n: usize) -> bool
    requires { (count_words ≤ length counts.now) × (n ≤ length table.now) × (n ≤ max_items)
        × ((a : ℕ) → a < n → code_fewer (get_or table.now a 0) ≤ 1) }
    ensures { result ≡ all_below n (λ a. eqb (get_or counts.now (first_finished + a) 0) (passes - code_fewer (get_or table.now a 0))) }
{
    let mut missing: u64 = 0;
    for a in 0..n {
        let own = own_passes(passes, table[a]);
        missing = missing | surplus(own, counts[FIRST_FINISHED + a]);
    }
    missing < 1
}

// The started and finished passes of each of n items to 0.
pub fn clear_counts(counts: &mut [Count], n: usize)
    requires { (count_words ≤ length counts.old) × (n ≤ max_items) }
    ensures { counts.new ≡ replaced (λ i. ltb i n || (leb first_finished i && ltb i (first_finished + n))) (λ i. 0) counts.old }
{
    for a in 0..n {
        counts[a] = 0;
        counts[FIRST_FINISHED + a] = 0;
    }
}
