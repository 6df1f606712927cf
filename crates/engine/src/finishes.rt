// Finishing an item: its word goes to the places that it writes, and the waits that it meets are
// counted.
ghost use Rattle.std.specs.Prelude.{◌+◌, ◌-◌, ◌≤◌, ◌<◌, suc, ◌≡◌, false, cond, ◌&&◌, ◌∷◌, ◌++◌, eqb, ltb, length, set, drop};
ghost use Rattle.finite.specs.Lists.{mem};
ghost use Rattle.finite.specs.Update.{replaced};
ghost use Rattle.plan.specs.Limits.{max_passes};
ghost use Rattle.plan.specs.Sizes.{max_items, count_words, value_words, first_finished, first_unmet};
ghost use Rattle.plan.specs.Code.{code_fewer};
ghost use Rattle.masks.specs.Masks.{mask_words, in_mask, Entered};
ghost use Rattle.steps.specs.State.{done_by, unmet_by};
ghost use Rattle.prepared.specs.Tables.{prepared_words, first_write, code_in, sources_in, target_count, target_in, places_in};
ghost use Rattle.prepared.specs.Steps.{finished_in, freed_by, freed_in};
ghost use Rattle.engine.specs.Usable.{Row, Finishable, Apart};
ghost use Rattle.engine.specs.Freed.{Takes};

use crate::freed::{Freed, FreedList, FreedSet};
use crate::lowering::lower_targets;
use plan::state::{Count, FIRST_FINISHED, FIRST_HELD, FIRST_UNMET};
use plan::words::Plan;
use prepared::{FIRST_CODE, FIRST_SOURCE, FIRST_WRITE, ROW, ROW_COUNT};

// The word goes to the places that item a writes.
fn write_word(tables: &[u16], a: usize, values: &mut [u64], word: u64)
    requires { (prepared_words ≤ length tables.now) × (a < max_items) × Row tables.now first_write a × (value_words ≤ length values.old) }
    ensures { values.new ≡ replaced (λ x. mem x (places_in tables.now first_write a)) (λ x. word) values.old }
{
    let row = FIRST_WRITE + ROW * a;
    let count = usize::from(tables[row + ROW_COUNT]);
    for k in 0..count {
        values[usize::from(tables[row + k])] = word;
    }
}

// Counts a finish of item a, of a plan with so many passes: if it has another pass, its number
// becomes how many items have an edge to it, else 0. Answers whether it is ready again.
fn count_own(tables: &[u16], a: usize, passes: u64, counts: &mut [Count]) -> bool
    requires { (prepared_words ≤ length tables.now) × (a < max_items) × (count_words ≤ length counts.old) × (done_by counts.old a < max_passes) }
    ensures { (counts.new ≡ set (set counts.old (first_unmet + a)
        (cond (ltb (suc (done_by counts.old a)) (passes - code_fewer (code_in tables.now a))) (sources_in tables.now a) 0))
        (first_finished + a) (suc (done_by counts.old a)))
        × (result ≡ (ltb (suc (done_by counts.old a)) (passes - code_fewer (code_in tables.now a)) && eqb (sources_in tables.now a) 0)) }
{
    let done = counts[FIRST_FINISHED + a] + 1;
    let fewer = u64::from(tables[FIRST_CODE + a]) / 8192;
    let sources = u64::from(tables[FIRST_SOURCE + a]);
    let again = done + fewer < passes;
    counts[FIRST_UNMET + a] = if again { sources } else { 0 };
    counts[FIRST_FINISHED + a] = done;
    again & (sources == 0)
}

// Item a, which runs, finishes: the word that it holds goes to the places that it writes, and is
// answered. The items that it makes ready are put.
fn finish_to<F: Freed>(
    plan: &Plan,
    tables: &[u16],
    a: usize,
    counts: &mut [Count],
    values: &mut [u64],
    freed: &mut F,
) -> u64
    requires { Finishable tables.now counts.old values.old a
        × Takes F F.can_put F.puts (target_in tables.now a) (target_count tables.now a) counts.old freed.old
        × ((t : F) → F.puts freed.old (freed_by (target_in tables.now a) (target_count tables.now a) counts.old) t → F.can_put t a) }
    ensures { (record { refusal = 0; word = result; counts = counts.new; values = values.new }
        ≡ finished_in plan.now tables.now counts.old values.old a)
        × F.puts freed.old (freed_in plan.now tables.now counts.old values.old a) freed.new }
{
    let word = values[FIRST_HELD + a];
    write_word(tables, a, values, word);
    lower_targets(tables, a, counts, freed);
    if count_own(tables, a, plan.passes(), counts) {
        freed.put(a);
    }
    word
}

// As `finish_to`: the items are listed, their number first.
pub fn finish_item(
    plan: &Plan,
    tables: &[u16],
    a: usize,
    counts: &mut [Count],
    values: &mut [u64],
    freed: &mut [u16],
) -> u64
    requires { Finishable tables.now counts.old values.old a × (max_items + 1 ≤ length freed.old) }
    ensures { (record { refusal = 0; word = result; counts = counts.new; values = values.new }
        ≡ finished_in plan.now tables.now counts.old values.old a)
        × (freed.new ≡ (length (freed_in plan.now tables.now counts.old values.old a)
        ∷ freed_in plan.now tables.now counts.old values.old a)
        ++ drop (1 + length (freed_in plan.now tables.now counts.old values.old a)) freed.old) }
{
    let mut list = FreedList {
        places: freed,
        at: 1,
    };
    let word = finish_to(plan, tables, a, counts, values, &mut list);
    let count = list.at - 1;
    freed[0] = count as u16;
    word
}

// As `finish_item`, with a set that has neither item a nor an item that waits: the items that it
// makes ready are put into it. Item a has no unmet wait.
pub fn finish_into_set(
    plan: &Plan,
    tables: &[u16],
    a: usize,
    counts: &mut [Count],
    values: &mut [u64],
    words: &mut [u64],
) -> u64
    requires { Finishable tables.now counts.old values.old a × (length words.old ≡ mask_words) × Apart counts.old words.old
        × (in_mask words.old a ≡ false) × (unmet_by counts.old a ≡ 0) }
    ensures { (record { refusal = 0; word = result; counts = counts.new; values = values.new }
        ≡ finished_in plan.now tables.now counts.old values.old a)
        × Entered words.old (λ b. mem b (freed_in plan.now tables.now counts.old values.old a)) words.new }
{
    let mut set = FreedSet { words };
    finish_to(plan, tables, a, counts, values, &mut set)
}
