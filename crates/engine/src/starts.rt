// Starting an item: the word that it computes, which it then holds.
ghost use Rattle.std.specs.Prelude.{ℕ, suc, ◌+◌, ◌≤◌, ◌<◌, ◌≡◌, cond, List, map, eqb, length, get_or, set, take};
ghost use Rattle.plan.specs.Limits.{max_passes, max_accesses};
ghost use Rattle.plan.specs.Sizes.{max_items, count_words, value_words, first_held};
ghost use Rattle.plan.specs.Code.{code_kind, code_subject};
ghost use Rattle.graph.specs.Answers.{plan_body};
ghost use Rattle.prepared.specs.Tables.{prepared_words, first_read, places_in};
ghost use Rattle.prepared.specs.Steps.{word_in, started_in};
ghost use Rattle.engine.specs.Usable.{Row, Startable};

use plan::code::{TASK, item_kind, item_subject};
use plan::state::{Count, FIRST_HELD};
use plan::words::Plan;
use prepared::{FIRST_CODE, FIRST_READ, ROW, ROW_COUNT};

// Puts the words that item a reads to the front of `words`, and answers how many they are.
fn gather_words(tables: &[u16], a: usize, values: &[u64], words: &mut [u64]) -> usize
    requires { (prepared_words ≤ length tables.now) × (a < max_items) × Row tables.now first_read a × (value_words ≤ length values.now)
        × (length words.old ≡ max_accesses) }
    ensures { (take result words.new ≡ map (λ x. get_or values.now x 0) (places_in tables.now first_read a))
        × (result ≤ max_accesses) × (length words.new ≡ max_accesses) }
{
    let row = FIRST_READ + ROW * a;
    let count = usize::from(tables[row + ROW_COUNT]);
    for k in 0..count {
        words[k] = values[usize::from(tables[row + k])];
    }
    count
}

// The word of an item with this number in the item table, by the words that it reads.
fn word_from(plan: &Plan, code: u64, words: &[u64]) -> u64
    ensures { result ≡ cond (eqb (code_kind code) 0) ((plan_body plan.now).compute (code_subject code) words.now) (get_or words.now 0 0) }
{
    if item_kind(code) == TASK {
        let i = item_subject(code);
        return kernels::kernel_word(plan.kernel(i), plan.constant(i), words);
    }
    if words.is_empty() { 0 } else { words[0] }
}

// The word that item a computes. `words` is room for what it reads.
pub fn item_word(plan: &Plan, tables: &[u16], a: usize, values: &[u64], words: &mut [u64]) -> u64
    requires { (prepared_words ≤ length tables.now) × (a < max_items) × Row tables.now first_read a
        × (value_words ≤ length values.now) × (length words.old ≡ max_accesses) }
    ensures { ((counts : List ℕ) → result ≡ word_in plan.now tables.now counts values.now a)
        × (length words.new ≡ max_accesses) }
{
    let count = gather_words(tables, a, values, words);
    word_from(plan, u64::from(tables[FIRST_CODE + a]), &words[..count])
}

// Counts a start of item a, which then holds this word.
pub fn hold_word(a: usize, counts: &mut [Count], values: &mut [u64], word: u64)
    requires { (a < max_items) × (count_words ≤ length counts.old) × (value_words ≤ length values.old) × (get_or counts.old a 0 < max_passes) }
    ensures { (counts.new ≡ set counts.old a (suc (get_or counts.old a 0)))
        × (values.new ≡ set values.old (first_held + a) word) }
{
    counts[a] += 1;
    values[FIRST_HELD + a] = word;
}

// Item a reads and computes its word, which is held and answered; the start is counted. `words` is
// room for what it reads.
pub fn start_item(
    plan: &Plan,
    tables: &[u16],
    a: usize,
    counts: &mut [Count],
    values: &mut [u64],
    words: &mut [u64],
) -> u64
    requires { Startable tables.now counts.old values.old a × (length words.old ≡ max_accesses) }
    ensures { (record { refusal = 0; word = result; counts = counts.new; values = values.new }
        ≡ started_in plan.now tables.now counts.old values.old a)
        × (length words.new ≡ max_accesses) }
{
    let word = item_word(plan, tables, a, values, words);
    hold_word(a, counts, values, word);
    word
}
