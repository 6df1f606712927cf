// Checking a journal: its lines are steps by the tables of a plan, each of which must be accepted,
// a start with the word that it states. What the check answers stands in
// journal/specs/Checking.antt.
#![tactic(auto)]

ghost use Rattle.std.specs.Prelude.{◌+◌, ◌^◌, ◌≤◌, ◌<◌, ◌≡◌, cond, not, length, take};
ghost use Rattle.plan.specs.Layout.{plan_words};
ghost use Rattle.plan.specs.Sizes.{count_words, value_words};
ghost use Rattle.plan.specs.Refusals.{number_of, refusal_number};
ghost use Rattle.graph.specs.Answers.{plan_body};
ghost use Rattle.steps.specs.Calls.{lent};
ghost use Rattle.prepared.specs.Tables.{tables_of};
ghost use Rattle.prepared.specs.Calls.{call_in};
ghost use Rattle.journal.specs.Lines.{start, finish};
ghost use Rattle.journal.specs.Checking.{check_from, told_check};
ghost use Rattle.entries.specs.Said.{said};
ghost use Rattle.checker.specs.Tried.{Known, Tried, Lined};

use doors::is_complete;
use engine::finishes::finish_item;
use engine::starts::{hold_word, item_word};
use entries::{Entry, entry_of};
use graph::Number;
use graph::items::Items;
use plan::limits::MAX_ACCESSES;
use plan::refusal::Refusal;
use plan::state::Count;
use plan::words::Plan;
use prepared::PREPARED;
use ranges::{finish_refusal_known, start_refusal_known};
use tables::make_tables;
use text::line_from;

// Room for the items that a finish makes ready, and their number.
const FREED: usize = 641;

// Starts an item if the start is accepted and this is its word; else it changes nothing.
fn try_start(
    plan: &Plan,
    tables: &[u16],
    counts: &mut [Count],
    values: &mut [u64],
    item: u64,
    word: u64,
) -> bool
    requires { Known plan.now tables.now (lent counts.old values.old) }
    ensures { Tried plan.now tables.now (lent counts.old values.old) (start item word) result
        (lent counts.new values.new) }
{
    if start_refusal_known(plan, tables, counts, item).is_err() {
        return false;
    }
    let a = item as usize;
    let mut room = [0u64; MAX_ACCESSES];
    if item_word(plan, tables, a, values, &mut room) != word {
        return false;
    }
    hold_word(a, counts, values, word);
    true
}

// Finishes an item if the finish is accepted; else it changes nothing.
fn try_finish(
    plan: &Plan,
    tables: &[u16],
    counts: &mut [Count],
    values: &mut [u64],
    item: u64,
) -> bool
    requires { Known plan.now tables.now (lent counts.old values.old) }
    ensures { Tried plan.now tables.now (lent counts.old values.old) (finish item) result
        (lent counts.new values.new) }
{
    if finish_refusal_known(plan, tables, counts, item).is_err() {
        return false;
    }
    let mut freed = [0u16; FREED];
    finish_item(plan, tables, item as usize, counts, values, &mut freed);
    true
}

// What a line answers whose step holds or does not.
fn if_holds(holds: bool) -> Result<(), Refusal>
    ensures { refusal_number result ≡ cond (not holds) 21 0 }
{
    if holds { Ok(()) } else { Err(Refusal::NotHeld) }
}

// Takes the step that a line says, if it says one and the step holds.
fn check_entry(
    plan: &Plan,
    tables: &[u16],
    counts: &mut [Count],
    values: &mut [u64],
    entry: Option<Entry>,
) -> Result<(), Refusal>
    requires { Known plan.now tables.now (lent counts.old values.old) }
    ensures { Lined plan.now tables.now (lent counts.old values.old) (said entry) (refusal_number result)
        (lent counts.new values.new) }
{
    let Some(entry) = entry else {
        return Err(Refusal::NoStep);
    };
    match entry {
        Entry::Start { item, word } => {
            if_holds(try_start(plan, tables, counts, values, item, word))
        }
        Entry::Finish { item } => if_holds(try_finish(plan, tables, counts, values, item)),
    }
}

// A refusal at the line behind those that held.
fn refused_behind(refusal: Refusal, held: u64) -> Number
    requires { held + 1 < 2 ^ 64 }
    ensures { result ≡ record { refusal = number_of refusal; number = held + 1 } }
{
    Number {
        refusal: u64::from(refusal),
        number: held + 1,
    }
}

// Checks the lines of a journal, by the tables of the plan. `plan` is as it was lent, and `items`
// has the words that a plan has.
fn check_lines(
    plan: &Plan,
    items: &Items,
    tables: &[u16],
    counts: &mut [Count],
    values: &mut [u64],
    journal: &[u8],
) -> Number
    requires { Known plan.now tables.now (lent counts.old values.old) × (items.now.plan.now ≡ take plan_words plan.now) }
    ensures { told_check result counts.new values.new
        ≡ check_from (call_in plan.now tables.now) plan.now (lent counts.old values.old) journal.now }
{
    let mut at: usize = 0;
    let mut held: u64 = 0;
    // an offset, not an index: it moves by the size of the line that is read there
    while at < journal.len() {
        let line = line_from(journal, at);
        let size = line.len();
        if size == 0 {
            return refused_behind(Refusal::NoStep, held);
        }
        let entry = entry_of(&line[..size - 1]);
        if let Err(refusal) = check_entry(plan, tables, counts, values, entry) {
            return refused_behind(refusal, held);
        }
        at += size;
        held += 1;
    }
    Number {
        refusal: 0,
        number: u64::from(is_complete(items, counts)),
    }
}

// As `check_lines`, from the lent state, and the tables are made here.
pub fn check_clear(
    plan: &Plan,
    items: &Items,
    counts: &mut [Count],
    values: &mut [u64],
    journal: &[u8],
) -> Number
    requires { (items.now.plan.now ≡ take plan_words plan.now) × (count_words ≤ length counts.old) × (value_words ≤ length values.old) }
    ensures { told_check result counts.new values.new
        ≡ check_from (call_in plan.now (tables_of (plan_body plan.now))) plan.now (lent counts.old values.old) journal.now }
{
    let mut tables = [0u16; PREPARED];
    make_tables(items, &mut tables);
    check_lines(plan, items, &tables, counts, values, journal)
}
