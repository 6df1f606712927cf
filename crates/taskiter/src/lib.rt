// The runtime, as a C host calls it: reading, writing, opening, start, finish and result on lent
// slices, lists of these, the items that are ready, the graph besides, steps by the tables of a
// prepared plan, and journals (include/taskiter.h). A call looks at what it is lent, and keeps
// nothing between calls.
#![tactic(auto)]

ghost use Rattle.std.specs.Prelude.{◌≡◌, ◌&&◌, leb, length};
ghost use Rattle.plan.specs.Sizes.{count_words, value_words};
ghost use Rattle.plan.specs.Refusals.{number_of, refusal_number};
ghost use Rattle.reader.specs.Answer.{Reads};
ghost use Rattle.graph.specs.Answers.{ItemsAnswer, EdgesAnswer, TotalAnswer};
ghost use Rattle.steps.specs.Answers.{open_of, start_of, finish_of, result_of};
ghost use Rattle.steps.specs.Calls.{lent, call};
ghost use Rattle.steps.specs.Ready.{ReadyAnswer};
ghost use Rattle.prepared.specs.Tables.{PrepareAnswer};
ghost use Rattle.prepared.specs.Steps.{start_prepared, finish_prepared, FreeingAnswer};
ghost use Rattle.journal.specs.Checking.{check_of, check_more_of, told_check};
ghost use Rattle.writer.specs.Answer.{WriteAnswer};
ghost use Rattle.doors.specs.Doors.{ByPlan};
ghost use Rattle.calls.specs.Told.{answer_of, told, told_opening};
ghost use Rattle.taskiter.specs.Told.{number_told};
ghost use Rattle.taskiter.specs.Played.{call_of, Played};
ghost use Rattle.taskiter.specs.Shown.{Shown};

use calls::Answer;
use calls::drawing::list_edges;
use calls::finishes::finish_clear;
use calls::openings::open_clear;
use calls::ready::ready_clear;
use calls::results::result_clear;
use calls::starts::start_clear;
use calls::totals::total_steps;
use checker::check_clear;
use doors::{enter_plan, enter_state, is_short};
use engine::finishes::finish_item;
use engine::starts::start_item;
use graph::Number;
use graph::items::Items;
use plan::layout::PLAN_WORDS;
use plan::limits::MAX_ACCESSES;
use plan::refusal::Refusal;
use plan::state::{COUNTS, Count, EDGE_WORDS, MAX_ITEMS, RESULTS, VALUES};
use plan::words::Plan;
use prepared::PREPARED;
use ranges::{finish_refusal, start_refusal};
use runs::run_clear;
use runs::shown::put_results;
use tables::make_tables;

// The numbers of a list of freed items: how many they are, and they.
const FREED: usize = 641;

// A number, or a refusal, as C gets it.
fn number(found: Result<u64, Refusal>) -> Number
    ensures { result ≡ number_told found }
{
    match found {
        Ok(number) => Number { refusal: 0, number },
        Err(refusal) => Number {
            refusal: u64::from(refusal),
            number: 0,
        },
    }
}

// Reads a text into a lent plan.
pub fn taskiter_read(text: &[u8], plan: &mut [u64]) -> reader::Answer
    ensures { Reads text.now plan.old result plan.new }
{
    reader::read(text, plan)
}

// The items of a plan: a number for each in the lent table, and how many they are. The number is
// rank × 512 + kind × 128 + task or region, and 8192 more for an item of a wrapped transfer.
pub fn taskiter_items(plan: &[u64], table: &mut [u16]) -> Number
    ensures { ItemsAnswer plan.now table.old result table.new }
{
    number(try_items(plan, table))
}

fn try_items(plan: &[u64], table: &mut [u16]) -> Result<u64, Refusal>
    ensures { ItemsAnswer plan.now table.old (number_told result) table.new }
{
    if table.len() < MAX_ITEMS {
        return Err(Refusal::TooShort);
    }
    let n = enter_plan(plan, true, &mut table[..MAX_ITEMS])?;
    Ok(n as u64)
}

// The edges of a plan: from, to and distance of each in the lent list, and how many they are.
pub fn taskiter_edges(plan: &[u64], list: &mut [u32]) -> Number
    ensures { EdgesAnswer plan.now list.old result list.new }
{
    number(try_edges(plan, list))
}

fn try_edges(plan: &[u64], list: &mut [u32]) -> Result<u64, Refusal>
    ensures { EdgesAnswer plan.now list.old (number_told result) list.new }
{
    let mut table = [0u16; MAX_ITEMS];
    let n = enter_plan(plan, EDGE_WORDS <= list.len(), &mut table)?;
    let plan = Plan::new(&plan[..PLAN_WORDS]);
    let items = Items::new(&plan, &table, n);
    Ok(list_edges(&items, list) as u64)
}

// The number of steps from an opening to the end.
pub fn taskiter_total(plan: &[u64]) -> Number
    ensures { TotalAnswer plan.now result }
{
    number(try_total(plan))
}

fn try_total(plan: &[u64]) -> Result<u64, Refusal>
    ensures { TotalAnswer plan.now (number_told result) }
{
    let mut table = [0u16; MAX_ITEMS];
    let n = enter_plan(plan, true, &mut table)?;
    let plan = Plan::new(&plan[..PLAN_WORDS]);
    Ok(total_steps(&Items::new(&plan, &table, n)))
}

// Writes a lent plan into a lent text; the number is the text's length.
pub fn taskiter_write(plan: &[u64], text: &mut [u8]) -> Number
    ensures { WriteAnswer plan.now text.old result text.new }
{
    writer::write(plan, text)
}

// The version of this interface: TASKITER_VERSION of the header.
pub fn taskiter_version() -> u64
    ensures { result ≡ 6 }
{
    6
}

// Opens a lent state for a plan; answers the refusal, 0 if there is none.
pub fn taskiter_open(plan: &[u64], counts: &mut [Count], values: &mut [u64]) -> u64
    ensures { told_opening result counts.new values.new ≡ open_of plan.now counts.old values.old }
{
    if is_short(plan.len(), counts.len(), values.len()) {
        return u64::from(Refusal::TooShort);
    }
    let mut table = [0u16; MAX_ITEMS];
    match try_open(plan, counts, values, &mut table) {
        Ok(_) => 0,
        Err(refusal) => u64::from(refusal),
    }
}

// The table gets the plan's items; answers their number.
fn try_open(
    plan: &[u64],
    counts: &mut [Count],
    values: &mut [u64],
    table: &mut [u16; MAX_ITEMS],
) -> Result<usize, Refusal>
    ensures { (told_opening (refusal_number result) counts.new values.new ≡ open_of plan.now counts.old values.old)
        × ByPlan plan.now (leb count_words (length counts.old) && leb value_words (length values.old)) table.old result table.new }
{
    let long = (COUNTS <= counts.len()) & (VALUES <= values.len());
    let n = enter_plan(plan, long, table)?;
    let plan = Plan::new(&plan[..PLAN_WORDS]);
    let items = Items::new(&plan, table, n);
    open_clear(&items, counts, values);
    Ok(n)
}

// Starts the next pass of an item: it reads and computes its word, which is answered and held.
pub fn taskiter_start(plan: &[u64], counts: &mut [Count], values: &mut [u64], item: u64) -> Answer
    ensures { told result counts.new values.new ≡ start_of plan.now counts.old values.old item }
{
    Answer::from(try_start(plan, counts, values, item))
}

fn try_start(
    plan: &[u64],
    counts: &mut [Count],
    values: &mut [u64],
    item: u64,
) -> Result<u64, Refusal>
    ensures { told (answer_of result) counts.new values.new ≡ start_of plan.now counts.old values.old item }
{
    if is_short(plan.len(), counts.len(), values.len()) {
        return Err(Refusal::TooShort);
    }
    let mut table = [0u16; MAX_ITEMS];
    let n = enter_state(plan, counts, VALUES <= values.len(), &mut table)?;
    let plan = Plan::new(&plan[..PLAN_WORDS]);
    let items = Items::new(&plan, &table, n);
    start_clear(&items, counts, values, item)
}

// Finishes the pass of an item that runs: the held word goes to the places that the item writes,
// and is answered. The waits that the finish meets are taken off the numbers, and its own are
// counted.
pub fn taskiter_finish(plan: &[u64], counts: &mut [Count], values: &mut [u64], item: u64) -> Answer
    ensures { told result counts.new values.new ≡ finish_of plan.now counts.old values.old item }
{
    Answer::from(try_finish(plan, counts, values, item))
}

fn try_finish(
    plan: &[u64],
    counts: &mut [Count],
    values: &mut [u64],
    item: u64,
) -> Result<u64, Refusal>
    ensures { told (answer_of result) counts.new values.new ≡ finish_of plan.now counts.old values.old item }
{
    if is_short(plan.len(), counts.len(), values.len()) {
        return Err(Refusal::TooShort);
    }
    let mut table = [0u16; MAX_ITEMS];
    let n = enter_state(plan, counts, VALUES <= values.len(), &mut table)?;
    let plan = Plan::new(&plan[..PLAN_WORDS]);
    let items = Items::new(&plan, &table, n);
    finish_clear(&items, counts, values, item)
}

// The result of a region once the loop is complete.
pub fn taskiter_result(plan: &[u64], counts: &[Count], values: &[u64], region: u64) -> Answer
    ensures { told result counts.now values.now ≡ result_of plan.now counts.now values.now region }
{
    Answer::from(try_result(plan, counts, values, region))
}

fn try_result(plan: &[u64], counts: &[Count], values: &[u64], region: u64) -> Result<u64, Refusal>
    ensures { told (answer_of result) counts.now values.now ≡ result_of plan.now counts.now values.now region }
{
    if is_short(plan.len(), counts.len(), values.len()) {
        return Err(Refusal::TooShort);
    }
    let mut table = [0u16; MAX_ITEMS];
    let n = enter_state(plan, counts, VALUES <= values.len(), &mut table)?;
    let plan = Plan::new(&plan[..PLAN_WORDS]);
    let items = Items::new(&plan, &table, n);
    result_clear(&items, counts, values, region)
}

// The items whose start is accepted now: their numbers, rising, in the lent slice, and how many
// they are.
pub fn taskiter_ready(plan: &[u64], counts: &[Count], values: &[u64], items: &mut [u16]) -> Number
    ensures { ReadyAnswer plan.now counts.now values.now items.old result items.new }
{
    number(try_ready(plan, counts, values, items))
}

fn try_ready(
    plan: &[u64],
    counts: &[Count],
    values: &[u64],
    list: &mut [u16],
) -> Result<u64, Refusal>
    ensures { ReadyAnswer plan.now counts.now values.now list.old (number_told result) list.new }
{
    if is_short(plan.len(), counts.len(), values.len()) | (list.len() < MAX_ITEMS) {
        return Err(Refusal::TooShort);
    }
    let mut table = [0u16; MAX_ITEMS];
    let n = enter_state(plan, counts, VALUES <= values.len(), &mut table)?;
    let plan = Plan::new(&plan[..PLAN_WORDS]);
    let items = Items::new(&plan, &table, n);
    Ok(ready_clear(&items, counts, list) as u64)
}

// Fills the tables of a plan in a lent slice, for steps by them; the number is that of its items.
pub fn taskiter_prepare(plan: &[u64], tables: &mut [u16]) -> Number
    ensures { PrepareAnswer plan.now tables.old result tables.new }
{
    number(try_prepare(plan, tables))
}

fn try_prepare(plan: &[u64], tables: &mut [u16]) -> Result<u64, Refusal>
    ensures { PrepareAnswer plan.now tables.old (number_told result) tables.new }
{
    let mut table = [0u16; MAX_ITEMS];
    let n = enter_plan(plan, PREPARED <= tables.len(), &mut table)?;
    let plan = Plan::new(&plan[..PLAN_WORDS]);
    make_tables(&Items::new(&plan, &table, n), tables);
    Ok(n as u64)
}

// Starts the next pass of an item by the tables: it looks at the words of this item alone.
pub fn taskiter_start_prepared(
    plan: &[u64],
    tables: &[u16],
    counts: &mut [Count],
    values: &mut [u64],
    item: u64,
) -> Answer
    ensures { told result counts.new values.new
        ≡ start_prepared plan.now tables.now counts.old values.old item }
{
    Answer::from(try_start_prepared(plan, tables, counts, values, item))
}

fn try_start_prepared(
    plan: &[u64],
    tables: &[u16],
    counts: &mut [Count],
    values: &mut [u64],
    item: u64,
) -> Result<u64, Refusal>
    ensures { told (answer_of result) counts.new values.new
        ≡ start_prepared plan.now tables.now counts.old values.old item }
{
    start_refusal(plan, tables, counts, values.len(), item)?;
    let mut room = [0u64; MAX_ACCESSES];
    let a = item as usize;
    Ok(start_item(&Plan::new(plan), tables, a, counts, values, &mut room))
}

// Finishes the pass of an item that runs by the tables, and lists the items that this makes ready.
pub fn taskiter_finish_freeing(
    plan: &[u64],
    tables: &[u16],
    counts: &mut [Count],
    values: &mut [u64],
    freed: &mut [u16],
    item: u64,
) -> Answer
    ensures { FreeingAnswer plan.now tables.now counts.old values.old freed.old item
        (told result counts.new values.new) freed.new }
{
    Answer::from(try_finish_freeing(plan, tables, counts, values, freed, item))
}

fn try_finish_freeing(
    plan: &[u64],
    tables: &[u16],
    counts: &mut [Count],
    values: &mut [u64],
    freed: &mut [u16],
    item: u64,
) -> Result<u64, Refusal>
    ensures { FreeingAnswer plan.now tables.now counts.old values.old freed.old item
        (told (answer_of result) counts.new values.new) freed.new }
{
    if freed.len() < FREED {
        return Err(Refusal::TooShort);
    }
    finish_refusal(plan, tables, counts, values.len(), item)?;
    let a = item as usize;
    Ok(finish_item(&Plan::new(plan), tables, a, counts, values, freed))
}

// As `taskiter_finish_freeing`, with no list.
pub fn taskiter_finish_prepared(
    plan: &[u64],
    tables: &[u16],
    counts: &mut [Count],
    values: &mut [u64],
    item: u64,
) -> Answer
    ensures { told result counts.new values.new
        ≡ finish_prepared plan.now tables.now counts.old values.old item }
{
    let mut freed = [0u16; FREED];
    taskiter_finish_freeing(plan, tables, counts, values, &mut freed, item)
}

// The call that a word says: 3 × its number, and 0 for a start, 1 for a finish, 2 for a result.
fn play_one(plan: &[u64], counts: &mut [Count], values: &mut [u64], word: u64) -> Answer
    ensures { told result counts.new values.new ≡ call plan.now (lent counts.old values.old) (call_of word) }
{
    let number = word / 3;
    match word % 3 {
        0 => taskiter_start(plan, counts, values, number),
        1 => taskiter_finish(plan, counts, values, number),
        _ => taskiter_result(plan, counts, values, number),
    }
}

// Plays a list of calls, each on the state that the one before left: two words of the answers for
// each, its refusal and its word. Answers 11 where a slice is too short, else 0.
pub fn taskiter_play(
    plan: &[u64],
    counts: &mut [Count],
    values: &mut [u64],
    calls: &[u64],
    answers: &mut [u64],
) -> u64
    ensures { Played plan.now counts.old values.old calls.now answers.old result
        counts.new values.new answers.new }
{
    if is_short(plan.len(), counts.len(), values.len()) | (answers.len() / 2 < calls.len()) {
        return 11;
    }
    for k in 0..calls.len() {
        let answer = play_one(plan, counts, values, calls[k]);
        answers[2 * k] = answer.refusal;
        answers[2 * k + 1] = answer.word;
    }
    0
}

// Opens a lent state for a plan and takes the steps of a journal, one a line. The number is 1 where
// the loop is then complete, else 0; where a line is refused, the line.
pub fn taskiter_check(
    plan: &[u64],
    counts: &mut [Count],
    values: &mut [u64],
    journal: &[u8],
) -> Number
    ensures { told_check result counts.new values.new
        ≡ check_of plan.now counts.old values.old journal.now }
{
    if is_short(plan.len(), counts.len(), values.len()) {
        return number(Err(Refusal::TooShort));
    }
    let mut table = [0u16; MAX_ITEMS];
    match try_open(plan, counts, values, &mut table) {
        Ok(n) => {
            let words = Plan::new(&plan[..PLAN_WORDS]);
            let items = Items::new(&words, &table, n);
            check_clear(&Plan::new(plan), &items, counts, values, journal)
        }
        Err(refusal) => number(Err(refusal)),
    }
}

// As `taskiter_check`, going on from the lent state instead of opening it.
pub fn taskiter_check_more(
    plan: &[u64],
    counts: &mut [Count],
    values: &mut [u64],
    journal: &[u8],
) -> Number
    ensures { told_check result counts.new values.new
        ≡ check_more_of plan.now counts.old values.old journal.now }
{
    if is_short(plan.len(), counts.len(), values.len()) {
        return number(Err(Refusal::TooShort));
    }
    let mut table = [0u16; MAX_ITEMS];
    match enter_state(plan, counts, VALUES <= values.len(), &mut table) {
        Ok(n) => {
            let words = Plan::new(&plan[..PLAN_WORDS]);
            let items = Items::new(&words, &table, n);
            check_clear(&Plan::new(plan), &items, counts, values, journal)
        }
        Err(refusal) => number(Err(refusal)),
    }
}

// What a run answers: refusal 0, and how many items, edges and steps there were; or a refusal, and
// then zeros. (Not a Result: `Shown`, which docs/ names, speaks of the refusal's number.)
#[derive(Clone, Copy)]
pub struct Outcome {
    pub refusal: u64,
    pub items: u64,
    pub edges: u64,
    pub steps: u64,
}

fn no_run(refusal: Refusal) -> Outcome
    ensures { result ≡ record { refusal = number_of refusal; items = 0; edges = 0; steps = 0 } }
{
    Outcome {
        refusal: u64::from(refusal),
        items: 0,
        edges: 0,
        steps: 0,
    }
}

// Opens a lent state for a plan and runs it to its end, in the order of the run program. The plan
// is looked at once: its items, its edges and the results are handed out besides.
pub fn run(
    plan: &[u64],
    table: &mut [u16],
    list: &mut [u32],
    counts: &mut [Count],
    values: &mut [u64],
    results: &mut [u64],
) -> Outcome
    ensures { Shown plan.now table.old list.old counts.old values.old results.old result
        table.new list.new counts.new values.new results.new }
{
    if table.len() < MAX_ITEMS {
        return no_run(Refusal::TooShort);
    }
    let state = (COUNTS <= counts.len()) & (VALUES <= values.len());
    let long = state & ((EDGE_WORDS <= list.len()) & (RESULTS <= results.len()));
    let n = match enter_plan(plan, long, &mut table[..MAX_ITEMS]) {
        Ok(n) => n,
        Err(refusal) => return no_run(refusal),
    };
    let plan = Plan::new(&plan[..PLAN_WORDS]);
    let items = Items::new(&plan, table, n);
    let ended = run_clear(&items, list, counts, values);
    put_results(&plan, values, results);
    Outcome {
        refusal: 0,
        items: n as u64,
        edges: ended.edges as u64,
        steps: ended.steps,
    }
}
