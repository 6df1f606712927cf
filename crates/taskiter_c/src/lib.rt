// The runtime for C: what include/taskiter.h declares. Each function is the one of the crate
// taskiter by the same name, with the same contract.
#![tactic(auto)]

ghost use Rattle.std.specs.Prelude.{◌≡◌};
ghost use Rattle.reader.specs.Answer.{Reads};
ghost use Rattle.graph.specs.Answers.{ItemsAnswer, EdgesAnswer, TotalAnswer};
ghost use Rattle.steps.specs.Answers.{open_of, start_of, finish_of, result_of};
ghost use Rattle.steps.specs.Ready.{ReadyAnswer};
ghost use Rattle.prepared.specs.Tables.{PrepareAnswer};
ghost use Rattle.prepared.specs.Steps.{start_prepared, finish_prepared, FreeingAnswer};
ghost use Rattle.journal.specs.Checking.{check_of, check_more_of, told_check};
ghost use Rattle.writer.specs.Answer.{WriteAnswer};
ghost use Rattle.calls.specs.Told.{told, told_opening};
ghost use Rattle.taskiter.specs.Played.{Played};

use calls::Answer;
use graph::Number;
use plan::state::Count;

// Reads a text into a lent plan.
#[unsafe(no_mangle)]
pub extern "C" fn taskiter_read(text: &[u8], plan: &mut [u64]) -> reader::Answer
    ensures { Reads text.now plan.old result plan.new }
{
    taskiter::taskiter_read(text, plan)
}

// The items of a plan: a number for each in the lent table, and how many they are. The number is
// rank × 512 + kind × 128 + task or region, and 8192 more for an item of a wrapped transfer.
#[unsafe(no_mangle)]
pub extern "C" fn taskiter_items(plan: &[u64], table: &mut [u16]) -> Number
    ensures { ItemsAnswer plan.now table.old result table.new }
{
    taskiter::taskiter_items(plan, table)
}

// The edges of a plan: from, to and distance of each in the lent list, and how many they are.
#[unsafe(no_mangle)]
pub extern "C" fn taskiter_edges(plan: &[u64], list: &mut [u32]) -> Number
    ensures { EdgesAnswer plan.now list.old result list.new }
{
    taskiter::taskiter_edges(plan, list)
}

// The number of steps from an opening to the end.
#[unsafe(no_mangle)]
pub extern "C" fn taskiter_total(plan: &[u64]) -> Number
    ensures { TotalAnswer plan.now result }
{
    taskiter::taskiter_total(plan)
}

// Writes a lent plan into a lent text; the number is the text's length.
#[unsafe(no_mangle)]
pub extern "C" fn taskiter_write(plan: &[u64], text: &mut [u8]) -> Number
    ensures { WriteAnswer plan.now text.old result text.new }
{
    taskiter::taskiter_write(plan, text)
}

// The version of this interface: TASKITER_VERSION of the header.
#[unsafe(no_mangle)]
pub extern "C" fn taskiter_version() -> u64
    ensures { result ≡ 6 }
{
    taskiter::taskiter_version()
}

// Opens a lent state for a plan; answers the refusal, 0 if there is none.
#[unsafe(no_mangle)]
pub extern "C" fn taskiter_open(plan: &[u64], counts: &mut [Count], values: &mut [u64]) -> u64
    ensures { told_opening result counts.new values.new ≡ open_of plan.now counts.old values.old }
{
    taskiter::taskiter_open(plan, counts, values)
}

// Starts the next pass of an item: it reads and computes its word, which is answered and held.
#[unsafe(no_mangle)]
pub extern "C" fn taskiter_start(
    plan: &[u64],
    counts: &mut [Count],
    values: &mut [u64],
    item: u64,
) -> Answer
    ensures { told result counts.new values.new ≡ start_of plan.now counts.old values.old item }
{
    taskiter::taskiter_start(plan, counts, values, item)
}

// Finishes the pass of an item that runs: the held word goes to the places that the item writes,
// and is answered. The waits that the finish meets are taken off the numbers, and its own are
// counted.
#[unsafe(no_mangle)]
pub extern "C" fn taskiter_finish(
    plan: &[u64],
    counts: &mut [Count],
    values: &mut [u64],
    item: u64,
) -> Answer
    ensures { told result counts.new values.new ≡ finish_of plan.now counts.old values.old item }
{
    taskiter::taskiter_finish(plan, counts, values, item)
}

// The result of a region once the loop is complete.
#[unsafe(no_mangle)]
pub extern "C" fn taskiter_result(
    plan: &[u64],
    counts: &[Count],
    values: &[u64],
    region: u64,
) -> Answer
    ensures { told result counts.now values.now ≡ result_of plan.now counts.now values.now region }
{
    taskiter::taskiter_result(plan, counts, values, region)
}

// The items whose start is accepted now: their numbers, rising, in the lent slice, and how many
// they are.
#[unsafe(no_mangle)]
pub extern "C" fn taskiter_ready(
    plan: &[u64],
    counts: &[Count],
    values: &[u64],
    items: &mut [u16],
) -> Number
    ensures { ReadyAnswer plan.now counts.now values.now items.old result items.new }
{
    taskiter::taskiter_ready(plan, counts, values, items)
}

// Fills the tables of a plan in a lent slice, for steps by them; the number is that of its items.
#[unsafe(no_mangle)]
pub extern "C" fn taskiter_prepare(plan: &[u64], tables: &mut [u16]) -> Number
    ensures { PrepareAnswer plan.now tables.old result tables.new }
{
    taskiter::taskiter_prepare(plan, tables)
}

// Starts the next pass of an item by the tables: it looks at the words of this item alone.
#[unsafe(no_mangle)]
pub extern "C" fn taskiter_start_prepared(
    plan: &[u64],
    tables: &[u16],
    counts: &mut [Count],
    values: &mut [u64],
    item: u64,
) -> Answer
    ensures { told result counts.new values.new
        ≡ start_prepared plan.now tables.now counts.old values.old item }
{
    taskiter::taskiter_start_prepared(plan, tables, counts, values, item)
}

// Finishes the pass of an item that runs by the tables, and lists the items that this makes ready.
#[unsafe(no_mangle)]
pub extern "C" fn taskiter_finish_freeing(
    plan: &[u64],
    tables: &[u16],
    counts: &mut [Count],
    values: &mut [u64],
    freed: &mut [u16],
    item: u64,
) -> Answer
    ensures { FreeingAnswer plan.now tables.now counts.old values.old freed.old item
        (told result counts.new values.new) freed.new }
{
    taskiter::taskiter_finish_freeing(plan, tables, counts, values, freed, item)
}

// As `taskiter_finish_freeing`, with no list.
#[unsafe(no_mangle)]
pub extern "C" fn taskiter_finish_prepared(
    plan: &[u64],
    tables: &[u16],
    counts: &mut [Count],
    values: &mut [u64],
    item: u64,
) -> Answer
    ensures { told result counts.new values.new
        ≡ finish_prepared plan.now tables.now counts.old values.old item }
{
    taskiter::taskiter_finish_prepared(plan, tables, counts, values, item)
}

// Plays a list of calls, each on the state that the one before left: two words of the answers for
// each, its refusal and its word. Answers 11 where a slice is too short, else 0.
#[unsafe(no_mangle)]
pub extern "C" fn taskiter_play(
    plan: &[u64],
    counts: &mut [Count],
    values: &mut [u64],
    calls: &[u64],
    answers: &mut [u64],
) -> u64
    ensures { Played plan.now counts.old values.old calls.now answers.old result
        counts.new values.new answers.new }
{
    taskiter::taskiter_play(plan, counts, values, calls, answers)
}

// Opens a lent state for a plan and takes the steps of a journal, one a line. The number is 1 where
// the loop is then complete, else 0; where a line is refused, the line.
#[unsafe(no_mangle)]
pub extern "C" fn taskiter_check(
    plan: &[u64],
    counts: &mut [Count],
    values: &mut [u64],
    journal: &[u8],
) -> Number
    ensures { told_check result counts.new values.new
        ≡ check_of plan.now counts.old values.old journal.now }
{
    taskiter::taskiter_check(plan, counts, values, journal)
}

// As `taskiter_check`, going on from the lent state instead of opening it.
#[unsafe(no_mangle)]
pub extern "C" fn taskiter_check_more(
    plan: &[u64],
    counts: &mut [Count],
    values: &mut [u64],
    journal: &[u8],
) -> Number
    ensures { told_check result counts.new values.new
        ≡ check_more_of plan.now counts.old values.old journal.now }
{
    taskiter::taskiter_check_more(plan, counts, values, journal)
}
