// Running a plan to its end: turns, in each of which the lowest item that may start is started and
// finished, by the tables of the plan. The set of the items that may start is kept beside the lent
// state.
#![tactic(auto)]

ghost use Rattle.std.specs.Prelude.{◌≤◌, ◌≡◌, length};
ghost use Rattle.plan.specs.Limits.{max_accesses};
ghost use Rattle.plan.specs.Sizes.{max_items, count_words, value_words, edge_words};
ghost use Rattle.steps.specs.Answers.{started, finished, open_of};
ghost use Rattle.steps.specs.Calls.{lent, lent_by};
ghost use Rattle.steps.specs.Turns.{Going, Over};
ghost use Rattle.prepared.specs.Laws.{Prepared};
ghost use Rattle.calls.specs.Drawn.{Drawn};
ghost use Rattle.runs.specs.Turns.{ReadyBut, Turn, Opened};

mod ready;
pub mod shown;

use crate::ready::put_ready;
use calls::drawing::list_edges;
use calls::openings::open_clear;
use engine::finishes::finish_into_set;
use engine::starts::start_item;
use graph::items::Items;
use masks::{MASK_WORDS, take_lowest};
use plan::limits::MAX_ACCESSES;
use plan::state::Count;
use plan::words::Plan;
use prepared::PREPARED;
use tables::make_tables;

// Item a starts and finishes. The items with an edge to or from it stand where the items in order
// leave them (`InStep`), so the finish by tables is the ordinary one. `room` is for the words that
// it reads.
fn take_turn(
    plan: &Plan,
    tables: &[u16],
    a: usize,
    counts: &mut [Count],
    values: &mut [u64],
    room: &mut [u64],
    words: &mut [u64],
)
    requires { Turn plan.now a counts.old values.old words.old × Prepared plan.now tables.now × (length room.old ≡ max_accesses) }
    ensures { (lent counts.new values.new ≡ lent_by (finished plan.now
        (started plan.now counts.old values.old a).counts
        (started plan.now counts.old values.old a).values a))
        × ReadyBut plan.now counts.new max_items words.new × (length room.new ≡ max_accesses) }
{
    start_item(plan, tables, a, counts, values, room);
    finish_into_set(plan, tables, a, counts, values, words);
}

// Takes turns until no step is accepted, and answers how many steps they were. `plan` is the items'
// own.
fn take_turns(
    plan: &Plan,
    items: &Items,
    tables: &[u16],
    counts: &mut [Count],
    values: &mut [u64],
) -> u64
    requires { (items.now.plan.now ≡ plan.now) × Prepared plan.now tables.now × Opened plan.now (lent counts.old values.old) }
    ensures { Going plan.now (lent counts.old values.old) (lent counts.new values.new) result
        × Over plan.now (lent counts.new values.new) }
{
    let mut words = [0u64; MASK_WORDS];
    put_ready(items, counts, &mut words);
    let mut room = [0u64; MAX_ACCESSES];
    let mut steps: u64 = 0;
    // the lowest is taken behind a turn: at the loop's head an item instance takes 133.9, limit 130
    let mut lowest = take_lowest(&mut words);
    while let Some(a) = lowest {
        take_turn(plan, tables, a, counts, values, &mut room, &mut words);
        steps += 2;
        lowest = take_lowest(&mut words);
    }
    steps
}

// Runs an opened plan to its end, and answers how many steps that took. `plan` is the items' own.
fn run_opened(plan: &Plan, items: &Items, counts: &mut [Count], values: &mut [u64]) -> u64
    requires { (items.now.plan.now ≡ plan.now) × Opened plan.now (lent counts.old values.old) }
    ensures { Going plan.now (lent counts.old values.old) (lent counts.new values.new) result
        × Over plan.now (lent counts.new values.new) }
{
    let mut tables = [0u16; PREPARED];
    make_tables(items, &mut tables);
    take_turns(plan, items, &tables, counts, values)
}

// How many edges were listed, and how many steps were taken.
#[derive(Clone, Copy)]
pub struct Ended {
    pub edges: usize,
    pub steps: u64,
}

// Lists the edges of a plan, opens a state for it and runs it to its end.
pub fn run_clear(items: &Items, list: &mut [u32], counts: &mut [Count], values: &mut [u64]) -> Ended
    requires { (edge_words ≤ length list.old) × (count_words ≤ length counts.old) × (value_words ≤ length values.old) }
    ensures { Drawn items.now.plan.now list.old result.edges list.new
        × Going items.now.plan.now (lent_by (open_of items.now.plan.now counts.old values.old)) (lent counts.new values.new) result.steps
        × Over items.now.plan.now (lent counts.new values.new) }
{
    // a plan that no walk is handed: a turn then finds its words without the way through `items`
    let plan = Plan::new(items.plan.words());
    let edges = list_edges(items, list);
    open_clear(items, counts, values);
    let steps = run_opened(&plan, items, counts, values);
    Ended { edges, steps }
}
