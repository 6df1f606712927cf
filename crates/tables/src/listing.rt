// The places that items read and write, a row for each item: its places, zeros behind them, and how
// many they are.
ghost use Rattle.std.specs.Prelude.{◌+◌, ◌≤◌, ◌<◌, ◌≡◌, cond, [], ◌∷◌, map, length};
ghost use Rattle.finite.specs.Put.{Added, RoomAt};
ghost use Rattle.plan.specs.Limits.{max_accesses};
ghost use Rattle.plan.specs.Layout.{reads, writes, body_of};
ghost use Rattle.graph.specs.Table.{Task};
ghost use Rattle.prepared.specs.Tables.{list_words, place_rows};
ghost use Rattle.tables.specs.Rows.{places_of, regions_used, places_moved};

use graph::items::Items;
use plan::code::{RECEIVE, TASK, item_kind, item_subject};
use plan::layout::{access_region, reads_region, writes_region};
use plan::state::slot_of;
use plan::words::Plan;
use prepared::{ROW, ROW_COUNT};
use values::places::first_copy;

// The rows of all items.
const ROWS: usize = 5760;

// Whether an access writes its region, or else whether it reads it.
// `write` stays a bool: the definitions of specs/Rows.antt take one, and an enum is no plainer.
fn uses_region(access: u64, write: bool) -> bool
    ensures { result ≡ cond write (writes access) (reads access) }
{
    if write {
        writes_region(access)
    } else {
        reads_region(access)
    }
}

// Puts a place at an offset where `yes` holds, and answers the offset behind it.
fn put_place(row: &mut [u16], at: usize, place: usize, yes: bool) -> usize
    requires { RoomAt (cond yes (place ∷ []) []) at row.old × (place < 65536) }
    ensures { Added (cond yes (place ∷ []) []) at row.old result row.new }
{
    if !yes {
        return at;
    }
    row[at] = place as u16;
    at + 1
}

// Puts the copies that task i writes, or else reads, into a row. Those of its rank stand from
// `first` on. Answers how many they are.
fn list_task(plan: &Plan, i: usize, first: usize, write: bool, row: &mut [u16]) -> usize
    requires { Task plan.now i × (first ≤ 1920) × (max_accesses ≤ length row.old) }
    ensures { Added (map (λ g. first + g) (regions_used plan.now write i)) 0 row.old result row.new × (result ≤ max_accesses) }
{
    let count = plan.access_count(i);
    let mut at: usize = 0;
    for k in 0..count {
        let access = plan.access(i, k);
        at = put_place(
            row,
            at,
            first + access_region(access),
            uses_region(access, write),
        );
    }
    at
}

// As `list_task`, for the slot and the copy of a send or a receive.
fn list_moved(receives: bool, write: bool, slot: usize, copy: usize, row: &mut [u16]) -> usize
    requires { (slot < 65536) × (copy < 65536) × (max_accesses ≤ length row.old) }
    ensures { Added (places_moved receives write slot copy) 0 row.old result row.new × (result ≤ max_accesses) }
{
    if write {
        row[0] = slot as u16;
        return put_place(row, 1, copy, receives);
    }
    let place = if receives { slot } else { copy };
    row[0] = place as u16;
    1
}

// As `list_task`, for the places of item a.
fn list_item(items: &Items, a: usize, write: bool, row: &mut [u16]) -> usize
    requires { (a < length items.now.codes.now) × (max_accesses ≤ length row.old) }
    ensures { Added (places_of (body_of items.now.plan.now) write a) 0 row.old result row.new × (result ≤ max_accesses) }
{
    let code = u64::from(items.codes[a]);
    let kind = item_kind(code);
    let subject = item_subject(code);
    let first = first_copy(items.plan, code, a);
    if kind == TASK {
        return list_task(items.plan, subject, first, write, row);
    }
    list_moved(
        kind == RECEIVE,
        write,
        slot_of(kind, a),
        first + subject,
        row,
    )
}

// Fills the rows of the places that each item writes, or else of those that it reads.
fn list_places(items: &Items, write: bool, table: &mut [u16])
    requires { length table.old ≡ list_words }
    ensures { table.new ≡ place_rows (body_of items.now.plan.now) (places_of (body_of items.now.plan.now) write) }
{
    table.fill(0);
    for a in 0..items.codes.len() {
        let row = ROW * a;
        let count = list_item(items, a, write, &mut table[row..row + ROW_COUNT]);
        table[row + ROW_COUNT] = count as u16;
    }
}

// Fills the part of the tables from `first` on so.
pub(crate) fn put_places(items: &Items, write: bool, tables: &mut [u16], first: usize)
    requires { first + list_words ≤ length tables.old }
    ensures { Added (place_rows (body_of items.now.plan.now) (places_of (body_of items.now.plan.now) write)) first
        tables.old (first + list_words) tables.new }
{
    list_places(items, write, &mut tables[first..first + ROWS]);
}
