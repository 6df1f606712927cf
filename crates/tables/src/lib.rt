// The tables of a plan, filled part by part (prepared/specs/Tables.antt).
#![tactic(auto)]

ghost use Rattle.std.specs.Prelude.{◌≤◌, ◌≡◌, ◌++◌, length, drop};
ghost use Rattle.finite.specs.Put.{Added};
ghost use Rattle.plan.specs.Layout.{body_of};
ghost use Rattle.prepared.specs.Tables.{prepared_words, first_read, tables_of};
ghost use Rattle.tables.specs.Parts.{graph_part};

pub mod listing;
pub mod parts;
pub mod targets;

use crate::listing::put_places;
use crate::parts::put_part;
use crate::targets::{STARTS, TARGETS, list_targets};
use graph::items::Items;
use plan::state::MAX_ITEMS;
use prepared::{FIRST_CODE, FIRST_READ, FIRST_SOURCE, FIRST_START, FIRST_TARGET, FIRST_WRITE};

// Fills the parts before the places.
fn put_graph(items: &Items, tables: &mut [u16])
    requires { first_read ≤ length tables.old }
    ensures { Added (graph_part (body_of items.now.plan.now)) 0 tables.old first_read tables.new }
{
    let n = items.codes.len();
    let mut targets = [0u16; TARGETS];
    let mut starts = [0u16; STARTS];
    let mut sources = [0u16; MAX_ITEMS];
    let count = list_targets(items, &mut targets, &mut starts, &mut sources);
    tables[0] = n as u16;
    put_part(items.codes, n, tables, FIRST_CODE, FIRST_SOURCE);
    put_part(&sources, n, tables, FIRST_SOURCE, FIRST_START);
    put_part(&starts, n + 1, tables, FIRST_START, FIRST_TARGET);
    put_part(&targets, count, tables, FIRST_TARGET, FIRST_READ);
}

// Fills the tables of a plan.
pub fn make_tables(items: &Items, tables: &mut [u16])
    requires { prepared_words ≤ length tables.old }
    ensures { tables.new ≡ tables_of (body_of items.now.plan.now) ++ drop prepared_words tables.old }
{
    put_graph(items, tables);
    put_places(items, false, tables, FIRST_READ);
    put_places(items, true, tables, FIRST_WRITE);
}
