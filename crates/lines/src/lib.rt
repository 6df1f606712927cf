// The lines that the run program prints, put at the start of a lent slice. Inside, each function
// puts its bytes from an offset on and answers the offset behind them.
#![tactic(auto)]

ghost use Rattle.std.specs.Prelude.{◌+◌, ◌*◌, ◌<◌, ◌≤◌, [], ◌∷◌, ◌++◌, length};
ghost use Rattle.finite.specs.Put.{Put, Room, Added, RoomAt};
ghost use Rattle.lines.specs.Lines.{field, kind_field, steps_line, refused_line};
ghost use Rattle.lines.specs.Tables.{table_lines, list_lines, word_lines};
ghost use Rattle.lines.specs.Tables.{item_line_at, edge_line_at, value_line_at};

use output::put_bytes;
use plan::code::{SEND, TASK, item_kind, item_rank};

// A space and a number.
fn put_field(out: &mut [u8], at: usize, n: u64) -> usize
    requires { RoomAt (field n) at out.old }
    ensures { Added (field n) at out.old result out.new }
{
    output::put_field(out, at, b' ', n)
}

// The last field of a line, and the end of the line.
fn put_last(out: &mut [u8], at: usize, n: u64) -> usize
    requires { RoomAt (field n ++ (10 ∷ [])) at out.old }
    ensures { Added (field n ++ (10 ∷ [])) at out.old result out.new }
{
    output::put_last(out, at, b' ', n)
}

// The field of a kind.
fn put_kind(out: &mut [u8], at: usize, kind: u64) -> usize
    requires { RoomAt (kind_field kind) at out.old }
    ensures { Added (kind_field kind) at out.old result out.new }
{
    if kind == TASK {
        return put_bytes(out, at, b" task");
    }
    if kind == SEND {
        return put_bytes(out, at, b" send");
    }
    put_bytes(out, at, b" receive")
}

// The line of item a.
fn put_item(out: &mut [u8], at: usize, table: &[u16], a: usize) -> usize
    requires { (a < length table.now) × RoomAt (item_line_at table.now a) at out.old }
    ensures { Added (item_line_at table.now a) at out.old result out.new }
{
    let code = u64::from(table[a]);
    let head = put_bytes(out, at, b"item");
    let number = put_field(out, head, a as u64);
    let kind = put_kind(out, number, item_kind(code));
    put_last(out, kind, item_rank(code))
}

// The lines of n items by their item table.
pub fn put_items(out: &mut [u8], table: &[u16], n: usize) -> usize
    requires { (n ≤ length table.now) × Room (table_lines table.now n) out.old }
    ensures { Put (table_lines table.now n) out.old result out.new }
{
    let mut at = 0;
    for a in 0..n {
        at = put_item(out, at, table, a);
    }
    at
}

// The line of edge k.
fn put_edge(out: &mut [u8], at: usize, list: &[u32], k: usize) -> usize
    requires { (3 * k + 2 < length list.now) × RoomAt (edge_line_at list.now k) at out.old }
    ensures { Added (edge_line_at list.now k) at out.old result out.new }
{
    let first = 3 * k;
    let head = put_bytes(out, at, b"edge");
    let from = put_field(out, head, u64::from(list[first]));
    let to = put_field(out, from, u64::from(list[first + 1]));
    put_last(out, to, u64::from(list[first + 2]))
}

// The lines of m edges by a list with three numbers an edge.
pub fn put_edges(out: &mut [u8], list: &[u32], m: usize) -> usize
    requires { (3 * m ≤ length list.now) × Room (list_lines list.now m) out.old }
    ensures { Put (list_lines list.now m) out.old result out.new }
{
    let mut at = 0;
    for k in 0..m {
        at = put_edge(out, at, list, k);
    }
    at
}

// The line of region g.
fn put_value(out: &mut [u8], at: usize, words: &[u64], g: usize) -> usize
    requires { (g < length words.now) × RoomAt (value_line_at words.now g) at out.old }
    ensures { Added (value_line_at words.now g) at out.old result out.new }
{
    let word = words[g];
    let head = put_bytes(out, at, b"value");
    let region = put_field(out, head, g as u64);
    put_last(out, region, word)
}

// The lines of n regions by their words.
pub fn put_values(out: &mut [u8], words: &[u64], n: usize) -> usize
    requires { (n ≤ length words.now) × Room (word_lines words.now n) out.old }
    ensures { Put (word_lines words.now n) out.old result out.new }
{
    let mut at = 0;
    for g in 0..n {
        at = put_value(out, at, words, g);
    }
    at
}

// The line of the steps that a run took.
pub fn put_steps(out: &mut [u8], steps: u64) -> usize
    requires { Room (steps_line steps) out.old }
    ensures { Put (steps_line steps) out.old result out.new }
{
    let head = put_bytes(out, 0, b"steps");
    put_last(out, head, steps)
}

// The line of a refused text.
pub fn put_refused(out: &mut [u8], refusal: u64, line: u64) -> usize
    requires { Room (refused_line refusal line) out.old }
    ensures { Put (refused_line refusal line) out.old result out.new }
{
    let head = put_bytes(out, 0, b"refused");
    let number = put_field(out, head, refusal);
    put_last(out, number, line)
}
