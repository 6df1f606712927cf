// What the run program prints for a text, as bytes (specs/Report.antt).
#![tactic(auto)]

ghost use Rattle.std.specs.Prelude.{◌*◌, ◌≤◌, ◌≡◌, true, ◌++◌, length};
ghost use Rattle.finite.specs.Put.{Put, Room};
ghost use Rattle.plan.specs.Layout.{plan_words};
ghost use Rattle.plan.specs.Form.{in_form};
ghost use Rattle.lines.specs.Lines.{steps_line};
ghost use Rattle.lines.specs.Tables.{table_lines, list_lines, word_lines};
ghost use Rattle.report.specs.Report.{plan_lines, lines_of, report_bytes, Reports};

use graph::Number;
use lines::{put_edges, put_items, put_refused, put_steps, put_values};
use plan::layout::{PLAN_WORDS, REGIONS};
use plan::refusal::Refusal;
use plan::state::{COUNTS, EDGE_WORDS, MAX_ITEMS, RESULTS, VALUES};

// The bytes of the lent output: room for the lines of every text.
pub const REPORT_BYTES: usize = 80155;

// The lines of a plan's items and edges.
fn put_graph(out: &mut [u8], table: &[u16], items: usize, list: &[u32], edges: usize) -> usize
    requires { (items ≤ length table.now) × (3 * edges ≤ length list.now)
        × Room (table_lines table.now items ++ list_lines list.now edges) out.old }
    ensures { Put (table_lines table.now items ++ list_lines list.now edges)
        out.old result out.new }
{
    let at = put_items(out, table, items);
    at + put_edges(&mut out[at..], list, edges)
}

// The lines of a run's steps and results.
fn put_end(out: &mut [u8], steps: u64, results: &[u64], regions: usize) -> usize
    requires { (regions ≤ length results.now)
        × Room (steps_line steps ++ word_lines results.now regions) out.old }
    ensures { Put (steps_line steps ++ word_lines results.now regions)
        out.old result out.new }
{
    let at = put_steps(out, steps);
    at + put_values(&mut out[at..], results, regions)
}

// Runs a plan to its end, and puts its lines.
fn put_plan(out: &mut [u8], plan: &[u64]) -> usize
    requires { (length plan.now ≡ plan_words) × (in_form plan.now ≡ true)
        × (report_bytes ≤ length out.old) }
    ensures { Put (plan_lines plan.now) out.old result out.new }
{
    let mut table = [0u16; MAX_ITEMS];
    let mut list = [0u32; EDGE_WORDS];
    let mut counts = [0; COUNTS];
    let mut values = [0u64; VALUES];
    let mut results = [0u64; RESULTS];
    let ran = taskiter::run(
        plan,
        &mut table,
        &mut list,
        &mut counts,
        &mut values,
        &mut results,
    );
    let items = ran.items as usize;
    let edges = ran.edges as usize;
    let regions = plan[REGIONS] as usize;
    let at = put_graph(out, &table, items, &list, edges);
    at + put_end(&mut out[at..], ran.steps, &results, regions)
}

// The lines of a text.
fn put_lines(out: &mut [u8], text: &[u8]) -> usize
    requires { report_bytes ≤ length out.old }
    ensures { Put (lines_of text.now) out.old result out.new }
{
    let mut plan = [0u64; PLAN_WORDS];
    let answer = taskiter::taskiter_read(text, &mut plan);
    if answer.refusal != 0 {
        return put_refused(out, answer.refusal, answer.line);
    }
    put_plan(out, &plan)
}

// Puts the lines of a text at the start of the lent output; answers how many bytes they are, or 11
// where the output is shorter than REPORT_BYTES.
// A number and no Result: `Reports` speaks of a refusal and a number, as the C functions answer.
pub fn report(text: &[u8], out: &mut [u8]) -> Number
    ensures { Reports text.now out.old result out.new }
{
    if out.len() < REPORT_BYTES {
        return Number {
            refusal: u64::from(Refusal::TooShort),
            number: 0,
        };
    }
    Number {
        refusal: 0,
        number: put_lines(out, text) as u64,
    }
}
