// The lines of a plan, put into a lent slice from an offset on. Each function answers the offset
// behind its lines.
ghost use Rattle.std.specs.Prelude.{◌<◌, ◌≤◌, ◌≡◌, true, ◌++◌, length};
ghost use Rattle.finite.specs.Put.{Added, Put, Room, RoomAt};
ghost use Rattle.plan.specs.Form.{in_form};
ghost use Rattle.plan.specs.Layout.{plan_words, regions_of, accesses_of};
ghost use Rattle.plan.specs.Limits.{max_regions, max_tasks, max_accesses};
ghost use Rattle.reading.specs.Written.{text_of};
ghost use Rattle.writer.specs.Parts.{three, mode_text, access_line, access_lines, loop_line, start_line, begin_line, task_lines, start_lines, all_tasks};

use output::{put_bytes, put_field, put_last};
use plan::layout::MODE;
use plan::words::Plan;

// A line of a word and three numbers.
fn put_three(out: &mut [u8], at: usize, word: &[u8], x: u64, y: u64, z: u64) -> usize
    requires { RoomAt (word.now ++ three x y z) at out.old }
    ensures { Added (word.now ++ three x y z) at out.old result out.new }
{
    let head = put_bytes(out, at, word);
    let first = put_field(out, head, b'\t', x);
    let second = put_field(out, first, b'\t', y);
    put_last(out, second, b'\t', z)
}

// The `loop` line, at the start of the slice.
fn put_loop(out: &mut [u8], plan: &Plan) -> usize
    requires { RoomAt (loop_line plan.now) 0 out.old }
    ensures { Added (loop_line plan.now) 0 out.old result out.new }
{
    let passes = plan.passes();
    let ranks = plan.ranks();
    put_three(out, 0, b"loop", passes, ranks, plan.regions())
}

// The `start` line of region g, unless it starts at 0.
fn put_start(out: &mut [u8], at: usize, plan: &Plan, g: usize) -> usize
    requires { (g < max_regions) × RoomAt (start_line plan.now g) at out.old }
    ensures { Added (start_line plan.now g) at out.old result out.new }
{
    let value = plan.start(g);
    if value == 0 {
        return at;
    }
    let head = put_bytes(out, at, b"start");
    let region = put_field(out, head, b'\t', g as u64);
    put_last(out, region, b'\t', value)
}

// All `start` lines, regions rising.
fn put_starts(out: &mut [u8], at: usize, plan: &Plan) -> usize
    requires { (regions_of plan.now ≤ max_regions)
        × RoomAt (start_lines plan.now) at out.old }
    ensures { Added (start_lines plan.now) at out.old result out.new }
{
    let regions = plan.regions() as usize;
    let mut end = at;
    for g in 0..regions {
        end = put_start(out, end, plan, g);
    }
    end
}

// The word of a mode.
fn put_mode(out: &mut [u8], at: usize, mode: u64) -> usize
    requires { RoomAt (mode_text mode) at out.old }
    ensures { Added (mode_text mode) at out.old result out.new }
{
    if mode == 0 {
        return put_bytes(out, at, b"in");
    }
    if mode == 1 {
        return put_bytes(out, at, b"out");
    }
    put_bytes(out, at, b"inout")
}

// The line of an access.
fn put_access(out: &mut [u8], at: usize, access: u64) -> usize
    requires { RoomAt (access_line access) at out.old }
    ensures { Added (access_line access) at out.old result out.new }
{
    let mode = put_mode(out, at, access / MODE);
    put_last(out, mode, b'\t', access % MODE)
}

// The accesses of task i, in record order.
fn put_accesses(out: &mut [u8], at: usize, plan: &Plan, i: usize) -> usize
    requires { (i < max_tasks) × (accesses_of plan.now i ≤ max_accesses)
        × RoomAt (access_lines plan.now i) at out.old }
    ensures { Added (access_lines plan.now i) at out.old result out.new }
{
    let accesses = plan.access_count(i);
    let mut end = at;
    for a in 0..accesses {
        end = put_access(out, end, plan.access(i, a));
    }
    end
}

// The `begin` line of task i.
fn put_begin(out: &mut [u8], at: usize, plan: &Plan, i: usize) -> usize
    requires { (i < max_tasks) × RoomAt (begin_line plan.now i) at out.old }
    ensures { Added (begin_line plan.now i) at out.old result out.new }
{
    let rank = plan.rank(i);
    let kernel = plan.kernel(i);
    put_three(out, at, b"begin", rank, kernel, plan.constant(i))
}

// The lines of task i.
fn put_task(out: &mut [u8], at: usize, plan: &Plan, i: usize) -> usize
    requires { (i < max_tasks) × (accesses_of plan.now i ≤ max_accesses)
        × RoomAt (task_lines plan.now i) at out.old }
    ensures { Added (task_lines plan.now i) at out.old result out.new }
{
    let head = put_begin(out, at, plan, i);
    let accesses = put_accesses(out, head, plan, i);
    put_bytes(out, accesses, b"end\n")
}

// The lines of all tasks, in order.
fn put_tasks(out: &mut [u8], at: usize, plan: &Plan) -> usize
    requires { (length plan.now ≡ plan_words) × (in_form plan.now ≡ true)
        × RoomAt (all_tasks plan.now) at out.old }
    ensures { Added (all_tasks plan.now) at out.old result out.new }
{
    let tasks = plan.tasks();
    let mut end = at;
    for i in 0..tasks {
        end = put_task(out, end, plan, i);
    }
    end
}

// The text of a plan in form.
pub fn put_text(out: &mut [u8], plan: &Plan) -> usize
    requires { (length plan.now ≡ plan_words) × (in_form plan.now ≡ true)
        × Room (text_of plan.now) out.old }
    ensures { Put (text_of plan.now) out.old result out.new }
{
    let head = put_loop(out, plan);
    let starts = put_starts(out, head, plan);
    put_tasks(out, starts, plan)
}
