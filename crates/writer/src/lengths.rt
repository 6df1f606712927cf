// How many bytes the lines of a plan have, for a text slice that may be too short for them.
ghost use Rattle.std.specs.Prelude.{◌<◌, ◌≤◌, ◌≡◌, true, length};
ghost use Rattle.plan.specs.Form.{in_form};
ghost use Rattle.plan.specs.Layout.{plan_words, regions_of, accesses_of};
ghost use Rattle.plan.specs.Limits.{max_regions, max_tasks, max_accesses};
ghost use Rattle.reading.specs.Written.{text_of};
ghost use Rattle.writer.specs.Parts.{three, access_line, access_lines, start_line, task_lines, start_lines, all_tasks};

use output::digit_count;
use plan::layout::MODE;
use plan::words::Plan;

// Three fields: their tabs and the line feed are 4 bytes.
fn three_length(x: u64, y: u64, z: u64) -> usize
    ensures { (result ≡ length (three x y z)) × (result ≤ 64) }
{
    4 + digit_count(x) + digit_count(y) + digit_count(z)
}

// The `start` line of region g: its word, two tabs and the line feed are 8 bytes.
fn start_length(plan: &Plan, g: usize) -> usize
    requires { g < max_regions }
    ensures { (result ≡ length (start_line plan.now g)) × (result ≤ 48) }
{
    let value = plan.start(g);
    if value == 0 {
        return 0;
    }
    8 + digit_count(g as u64) + digit_count(value)
}

// All `start` lines.
fn starts_length(plan: &Plan) -> usize
    requires { regions_of plan.now ≤ max_regions }
    ensures { (result ≡ length (start_lines plan.now)) × (result ≤ 6144) }
{
    let regions = plan.regions() as usize;
    let mut sum: usize = 0;
    for g in 0..regions {
        sum += start_length(plan, g);
    }
    sum
}

// The line of an access: the word of its mode, a tab, its region and the line feed.
fn access_length(access: u64) -> usize
    ensures { (result ≡ length (access_line access)) × (result ≤ 27) }
{
    let region = digit_count(access % MODE);
    if access / MODE == 0 {
        return 4 + region;
    }
    if access / MODE == 1 {
        return 5 + region;
    }
    7 + region
}

// The accesses of task i.
fn accesses_length(plan: &Plan, i: usize) -> usize
    requires { (i < max_tasks) × (accesses_of plan.now i ≤ max_accesses) }
    ensures { (result ≡ length (access_lines plan.now i)) × (result ≤ 216) }
{
    let accesses = plan.access_count(i);
    let mut sum: usize = 0;
    for a in 0..accesses {
        sum += access_length(plan.access(i, a));
    }
    sum
}

// The lines of task i: the words of `begin` and `end` and the line feed of the latter are 9 bytes.
fn task_length(plan: &Plan, i: usize) -> usize
    requires { (i < max_tasks) × (accesses_of plan.now i ≤ max_accesses) }
    ensures { (result ≡ length (task_lines plan.now i)) × (result ≤ 289) }
{
    let numbers = three_length(plan.rank(i), plan.kernel(i), plan.constant(i));
    9 + numbers + accesses_length(plan, i)
}

// The lines of all tasks.
fn tasks_length(plan: &Plan) -> usize
    requires { (length plan.now ≡ plan_words) × (in_form plan.now ≡ true) }
    ensures { (result ≡ length (all_tasks plan.now)) × (result ≤ 36992) }
{
    let tasks = plan.tasks();
    let mut sum: usize = 0;
    for i in 0..tasks {
        sum += task_length(plan, i);
    }
    sum
}

// The text of a plan in form.
pub fn text_length(plan: &Plan) -> usize
    requires { (length plan.now ≡ plan_words) × (in_form plan.now ≡ true) }
    ensures { result ≡ length (text_of plan.now) }
{
    let numbers = three_length(plan.passes(), plan.ranks(), plan.regions());
    4 + numbers + starts_length(plan) + tasks_length(plan)
}
