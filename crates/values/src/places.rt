// What an item reads, computes and writes: a task the copies of its rank, a send and a receive a
// copy and their slot.
ghost use Rattle.std.specs.Prelude.{◌*◌, ◌≤◌, ◌<◌, ◌≡◌, map, length, get_or};
ghost use Rattle.finite.specs.Lists.{mem};
ghost use Rattle.finite.specs.Update.{replaced};
ghost use Rattle.unroll.specs.Sequential.{word_on};
ghost use Rattle.body.specs.Items.{item_at};
ghost use Rattle.body.specs.Places.{system};
ghost use Rattle.edges.specs.Tests.{rank_at};
ghost use Rattle.plan.specs.Limits.{max_regions};
ghost use Rattle.plan.specs.Sizes.{value_words};
ghost use Rattle.plan.specs.Layout.{regions_of, body_of, writes_of};
ghost use Rattle.graph.specs.Table.{Task};
ghost use Rattle.values.specs.Items.{Formed, Found, regions_written};

use plan::code::{RECEIVE, SEND, TASK, item_kind, item_rank, item_subject};
use plan::layout::{access_region, put_if, reads_region, writes_region};
use plan::state::slot_of;
use plan::words::Plan;

// Where the copies of an item's rank start.
pub fn first_copy(plan: &Plan, code: u64, a: usize) -> usize
    requires { Found plan.now a code }
    ensures { (result ≡ rank_at (body_of plan.now) a * (body_of plan.now).regions) × (result ≤ 1920) }
{
    (item_rank(code) * plan.regions()) as usize
}

// How many copies a rank has.
fn region_count(plan: &Plan) -> usize
    requires { Formed plan.now }
    ensures { (result ≡ regions_of plan.now) × (result ≤ max_regions) }
{
    plan.regions() as usize
}

// The word that task i computes from the copies of its rank.
fn task_word(plan: &Plan, i: usize, copies: &[u64]) -> u64
    requires { Task plan.now i × (length copies.now ≡ regions_of plan.now) }
    ensures { result ≡ (body_of plan.now).compute i (map (λ g. get_or copies.now g 0) ((body_of plan.now).reads i)) }
{
    let count = plan.access_count(i);
    let mut reads = [0u64; 8];
    let mut n: usize = 0;
    for k in 0..count {
        let access = plan.access(i, k);
        reads[n] = copies[access_region(access)];
        n += usize::from(reads_region(access));
    }
    kernels::kernel_word(plan.kernel(i), plan.constant(i), &reads[..n])
}

// The word that item a reads and computes.
pub fn item_word(plan: &Plan, code: u64, a: usize, values: &[u64]) -> u64
    requires { Found plan.now a code × (value_words ≤ length values.now) }
    ensures { result ≡ word_on (system (body_of plan.now)) a (λ x. get_or values.now x 0) }
{
    let kind = item_kind(code);
    if kind == RECEIVE {
        return values[slot_of(kind, a)];
    }
    let subject = item_subject(code);
    let first = first_copy(plan, code, a);
    let regions = region_count(plan);
    let copies = &values[first..first + regions];
    if kind == SEND {
        return copies[subject];
    }
    task_word(plan, subject, copies)
}

// The word goes to the copy of each region that task i writes.
fn write_task(plan: &Plan, i: usize, copies: &mut [u64], word: u64)
    requires { Task plan.now i × (length copies.old ≡ regions_of plan.now) }
    ensures { copies.new ≡ replaced (λ g. mem g (writes_of plan.now i)) (λ g. word) copies.old }
{
    let count = plan.access_count(i);
    for k in 0..count {
        let access = plan.access(i, k);
        put_if(copies, access_region(access), word, writes_region(access));
    }
}

// The writer of copies: the word goes to those that item a writes, on its rank.
fn write_copies(plan: &Plan, code: u64, a: usize, copies: &mut [u64], word: u64)
    requires { Found plan.now a code × (length copies.old ≡ regions_of plan.now) }
    ensures { copies.new ≡ replaced (λ g. mem g (regions_written (body_of plan.now) (item_at (body_of plan.now) a))) (λ g. word) copies.old }
{
    let kind = item_kind(code);
    let subject = item_subject(code);
    if kind == TASK {
        write_task(plan, subject, copies, word);
        return;
    }
    put_if(copies, subject, word, kind == RECEIVE);
}

// The word goes to the places that item a writes.
pub fn write_places(plan: &Plan, code: u64, a: usize, values: &mut [u64], word: u64)
    requires { Found plan.now a code × (value_words ≤ length values.old) }
    ensures { values.new ≡ replaced (λ x. mem x ((system (body_of plan.now)).writes a)) (λ x. word) values.old }
{
    let kind = item_kind(code);
    put_if(values, slot_of(kind, a), word, !(kind == TASK));
    let first = first_copy(plan, code, a);
    let regions = region_count(plan);
    write_copies(plan, code, a, &mut values[first..first + regions], word);
}
