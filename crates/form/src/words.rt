// The test of a plan's words, but for the number of transfers: one pass over the words that the
// plan uses, and one over those that have to be 0. A plan that is lent can hold anything, so a
// number is tested before it is used as an index.
ghost use Rattle.std.specs.Prelude.{◌≡◌, suc, ◌<◌, ◌≤◌, length};
ghost use Rattle.kernels.specs.Kernels.{kernel_by};
ghost use Rattle.plan.specs.Limits.{max_regions, max_tasks, max_accesses};
ghost use Rattle.plan.specs.Layout.{plan_words, regions_of, tasks_of, accesses_of};
ghost use Rattle.plan.specs.Form.{counts_ok, rest_ok};
ghost use Rattle.form.specs.Changes.{change_count};
ghost use Rattle.form.specs.Scan.{kept, fresh_all_ok, changes_of, head_ok, takes_any, reads_ok, scan_ok, tasks_scan_ok, behind_regions_ok, behind_tasks_ok, Keeps, Open, Ready, Scanned, Answer};

use kernels::{Kernel, Permitted};
use plan::layout::{ACCESS_END, FIRST_RANK, TASK_WORDS, access_region};
use plan::limits::{MAX_ACCESSES, MAX_PASSES, MAX_RANKS, MAX_REGIONS, MAX_TASKS};
use plan::words::Plan;

// Whether passes, ranks, regions and tasks are within their limits.
fn counts_ok(plan: &Plan) -> bool
    ensures { result ≡ counts_ok plan.now }
{
    let passes = plan.passes();
    let ranks = plan.ranks();
    let regions = plan.regions();
    let tasks = plan.tasks() as u64;
    (passes <= MAX_PASSES)
        & ((1 <= ranks)
            & ((ranks <= MAX_RANKS)
                & ((1 <= regions)
                    & ((regions <= MAX_REGIONS) & ((1 <= tasks) & (tasks <= MAX_TASKS))))))
}

// Whether the rank and the number of accesses of task i are within their limits.
fn head_ok(plan: &Plan, i: usize) -> bool
    requires { i < max_tasks }
    ensures { result ≡ head_ok plan.now i }
{
    (plan.rank(i) < plan.ranks()) & (plan.access_count(i) <= MAX_ACCESSES)
}

// Whether a kernel permits any number of reads.
fn takes_any(number: u64) -> bool
    ensures { result ≡ takes_any (kernel_by number) }
{
    matches!(
        kernels::kernel_by(number),
        Some(Kernel {
            permitted: Permitted::Any,
            ..
        })
    )
}

// Whether task i has a kernel, and as many reads as it permits; they are counted only where that
// matters.
fn reads_ok(plan: &Plan, i: usize) -> bool
    requires { (i < max_tasks) × (accesses_of plan.now i ≤ max_accesses) }
    ensures { result ≡ reads_ok plan.now i }
{
    let kernel = plan.kernel(i);
    takes_any(kernel) || kernels::suits_kernel(kernel, plan.read_count(i))
}

// Whether the words behind the accesses of task i are 0.
fn rest_ok(plan: &Plan, i: usize) -> bool
    requires { (i < max_tasks) × (accesses_of plan.now i ≤ max_accesses) }
    ensures { result ≡ rest_ok plan.now i }
{
    for a in plan.access_count(i)..MAX_ACCESSES {
        if plan.access(i, a) != 0 {
            return false;
        }
    }
    true
}

// How many accesses of task i name a region that was last named on another rank, or not at all.
// `None` where an access has no mode or names a region that the task has named before. `last` has a
// word for each region, which tells the rank and the number of the last task that named it, and is
// brought up to date.
fn name_all(plan: &Plan, last: &mut [u64], i: usize) -> Option<u64>
    requires { Ready plan.now i last.old }
    ensures { Scanned (fresh_all_ok plan.now i) (changes_of plan.now i) (kept plan.now (suc i)) result last.new }
{
    let base = 256 * (plan.rank(i) + 1);
    let own = i as u64;
    let mut changes: u64 = 0;
    for a in 0..plan.access_count(i) {
        let word = plan.access(i, a);
        if word >= ACCESS_END {
            return None;
        }
        let g = access_region(word);
        let since = last[g].wrapping_sub(base);
        if since >= own {
            if since == own {
                return None;
            }
            changes += 1;
        }
        last[g] = base + own;
    }
    Some(changes)
}

// The changes of task i, which the plan has; `None` where it is not in form, but for its regions
// being the plan's. `last` is brought up to date.
fn scan_task(plan: &Plan, last: &mut [u64], i: usize) -> Option<u64>
    requires { Open plan.now i last.old × (i < tasks_of plan.now) }
    ensures { Scanned (scan_ok plan.now i) (changes_of plan.now i) (kept plan.now (suc i)) result last.new }
{
    if !head_ok(plan, i) {
        return None;
    }
    let changes = name_all(plan, last, i)?;
    if !rest_ok(plan, i) {
        return None;
    }
    if !reads_ok(plan, i) {
        return None;
    }
    Some(changes)
}

// The same of every task that the plan has.
fn scan_tasks(plan: &Plan, last: &mut [u64]) -> Option<u64>
    requires { Open plan.now 0 last.old }
    ensures { Scanned (tasks_scan_ok plan.now) (change_count plan.now) (kept plan.now (tasks_of plan.now)) result last.new }
{
    let mut changes: u64 = 0;
    for i in 0..plan.tasks() {
        changes += scan_task(plan, last, i)?;
    }
    Some(changes)
}

// Whether no region from the plan's number of regions on is named or has a starting value.
fn behind_regions(plan: &Plan, last: &[u64]) -> bool
    requires { (regions_of plan.now ≤ max_regions) × Keeps (kept plan.now (tasks_of plan.now)) last.now }
    ensures { result ≡ behind_regions_ok plan.now }
{
    let mut bits: u64 = 0;
    for g in plan.regions() as usize..128 {
        bits |= last[g] | plan.start(g);
    }
    bits == 0
}

// Whether the words behind the tasks are 0, two at a time.
fn behind_tasks(plan: &Plan) -> bool
    requires { tasks_of plan.now ≤ max_tasks }
    ensures { result ≡ behind_tasks_ok plan.now }
{
    let words = plan.words();
    let tasks = plan.tasks();
    let first = FIRST_RANK + TASK_WORDS * tasks;
    let half = 6 * (128 - tasks);
    let mut bits: u64 = 0;
    for k in 0..half {
        bits |= words[first + k] | words[first + half + k];
    }
    bits == 0
}

// How often an access's region was last named on another rank, or not at all; `None` where the
// words are not in form. The number of transfers is not tested.
pub(crate) fn words_ok(plan: &Plan) -> Option<u64>
    ensures { Answer plan.now result }
{
    if !counts_ok(plan) {
        return None;
    }
    let mut last = [0u64; 128];
    let changes = scan_tasks(plan, &mut last)?;
    if !(behind_regions(plan, &last) & behind_tasks(plan)) {
        return None;
    }
    Some(changes)
}
