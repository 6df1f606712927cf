// The search for a plan's transfers: their number, and for each access that writes a mask of the
// ranks that want its word, and one of those to which it goes by a wrapped transfer. The plan's
// words are in form but for the number of transfers.
#![tactic(auto)]

ghost use Rattle.std.specs.Prelude.{ℕ, ◌+◌, ◌*◌, ◌^◌, ◌≤◌, ◌<◌, ◌≡◌, true, false, cond, length, get_or, set, replicate};
ghost use Rattle.std.specs.Int.Bits.{bit_or};
ghost use Rattle.std.specs.Int.Count.{ones};
ghost use Rattle.body.specs.Transfers.{transfer_count};
ghost use Rattle.plan.specs.Limits.{max_tasks, max_ranks, max_regions, max_accesses};
ghost use Rattle.plan.specs.Layout.{plan_words, regions_of, tasks_of, accesses_of, access_region, body_of};
ghost use Rattle.plan.specs.Form.{words_ok};
ghost use Rattle.transfers.specs.Wanted.{plan_masks, all_masks, wanted_masks, wrapped_masks, ahead_masks, has_rank};
ghost use Rattle.transfers.specs.Search.{row_of, Narrow, Laid, Apart, Ready, access_base, no_writers, source_end, Sources, noted, noted_task, noted_tasks, claimed, marked, marked_task, marked_tasks, Raised, Tallied, late_of, closed_masks, closed_wrapped, closed_total, Closed};

use plan::layout::put_if;
use plan::limits::MAX_ACCESSES;
use plan::words::Plan;

// A mask for each access that a plan can have.
pub const PLAN_MASKS: usize = 1024;

// The access words of a task, and those of all tasks.
type Row = [u16; MAX_ACCESSES];

type Table = [Row; 128];

// The access words of task t.
fn row_of(plan: &Plan, t: usize) -> Row
    requires { Narrow plan.now t }
    ensures { result ≡ row_of plan.now t }
{
    let mut row = [0u16; MAX_ACCESSES];
    for a in 0..MAX_ACCESSES {
        row[a] = plan.access(t, a) as u16;
    }
    row
}

// How many accesses task t has. That they are at most 8 is said again for the compiler, which then
// unrolls the loop over them.
fn count_of(plan: &Plan, t: usize) -> usize
    requires { (t < max_tasks) × (accesses_of plan.now t ≤ max_accesses) }
    ensures { result ≡ accesses_of plan.now t }
{
    let count = plan.access_count(t);
    if count < MAX_ACCESSES {
        count
    } else {
        MAX_ACCESSES
    }
}

// plan::layout::MODE in 16 bits: on wider words the tests of an access cost the search more
// instructions.
const ROW_MODE: u16 = 128;

// The region of an access of a row.
fn region_of(access: u16) -> usize
    ensures { (result ≡ access_region access) × (result < max_regions) }
{
    (access % ROW_MODE) as usize
}

// The bit of a rank.
fn bit_of(rank: u64) -> u64
    requires { rank < max_ranks }
    ensures { (result ≡ 2 ^ rank) × (result ≤ 32768) }
{
    1 << rank
}

// What the number of an access of task t on this rank starts from.
fn base_of(t: usize, rank: u64) -> u64
    requires { (t < max_tasks) × (rank < max_ranks) }
    ensures { (result ≡ access_base t rank) × (result < 67108864) }
{
    (524288 * (t as u64)) | (65535 ^ bit_of(rank))
}

// Names each of the plan's regions as not written.
fn name_unwritten(last: &mut [u64], regions: usize)
    requires { (last.old ≡ replicate max_regions 0) × (regions ≤ max_regions) }
    ensures { last.new ≡ no_writers regions }
{
    for g in 0..regions {
        last[g] = 65536 * ((PLAN_MASKS + g) as u64) + 65535;
    }
}

// Sets the bit of a rank in the mask at `at`; answers 1, or 0 where it was set before.
// No bool: the loop that adds it up is then not unrolled, and takes a tenth more instructions.
fn set_bit(masks: &mut [u16], at: usize, rank: u64) -> u64
    requires { (at < length masks.old) × (rank < max_ranks) }
    ensures { Raised masks.old at rank masks.new × (result ≡ cond (has_rank (get_or masks.old at 0) rank) 0 1) × (result ≤ 1) }
{
    let mask = u64::from(masks[at]);
    if (mask >> rank) % 2 == 0 {
        masks[at] = (mask + bit_of(rank)) as u16;
        1
    } else {
        0
    }
}

// The ranks that read a region ahead, to which the word of the access that `source` names goes by a
// wrapped transfer. `forward` are those that read it in the pass in which it is written.
fn late_of(ahead: u64, source: u64, forward: u64) -> u64
    requires { (ahead < 65536) × (forward < 65536) }
    ensures { (result ≡ late_of ahead source forward) × (result < 65536) }
{
    ahead & source & (65535 ^ forward)
}

// The search so far: for each region its last writer, the masks of accesses and those of regions
// that are read ahead, and how many flags of accesses are set. The arrays are lent: held here, they
// keep the total in memory, and the search takes a tenth more instructions.
#[derive(Drop)]
struct Search<'a> {
    last: &'a mut [u64],
    masks: &'a mut [u16],
    ahead: &'a mut [u16],
    total: u64,
    ghost sources: { Sources last.now },
    ghost tallied: { Tallied masks.now ahead.now total },
    ghost fits: { (k : ℕ) → k < plan_masks → get_or masks.now k 0 < 65536 },
}

impl Search<'_> {
    ghost use Rattle.transfers.specs.State.{flags, source_of, ahead_of};

    // Sets the flag of a rank and of what is named `at`: an access, or behind the accesses a region
    // that no task has written yet.
    fn raise(&mut self, at: usize, rank: u64)
        requires { (at < all_masks) × (rank < max_ranks) }
        ensures same_reference { self.new.masks.ghost_name ≡ self.old.masks.ghost_name }
        ensures last { self.new.last.now ≡ self.old.last.now }
        ensures flags { flags self.new ≡ set (flags self.old) (16 * at + rank) 1 }
    {
        if at < PLAN_MASKS {
            self.total += set_bit(self.masks, at, rank);
        } else {
            set_bit(self.ahead, at - PLAN_MASKS, rank);
        }
    }

    // Sets the flag of a read by a rank of what `source` names, an access or a region that no task
    // has written yet.
    fn claim(&mut self, reads: bool, source: u64, rank: u64)
        requires { (source < source_end) × (rank < max_ranks) }
        ensures same_reference { self.new.masks.ghost_name ≡ self.old.masks.ghost_name }
        ensures last { self.new.last.now ≡ self.old.last.now }
        ensures flags { flags self.new ≡ claimed reads source rank (flags self.old) }
    {
        if reads & ((source >> rank) % 2 == 1) {
            self.raise((source / 65536) as usize, rank);
        }
    }

    // Sets the flags of the reads among a task's first `count` accesses, and notes their writes. No
    // two accesses have one region, so each read finds the writer before the task.
    fn visit_row(&mut self, row: &Row, count: usize, rank: u64, base: u64)
        requires { (count ≤ max_accesses) × (rank < max_ranks) × (base < 67108864) × Apart row.now count }
        ensures same_reference { self.new.masks.ghost_name ≡ self.old.masks.ghost_name }
        ensures last { self.new.last.now ≡ noted row.now base count self.old.last.now }
        ensures flags { flags self.new ≡ marked row.now self.old.last.now rank count (flags self.old) }
    {
        for a in 0..count {
            let access = row[a];
            let region = region_of(access);
            let source = self.last[region];
            self.claim(!(access / ROW_MODE == 1), source, rank);
            put_if(
                self.last,
                region,
                base + 65536 * (a as u64),
                !(access / ROW_MODE == 0),
            );
        }
    }

    // Sets the flags of the reads of task t, and notes its writes.
    fn visit_task(&mut self, plan: &Plan, table: &Table, t: usize)
        requires { Ready plan.now table.now t }
        ensures same_reference { self.new.masks.ghost_name ≡ self.old.masks.ghost_name }
        ensures last { self.new.last.now ≡ noted_task plan.now t self.old.last.now }
        ensures flags { flags self.new ≡ marked_task plan.now self.old.last.now t (flags self.old) }
    {
        let rank = plan.rank(t);
        self.visit_row(&table[t], count_of(plan, t), rank, base_of(t, rank));
    }

    // The same of the first n tasks, in body order.
    fn visit_tasks(&mut self, plan: &Plan, table: &Table, n: usize)
        requires { Laid plan.now table.now × (n ≤ tasks_of plan.now) }
        ensures same_reference { self.new.masks.ghost_name ≡ self.old.masks.ghost_name }
        ensures last { self.new.last.now ≡ noted_tasks plan.now n self.old.last.now }
        ensures flags { flags self.new ≡ marked_tasks plan.now self.old.last.now n (flags self.old) }
    {
        for t in 0..n {
            self.visit_task(plan, table, t);
        }
    }

    // Adds to the mask of an access the ranks of `late`, which it does not have, and notes them as
    // wrapped.
    fn serve(&mut self, wrapped: &mut [u16], at: usize, late: u64)
        requires { (length wrapped.old ≡ plan_masks) × (at < plan_masks) × (late < 65536)
            × ((q : ℕ) → q < max_ranks → has_rank late q ≡ true → has_rank (get_or self.old.masks.now at 0) q ≡ false) }
        ensures same_reference { self.new.masks.ghost_name ≡ self.old.masks.ghost_name }
        ensures kept { (self.new.last.now ≡ self.old.last.now) × (self.new.ahead.now ≡ self.old.ahead.now) }
        ensures served { (self.new.masks.now ≡ set self.old.masks.now at (bit_or (get_or self.old.masks.now at 0) late))
            × (wrapped.new ≡ set wrapped.old at late)
            × (self.new.total ≡ self.old.total + ones late) }
    {
        self.masks[at] = (u64::from(self.masks[at]) | late) as u16;
        wrapped[at] = late as u16;
        self.total += u64::from(late.count_ones());
    }

    // Serves the reads ahead of region g from the body's last writer of it, if there is one.
    fn close_region(&mut self, wrapped: &mut [u16], g: usize)
        requires { (length wrapped.old ≡ plan_masks) × (g < max_regions) }
        ensures same_reference { self.new.masks.ghost_name ≡ self.old.masks.ghost_name }
        ensures kept { (self.new.last.now ≡ self.old.last.now) × (self.new.ahead.now ≡ self.old.ahead.now) }
        ensures closed { (self.new.masks.now ≡ closed_masks (source_of self.old g) (ahead_of self.old g) self.old.masks.now)
            × (wrapped.new ≡ closed_wrapped (source_of self.old g) (ahead_of self.old g) self.old.masks.now wrapped.old)
            × (self.new.total ≡ closed_total (source_of self.old g) (ahead_of self.old g) self.old.masks.now self.old.total) }
    {
        let source = self.last[g];
        let at = (source / 65536) as usize;
        if at < PLAN_MASKS {
            let late = late_of(u64::from(self.ahead[g]), source, u64::from(self.masks[at]));
            if !(late == 0) {
                self.serve(wrapped, at, late);
            }
        }
    }

    // The same of all regions of the plan, one after another.
    fn close_regions(&mut self, plan: &Plan, wrapped: &mut [u16])
        requires { (words_ok plan.now ≡ true) × (self.old.last.now ≡ noted_tasks plan.now (tasks_of plan.now) (no_writers (regions_of plan.now)))
            × (self.old.ahead.now ≡ ahead_masks plan.now) × Closed plan.now 0 self.old.masks.now wrapped.old self.old.total }
        ensures same_reference { self.new.masks.ghost_name ≡ self.old.masks.ghost_name }
        ensures kept { (self.new.last.now ≡ self.old.last.now) × (self.new.ahead.now ≡ self.old.ahead.now) }
        ensures closed { Closed plan.now (regions_of plan.now) self.new.masks.now wrapped.new self.new.total }
    {
        let regions = plan.regions() as usize;
        for closed in 0..regions {
            self.close_region(wrapped, closed);
        }
    }
}

// The number of transfers, the masks of the ranks that want what each access writes, and those of
// the wrapped transfers among them. The tasks are visited once. A read looks for the last writer
// before it in the body. One on another rank gets a flag of the read's rank; where there is none,
// the region gets it: the task reads ahead. When all tasks are visited, the body's last writer of
// each region serves the reads ahead: those of other ranks that have no flag there yet get its word
// by a wrapped transfer.
pub fn find_transfers(plan: &Plan, masks: &mut [u16], wrapped: &mut [u16]) -> u64
    requires { (words_ok plan.now ≡ true) × (masks.old ≡ replicate plan_masks 0) × (wrapped.old ≡ replicate plan_masks 0) }
    ensures { (result ≡ transfer_count (body_of plan.now))
        × (masks.new ≡ wanted_masks plan.now)
        × (wrapped.new ≡ wrapped_masks plan.now) }
{
    let tasks = plan.tasks();
    let mut table = [[0u16; MAX_ACCESSES]; 128];
    for t in 0..tasks {
        table[t] = row_of(plan, t);
    }
    let mut last = [0u64; 128];
    name_unwritten(&mut last, plan.regions() as usize);
    let mut ahead = [0u16; 128];
    let mut search = Search {
        last: &mut last,
        masks,
        ahead: &mut ahead,
        total: 0,
    };
    search.visit_tasks(plan, &table, tasks);
    search.close_regions(plan, wrapped);
    search.total
}

// The number of transfers. Inlined, it costs its callers registers, also where they do not call it.
#[inline(never)]
pub fn transfer_count(plan: &Plan) -> u64
    requires { words_ok plan.now ≡ true }
    ensures { result ≡ transfer_count (body_of plan.now) }
{
    let mut masks = [0u16; PLAN_MASKS];
    let mut wrapped = [0u16; PLAN_MASKS];
    find_transfers(plan, &mut masks, &mut wrapped)
}
