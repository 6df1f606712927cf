// Reading a lent text into a lent plan: line after line, each record's tests in the paper's order,
// its words stored where it passes them all. Where the words of a plan stand is in
// plan/src/layout.rt. What a line says is no matter of this crate.
#![tactic(auto)]

ghost use Rattle.std.specs.Prelude.{◌≡◌, true, List, ℕ, ◌≤◌, ◌<◌, eqb, length, replicate};
ghost use Rattle.text.specs.declared.Record.{Record};
ghost use Rattle.finite.specs.Below.{any_below};
ghost use Rattle.plan.specs.Layout.{plan_words, region_at, regions_of, tasks_of};
ghost use Rattle.plan.specs.Form.{in_form, words_ok};
ghost use Rattle.plan.specs.Limits.{max_accesses, max_bytes, max_kernel, max_regions, max_tasks};
ghost use Rattle.reading.specs.Plan.{mode_word};
ghost use Rattle.reading.specs.Reading.{below, lies, read_of, refused};
ghost use Rattle.reader.specs.Answer.{Reads};
ghost use Rattle.reader.specs.Machine.{end_of, move, open_count};
ghost use Rattle.reader.specs.Steps.{Bounds, Tells, Walked, checked, last_of, move_line, move_of, phase_number, told, value};

use form::in_form;
use plan::layout::{
    FIRST_ACCESS, FIRST_CONSTANT, FIRST_COUNT, FIRST_KERNEL, FIRST_RANK, FIRST_START, MODE, PASSES,
    PLAN_WORDS, RANKS, REGIONS, TASK_WORDS, TASKS,
};
use plan::limits::{
    MAX_ACCESSES, MAX_BYTES, MAX_PASSES, MAX_RANKS, MAX_REGIONS, MAX_TASKS, MAX_WORD,
};
use plan::words::Plan;
use text::{Line, LineReader, Mode, Number, Record};

// What reading answers: refusal 0 and line 0 where the text is accepted.
#[repr(C)]
#[derive(Clone, Copy)]
pub struct Answer {
    pub refusal: u64,
    pub line: u64,
}

// Why a text is refused. A refusal's number is the paper's, and the one that a C host gets.
#[derive(Clone, Copy, PartialEq, Eq, Debug)]
enum TextRefusal {
    Unformed = 1,
    Misplaced = 2,
    Exceeds = 3,
    Reopened = 4,
    Unopened = 5,
    NamedTwice = 6,
    Unended = 7,
    NoTask = 8,
    Unsuited = 9,
    TooMany = 10,
    TooShort = 11,
}

impl From<TextRefusal> for u64 {
    ghost use Rattle.std.specs.Prelude.{◌≡◌};
    ghost use Rattle.reader.specs.Steps.{refusal_number};

    ghost from_gives = { λ refusal result. result ≡ refusal_number refusal };

    fn from(refusal: TextRefusal) -> u64
        ensures { result ≡ refusal_number refusal }
    {
        refusal as u64
    }
}

// How far the records so far lead.
#[derive(Clone, Copy, PartialEq, Eq, Debug)]
enum Phase {
    NothingRead,
    NoTaskOpen,
    TaskOpen,
}

// A number of the text that a word holds.
fn value(x: Number) -> Result<u64, TextRefusal>
    ensures { result ≡ value x }
{
    match x {
        Number::Value(v) => Ok(v),
        Number::TooLarge | Number::Malformed => Err(TextRefusal::Exceeds),
    }
}

// A number of the text that is below a limit.
fn below(limit: u64, x: Number) -> Result<u64, TextRefusal>
    ensures { result ≡ checked (below limit x) x }
{
    let v = value(x)?;
    if v < limit {
        return Ok(v);
    }
    Err(TextRefusal::Exceeds)
}

// A number of the text that lies from the lowest to the highest.
fn within(lowest: u64, highest: u64, x: Number) -> Result<u64, TextRefusal>
    ensures { result ≡ checked (lies lowest highest x) x }
{
    let v = value(x)?;
    if (lowest <= v) & (v <= highest) {
        return Ok(v);
    }
    Err(TextRefusal::Exceeds)
}

// A number of the text that is a kernel's.
fn kernel(x: Number) -> Result<u64, TextRefusal>
    ensures { result ≡ checked (lies 0 max_kernel x) x }
{
    let v = value(x)?;
    if kernels::is_kernel(v) {
        return Ok(v);
    }
    Err(TextRefusal::Exceeds)
}

// The mode in an access word.
fn mode_word(mode: Mode) -> u64
    ensures { (result ≡ mode_word mode) × (result ≤ 2) }
{
    match mode {
        Mode::In => 0,
        Mode::Out => 1,
        Mode::Inout => 2,
    }
}

// Whether one of the n accesses of task t names the region.
fn is_named(plan: &Plan, t: usize, n: usize, region: u64) -> bool
    requires { (t < max_tasks) × (n ≤ max_accesses) }
    ensures { result ≡ any_below n (λ a. eqb region (region_at plan.now t a)) }
{
    let mut found = false;
    for a in 0..n {
        found = found | (region == plan.access(t, a) % MODE);
    }
    found
}

// The first line: its numbers are the first words.
fn take_loop(
    words: &mut [u64],
    passes: Number,
    ranks: Number,
    regions: Number,
) -> Result<Phase, TextRefusal>
    requires { length words.old ≡ plan_words }
    ensures { (f : List ℕ) → move_of result f words.new ≡ move 0 f words.old (Record.Loop passes ranks regions) }
{
    let passes = within(0, MAX_PASSES, passes)?;
    let ranks = within(1, MAX_RANKS, ranks)?;
    let regions = within(1, MAX_REGIONS, regions)?;
    words[PASSES] = passes;
    words[RANKS] = ranks;
    words[REGIONS] = regions;
    Ok(Phase::NoTaskOpen)
}

// A starting value. A flag is 1 where a `start` named its region.
fn take_start(
    named: &mut [u64],
    words: &mut [u64],
    region: Number,
    value: Number,
) -> Result<Phase, TextRefusal>
    requires { (length named.old ≡ max_regions) × (length words.old ≡ plan_words) × (regions_of words.old ≤ max_regions) }
    ensures { move_of result named.new words.new ≡ move 1 named.old words.old (Record.Start region value) }
{
    if words[TASKS] != 0 {
        return Err(TextRefusal::Misplaced);
    }
    let g = below(words[REGIONS], region)? as usize;
    let start = within(0, MAX_WORD, value)?;
    if named[g] == 1 {
        return Err(TextRefusal::NamedTwice);
    }
    named[g] = 1;
    words[FIRST_START + g] = start;
    Ok(Phase::NoTaskOpen)
}

// A task opens: its words are those behind the tasks that the plan has.
fn take_begin(
    words: &mut [u64],
    rank: Number,
    kernel: Number,
    constant: Number,
) -> Result<Phase, TextRefusal>
    requires { length words.old ≡ plan_words }
    ensures { (f : List ℕ) → move_of result f words.new ≡ move 1 f words.old (Record.Begin rank kernel constant) }
{
    let rank = below(words[RANKS], rank)?;
    let kernel = self::kernel(kernel)?;
    let constant = within(0, MAX_WORD, constant)?;
    let tasks = words[TASKS];
    if tasks >= MAX_TASKS {
        return Err(TextRefusal::TooMany);
    }
    let t = tasks as usize;
    words[TASKS] = tasks + 1;
    words[FIRST_RANK + TASK_WORDS * t] = rank;
    words[FIRST_KERNEL + TASK_WORDS * t] = kernel;
    words[FIRST_CONSTANT + TASK_WORDS * t] = constant;
    Ok(Phase::TaskOpen)
}

// An access of the task that is open.
fn take_access(words: &mut [u64], mode: Mode, region: Number) -> Result<Phase, TextRefusal>
    requires { (length words.old ≡ plan_words) × (regions_of words.old ≤ max_regions) × (1 ≤ tasks_of words.old)
        × (tasks_of words.old ≤ max_tasks) × (open_count words.old ≤ max_accesses) }
    ensures { (f : List ℕ) → move_of result f words.new ≡ move 2 f words.old (Record.Access mode region) }
{
    let g = below(words[REGIONS], region)?;
    let t = words[TASKS] as usize - 1;
    let n = words[FIRST_COUNT + TASK_WORDS * t] as usize;
    if n >= MAX_ACCESSES {
        return Err(TextRefusal::TooMany);
    }
    if is_named(&Plan::new(words), t, n, g) {
        return Err(TextRefusal::NamedTwice);
    }
    words[FIRST_ACCESS + TASK_WORDS * t + n] = g + MODE * mode_word(mode);
    words[FIRST_COUNT + TASK_WORDS * t] = n as u64 + 1;
    Ok(Phase::TaskOpen)
}

// The task that is open ends: its words stand already.
fn take_end(plan: &Plan) -> Result<Phase, TextRefusal>
    requires { (1 ≤ tasks_of plan.now) × (tasks_of plan.now ≤ max_tasks) × (open_count plan.now ≤ max_accesses) }
    ensures { (f : List ℕ) → move_of result f plan.now ≡ move 2 f plan.now Record.End }
{
    let t = plan.tasks() - 1;
    if kernels::suits_kernel(plan.kernel(t), plan.read_count(t)) {
        return Ok(Phase::NoTaskOpen);
    }
    Err(TextRefusal::Unsuited)
}

// What a record does in a phase.
fn take_record(
    phase: Phase,
    record: Record,
    named: &mut [u64],
    words: &mut [u64],
) -> Result<Phase, TextRefusal>
    requires { Bounds (phase_number phase) named.old words.old }
    ensures { move_of result named.new words.new ≡ move (phase_number phase) named.old words.old «record» }
{
    match phase {
        Phase::NothingRead => match record {
            Record::Loop {
                passes,
                ranks,
                regions,
            } => take_loop(words, passes, ranks, regions),
            Record::Unreadable => Err(TextRefusal::Unformed),
            _ => Err(TextRefusal::Misplaced),
        },
        Phase::NoTaskOpen => match record {
            Record::Start { region, value } => take_start(named, words, region, value),
            Record::Begin {
                rank,
                kernel,
                constant,
            } => take_begin(words, rank, kernel, constant),
            Record::Loop { .. } => Err(TextRefusal::Misplaced),
            Record::Access { .. } | Record::End => Err(TextRefusal::Unopened),
            Record::Unreadable => Err(TextRefusal::Unformed),
        },
        Phase::TaskOpen => match record {
            Record::Access { mode, region } => take_access(words, mode, region),
            Record::End => take_end(&Plan::new(words)),
            Record::Begin { .. } => Err(TextRefusal::Reopened),
            Record::Loop { .. } | Record::Start { .. } => Err(TextRefusal::Misplaced),
            Record::Unreadable => Err(TextRefusal::Unformed),
        },
    }
}

// What a line does in a phase, or bytes that no line feed ends.
fn take_line(
    phase: Phase,
    found: Option<Line>,
    named: &mut [u64],
    words: &mut [u64],
) -> Result<Phase, TextRefusal>
    requires { Bounds (phase_number phase) named.old words.old }
    ensures { move_of result named.new words.new ≡ move_line (phase_number phase) found named.old words.old }
{
    match found {
        Some(line) => take_record(phase, line.says, named, words),
        None => Err(TextRefusal::Unformed),
    }
}

// A refusal, and its line.
#[derive(Clone, Copy, PartialEq, Eq, Debug)]
struct Refused {
    why: TextRefusal,
    line: u64,
}

// Reads the lines of a text that is not too long into flags and words that are zeros: how far they
// lead, and the line behind them.
fn read_lines(text: &[u8], named: &mut [u64], words: &mut [u64]) -> Result<(Phase, u64), Refused>
    requires { (length text.now ≤ max_bytes) × (named.old ≡ replicate max_regions 0) × (words.old ≡ replicate plan_words 0) }
    ensures { Walked text.now result words.new }
{
    let mut reader = LineReader::new(text);
    let mut phase = Phase::NothingRead;
    let mut line = 1;
    while reader.more() {
        let found = reader.next();
        match take_line(phase, found, named, words) {
            Ok(then) => phase = then,
            Err(why) => return Err(Refused { why, line }),
        }
        line += 1;
    }
    Ok((phase, line))
}

// After the last line. Whether the words are in form tells there whether their transfers are few
// enough.
fn at_end(phase: Phase, words: &[u64]) -> Result<(), TextRefusal>
    requires { (length words.now ≡ plan_words) × (phase_number phase ≡ 1 → 1 ≤ tasks_of words.now → words_ok words.now ≡ true) }
    ensures { (line : ℕ) → last_of result line words.now ≡ end_of line (phase_number phase) words.now }
{
    match phase {
        Phase::NothingRead => return Err(TextRefusal::Misplaced),
        Phase::TaskOpen => return Err(TextRefusal::Unended),
        Phase::NoTaskOpen => {}
    }
    if words[TASKS] == 0 {
        return Err(TextRefusal::NoTask);
    }
    if !in_form(words) {
        return Err(TextRefusal::TooMany);
    }
    Ok(())
}

// Reads a text into words that are zeros.
fn read_words(text: &[u8], words: &mut [u64]) -> Result<(), Refused>
    requires { words.old ≡ replicate plan_words 0 }
    ensures { told result words.new ≡ read_of text.now }
{
    if text.len() > MAX_BYTES {
        return Err(Refused {
            why: TextRefusal::TooMany,
            line: 0,
        });
    }
    let mut named = [0u64; 128];
    let (phase, line) = read_lines(text, &mut named, words)?;
    match at_end(phase, words) {
        Ok(()) => Ok(()),
        Err(why) => Err(Refused { why, line }),
    }
}

// Reads a text into the words of a plan. A refused text leaves zeros.
fn read_into(text: &[u8], words: &mut [u64]) -> Answer
    requires { length words.old ≡ plan_words }
    ensures { Tells (read_of text.now) result words.new }
{
    words.fill(0);
    match read_words(text, words) {
        Ok(()) => Answer {
            refusal: 0,
            line: 0,
        },
        Err(refused) => {
            words.fill(0);
            Answer {
                refusal: u64::from(refused.why),
                line: refused.line,
            }
        }
    }
}

// Reads a text into a plan of at least 1,668 words; those behind them stay.
pub fn read(text: &[u8], plan: &mut [u64]) -> Answer
    ensures { Reads text.now plan.old result plan.new }
{
    if plan.len() < PLAN_WORDS {
        return Answer {
            refusal: u64::from(TextRefusal::TooShort),
            line: 0,
        };
    }
    read_into(text, &mut plan[..PLAN_WORDS])
}
