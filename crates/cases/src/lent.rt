// The calls, with as much of the lent slices as the script says, and what they answer, printed.
use crate::numbers::{behind, edge_at, set_word, word_at};
use calls::Answer;
use plan::code::{SEND, TASK, item_kind, item_rank};
use plan::state::{Count, EDGE_WORDS, MAX_ITEMS};
use std::io;

// Where things stand in the room: the plan at its start, and words behind it that no call may
// change; then how many words of the plan, counts and values are lent, and where the plan text at
// hand ends.
pub(crate) const LENT_PLAN: usize = 1700;

pub(crate) const LENT_COUNTS: usize = 1701;

pub(crate) const LENT_VALUES: usize = 1702;

pub(crate) const TEXT_END: usize = 1703;

pub(crate) fn print(rt: &impl Print, bytes: &[u8]) -> io::Result<()> {
    rt.write_all(bytes)
}

fn print_two(rt: &impl Print, name: &str, a: u64, b: u64) -> io::Result<()> {
    println!(rt; "{name} {a} {b}")
}

fn print_three(rt: &impl Print, name: &str, a: u64, b: u64, c: u64) -> io::Result<()> {
    println!(rt; "{name} {a} {b} {c}")
}

// Word `at` of the plan.
pub(crate) fn print_word(rt: &impl Print, room: &[u64], at: u64) -> io::Result<()> {
    print_two(rt, "at", at, word_at(room, at as usize))
}

// Reads text[..n] into the plan.
fn read_text(
    rt: &impl Print,
    text: &[u8],
    n: usize,
    plan: &mut [u64],
    lent: usize,
) -> io::Result<()> {
    if n > text.len() {
        return Ok(());
    }
    if lent > plan.len() {
        return Ok(());
    }
    let answer = taskiter::taskiter_read(&text[..n], &mut plan[..lent]);
    print_two(rt, "plan", answer.refusal, answer.line)
}

// Reads the plan text at hand.
pub(crate) fn read_plan(rt: &impl Print, text: &[u8], room: &mut [u64]) -> io::Result<()> {
    let end = word_at(room, TEXT_END) as usize;
    let lent = word_at(room, LENT_PLAN) as usize;
    set_word(room, TEXT_END, 0);
    read_text(rt, text, end, room, lent)
}

fn code_at(codes: &[u16], at: usize) -> u64 {
    codes.get(at).copied().map_or(0, u64::from)
}

// Prints an item: its number, kind and rank.
fn print_item(rt: &impl Print, item: u64, code: u64) -> io::Result<()> {
    let kind = item_kind(code);
    let name = match kind {
        TASK => "task",
        SEND => "send",
        _ => "receive",
    };
    let rank = item_rank(code);
    println!(rt; "item {item} {name} {rank}")
}

fn print_items(rt: &impl Print, codes: &[u16], items: u64) -> io::Result<()> {
    for item in 0..items {
        print_item(rt, item, code_at(codes, item as usize))?;
    }
    Ok(())
}

fn print_edge(rt: &impl Print, edges: &[u32], k: usize) -> io::Result<()> {
    let at = behind(k, behind(k, k));
    let source = edge_at(edges, at);
    let target = edge_at(edges, behind(at, 1));
    print_three(rt, "edge", source, target, edge_at(edges, behind(at, 2)))
}

fn print_edges(rt: &impl Print, edges: &[u32], n: u64) -> io::Result<()> {
    for k in 0..n {
        print_edge(rt, edges, k as usize)?;
    }
    Ok(())
}

// The items of the plan.
fn list_items(rt: &impl Print, plan: &[u64]) -> io::Result<()> {
    let mut codes = [0u16; MAX_ITEMS];
    let answer = taskiter::taskiter_items(plan, &mut codes);
    print_two(rt, "items", answer.refusal, answer.number)?;
    print_items(rt, &codes, answer.number)
}

// The edges of the plan.
fn list_edges(rt: &impl Print, plan: &[u64]) -> io::Result<()> {
    let mut edges = [0u32; EDGE_WORDS];
    let answer = taskiter::taskiter_edges(plan, &mut edges);
    print_two(rt, "edges", answer.refusal, answer.number)?;
    print_edges(rt, &edges, answer.number)
}

fn print_step(rt: &impl Print, name: &str, number: u64, answer: Answer) -> io::Result<()> {
    print_three(rt, name, number, answer.refusal, answer.word)
}

fn print_open(rt: &impl Print, refusal: u64) -> io::Result<()> {
    println!(rt; "open {refusal}")
}

// Makes the call whose name begins with a letter, and prints what it answers.
fn call(
    rt: &impl Print,
    letter: u8,
    plan: &[u64],
    counts: &mut [Count],
    values: &mut [u64],
    number: u64,
) -> io::Result<()> {
    match letter {
        b'i' => list_items(rt, plan),
        b'e' => list_edges(rt, plan),
        b'o' => print_open(rt, taskiter::taskiter_open(plan, counts, values)),
        b's' => print_step(
            rt,
            "start",
            number,
            taskiter::taskiter_start(plan, counts, values, number),
        ),
        b'f' => print_step(
            rt,
            "finish",
            number,
            taskiter::taskiter_finish(plan, counts, values, number),
        ),
        b'r' => print_step(
            rt,
            "result",
            number,
            taskiter::taskiter_result(plan, counts, values, number),
        ),
        _ => println!(rt; "?"),
    }
}

// The same with slices of these lengths.
fn call_lent(
    rt: &impl Print,
    letter: u8,
    plan: &[u64],
    p: usize,
    counts: &mut [Count],
    c: usize,
    values: &mut [u64],
    v: usize,
    number: u64,
) -> io::Result<()> {
    if p > plan.len() {
        return Ok(());
    }
    if c > counts.len() {
        return Ok(());
    }
    if v > values.len() {
        return Ok(());
    }
    call(
        rt,
        letter,
        &plan[..p],
        &mut counts[..c],
        &mut values[..v],
        number,
    )
}

// The same with as much of each slice as is lent.
pub(crate) fn call_in(
    rt: &impl Print,
    letter: u8,
    room: &[u64],
    counts: &mut [Count],
    values: &mut [u64],
    number: u64,
) -> io::Result<()> {
    let p = word_at(room, LENT_PLAN) as usize;
    let c = word_at(room, LENT_COUNTS) as usize;
    let v = word_at(room, LENT_VALUES) as usize;
    call_lent(rt, letter, room, p, counts, c, values, v, number)
}
