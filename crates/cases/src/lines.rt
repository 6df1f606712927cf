// The lines of the script.
use crate::lent::{
    LENT_COUNTS, LENT_PLAN, LENT_VALUES, TEXT_END, call_in, print, print_word, read_plan,
};
use crate::numbers::{
    ahead, behind, byte_at, fill, next_field, number_at, set_byte, set_count, set_word, word_at,
};
use itoa::Buffer;
use plan::state::Count;
use std::io;

// The byte of a plan text that a byte of the script stands for.
fn text_byte(byte: u8) -> u8 {
    match byte {
        b' ' => b'\t',
        b'/' => b'\n',
        b'~' => b' ',
        b'^' => b'\r',
        b'!' => 0,
        b'%' => 200,
        _ => byte,
    }
}

// A function that puts something puts it behind the plan text, which ends at `at`, and answers
// where the text ends then.
fn put_digits(text: &mut [u8], at: usize, digits: &[u8]) -> usize {
    let mut to = at;
    for &digit in digits {
        set_byte(text, to, digit);
        to = behind(to, 1);
    }
    to
}

fn put_number(text: &mut [u8], at: usize, n: u64) -> usize {
    let mut digits = Buffer::new();
    put_digits(text, at, digits.format(n).as_bytes())
}

fn put_byte(text: &mut [u8], at: usize, byte: u8) -> usize {
    set_byte(text, at, text_byte(byte));
    behind(at, 1)
}

// Puts what a byte of the script stands for, with `turn` turns before this one.
fn put_glyph(text: &mut [u8], at: usize, byte: u8, turn: u64) -> usize {
    match byte {
        b'#' => put_number(text, at, turn),
        b'$' => put_number(text, at, turn.wrapping_add(1)),
        _ => put_byte(text, at, byte),
    }
}

// Puts script[first..end].
fn put_part(
    text: &mut [u8],
    at: usize,
    script: &[u8],
    first: usize,
    end: usize,
    turn: u64,
) -> usize {
    let mut to = at;
    for i in first..end {
        to = put_glyph(text, to, byte_at(script, i), turn);
    }
    to
}

fn put_times(
    text: &mut [u8],
    at: usize,
    script: &[u8],
    first: usize,
    end: usize,
    times: u64,
) -> usize {
    let mut to = at;
    for turn in 0..times {
        to = put_part(text, to, script, first, end, turn);
    }
    to
}

fn put_text(text: &mut [u8], room: &mut [u64], script: &[u8], at: usize) {
    let number = next_field(script, at);
    let first = next_field(script, number);
    let end = ahead(script, at, b'\n');
    let to = put_times(
        text,
        word_at(room, TEXT_END) as usize,
        script,
        first,
        end,
        number_at(script, number),
    );
    set_word(room, TEXT_END, to as u64);
}

fn print_line(rt: &impl Print, script: &[u8], at: usize) -> io::Result<()> {
    let end = behind(ahead(script, at, b'\n'), 1);
    if end > script.len() {
        return Ok(());
    }
    if at > end {
        return Ok(());
    }
    print(rt, &script[at..end])
}

// Whether a line begins at `at`.
fn begins(script: &[u8], at: usize) -> bool {
    (at == 0) | (byte_at(script, at.wrapping_sub(1)) == b'\n')
}

// The numbers from the first of a line on. A line that has fewer than three does not use those of
// the next.
#[derive(Clone, Copy)]
struct Fields {
    first: u64,
    second: u64,
    third: u64,
}

fn fields_of(script: &[u8], at: usize) -> Fields {
    let first = next_field(script, at);
    let second = next_field(script, first);
    let third = next_field(script, second);
    Fields {
        first: number_at(script, first),
        second: number_at(script, second),
        third: number_at(script, third),
    }
}

fn lend(room: &mut [u64], fields: Fields) {
    set_word(room, LENT_PLAN, fields.first);
    set_word(room, LENT_COUNTS, fields.second);
    set_word(room, LENT_VALUES, fields.third);
}

// A line that changes or shows something lent, or makes a call.
fn play_numbers(
    rt: &impl Print,
    letter: u8,
    room: &mut [u64],
    counts: &mut [Count],
    values: &mut [u64],
    fields: Fields,
) -> io::Result<()> {
    match letter {
        b'l' => lend(room, fields),
        b'w' => set_word(room, fields.first as usize, fields.second),
        b'j' => fill(room, LENT_PLAN, fields.first),
        b'a' => print_word(rt, room, fields.first)?,
        b'c' => set_count(counts, fields.first as usize, fields.second),
        _ => call_in(rt, letter, room, counts, values, fields.first)?,
    }
    Ok(())
}

// The line at `at`, where one begins there.
fn play_line(
    rt: &impl Print,
    script: &[u8],
    text: &mut [u8],
    room: &mut [u64],
    counts: &mut [Count],
    values: &mut [u64],
    at: usize,
) -> io::Result<()> {
    if !begins(script, at) {
        return Ok(());
    }
    let letter = byte_at(script, at);
    match letter {
        b'#' => print_line(rt, script, at)?,
        b't' => put_text(text, room, script, at),
        b'p' => read_plan(rt, text, room)?,
        b'\n' => {}
        _ => play_numbers(rt, letter, room, counts, values, fields_of(script, at))?,
    }
    Ok(())
}

// Plays all lines.
pub(crate) fn play(
    rt: &impl Print,
    script: &[u8],
    text: &mut [u8],
    room: &mut [u64],
    counts: &mut [Count],
    values: &mut [u64],
) -> io::Result<()> {
    for at in 0..script.len() {
        play_line(rt, script, text, room, counts, values, at)?;
    }
    Ok(())
}
