// Bytes, words and counts at an offset, and the numbers of a line. What is read beyond the end of a
// slice is 0, and nothing is stored there, so that no caller has to know how long a slice is; sums
// wrap.
use plan::state::Count;

pub(crate) fn byte_at(text: &[u8], at: usize) -> u8 {
    text.get(at).copied().unwrap_or(0)
}

pub(crate) fn set_byte(text: &mut [u8], at: usize, byte: u8) {
    if at < text.len() {
        text[at] = byte;
    }
}

pub(crate) fn word_at(room: &[u64], at: usize) -> u64 {
    room.get(at).copied().unwrap_or(0)
}

pub(crate) fn set_word(room: &mut [u64], at: usize, word: u64) {
    if at < room.len() {
        room[at] = word;
    }
}

// Word i becomes i + n, for each i below `end`.
pub(crate) fn fill(room: &mut [u64], end: usize, n: u64) {
    for i in 0..end {
        set_word(room, i, (i as u64).wrapping_add(n));
    }
}

pub(crate) fn edge_at(edges: &[u32], at: usize) -> u64 {
    edges.get(at).copied().map_or(0, u64::from)
}

pub(crate) fn set_count(counts: &mut [Count], at: usize, count: Count) {
    if at < counts.len() {
        counts[at] = count;
    }
}

pub(crate) fn behind(a: usize, b: usize) -> usize {
    a.wrapping_add(b)
}

// Where the first `stop` stands from `at` on, or the text's end.
pub(crate) fn ahead(text: &[u8], at: usize, stop: u8) -> usize {
    for i in at..text.len() {
        if byte_at(text, i) == stop {
            return i;
        }
    }
    text.len()
}

// Where the field behind the one at `at` begins.
pub(crate) fn next_field(script: &[u8], at: usize) -> usize {
    behind(ahead(script, at, b' '), 1)
}

// A number with one more digit.
fn with_digit(n: u64, byte: u8) -> u64 {
    (n % 1844674407370955162 * 10).wrapping_add(u64::from(byte % 48))
}

// The number that the digits from `at` on write.
pub(crate) fn number_at(script: &[u8], at: usize) -> u64 {
    let mut n: u64 = 0;
    for i in at..script.len() {
        let byte = byte_at(script, i);
        if !byte.is_ascii_digit() {
            return n;
        }
        n = with_digit(n, byte);
    }
    n
}
