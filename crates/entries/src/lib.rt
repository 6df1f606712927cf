// A line of a journal, read in one pass over its bytes: no search for a tab comes first, and no
// digit is looked at twice. What a line may say is fixed by the crate journal.
#![tactic(auto)]

ghost use Rattle.std.specs.Prelude.{◌≡◌, ◌≤◌, false, length, drop};
ghost use Rattle.text.specs.Numbers.{is_digit};
ghost use Rattle.journal.specs.Lines.{step_of};
ghost use Rattle.entries.specs.Said.{said};
ghost use Rattle.entries.specs.Scan.{start_word, finish_word, head_is, head_digit, Begins, Run, Long, NumberAt, FieldAt, LastAt};

// What a line says that is a step.
#[derive(Clone, Copy, PartialEq, Eq, Debug)]
pub enum Entry {
    Start { item: u64, word: u64 },
    Finish { item: u64 },
}

// What digits write, and how many they are.
#[derive(Clone, Copy)]
struct Digits {
    value: u64,
    size: usize,
}

// A number, and the offset behind it.
#[derive(Clone, Copy)]
struct Numeral {
    value: u64,
    end: usize,
}

// Whether the byte at i is b: not beyond the end.
fn is_at(s: &[u8], i: usize, b: u8) -> bool
    ensures { result ≡ head_is b (drop i s.now) }
{
    if s.len() <= i {
        return false;
    }
    s[i] == b
}

// Whether the byte at i is a digit: not beyond the end.
fn digit_at(s: &[u8], i: usize) -> bool
    ensures { result ≡ head_digit (drop i s.now) }
{
    if s.len() <= i {
        return false;
    }
    (b'0' <= s[i]) & (s[i] <= b'9')
}

// The digits from `at` on, 19 at most: a word holds any such number, so no digit needs a test.
fn digits_at(s: &[u8], at: usize) -> Digits
    requires { at ≤ length s.now }
    ensures { Run s.now at result.value result.size }
{
    let room = (s.len() - at).min(19);
    let mut value: u64 = 0;
    for size in 0..room {
        let digit = std::num::wrapping_sub_u64(u64::from(s[at + size]), 48);
        if 9 < digit {
            return Digits { value, size };
        }
        value = value * 10 + digit;
    }
    Digits { value, size: room }
}

// The number whose first 19 digits stand from `at` to `end` and write `most`. Only the last of 20
// digits can lead above the largest word.
fn long_number(s: &[u8], at: usize, end: usize, most: u64) -> Option<Numeral>
    requires { Long s.now at most end }
    ensures { NumberAt s.now at result }
{
    if !digit_at(s, end) {
        return Some(Numeral { value: most, end });
    }
    if digit_at(s, end + 1) {
        return None;
    }
    let last = u64::from(s[end] - b'0');
    if (u64::MAX - last) / 10 < most {
        return None;
    }
    Some(Numeral {
        value: most * 10 + last,
        end: end + 1,
    })
}

// The number at an offset: 1 to 20 digits, with no leading zero except 0 itself, and at most the
// largest word.
fn number_at(s: &[u8], at: usize) -> Option<Numeral>
    requires { at ≤ length s.now }
    ensures { NumberAt s.now at result }
{
    let Digits { value, size } = digits_at(s, at);
    let end = at + size;
    if size == 0 {
        return None;
    }
    if size == 1 {
        return Some(Numeral { value, end });
    }
    if s[at] == b'0' {
        return None;
    }
    if size < 19 {
        return Some(Numeral { value, end });
    }
    long_number(s, at, end, value)
}

// The number at an offset with the byte b behind it, and the offset behind that.
fn field_at(s: &[u8], at: usize, b: u8) -> Option<Numeral>
    requires { (at ≤ length s.now) × (is_digit b ≡ false) }
    ensures { FieldAt s.now at b result }
{
    let Numeral { value, end } = number_at(s, at)?;
    if !is_at(s, end, b) {
        return None;
    }
    Some(Numeral {
        value,
        end: end + 1,
    })
}

// The number at an offset that ends the line.
fn last_at(s: &[u8], at: usize) -> Option<u64>
    requires { at ≤ length s.now }
    ensures { LastAt s.now at result }
{
    let Numeral { value, end } = number_at(s, at)?;
    if end != s.len() {
        return None;
    }
    Some(value)
}

// What a line says that begins with `start` and a tab.
fn start_of(line: &[u8]) -> Option<Entry>
    requires { Begins line.now 6 start_word }
    ensures { said result ≡ step_of line.now }
{
    let Numeral { value: item, end } = field_at(line, 6, b'\t')?;
    let word = last_at(line, end)?;
    Some(Entry::Start { item, word })
}

// What a line says that begins with `finish` and a tab.
fn finish_of(line: &[u8]) -> Option<Entry>
    requires { Begins line.now 7 finish_word }
    ensures { said result ≡ step_of line.now }
{
    let item = last_at(line, 7)?;
    Some(Entry::Finish { item })
}

// What a line says, handed in without its line feed: nothing where it is no step. A line in form is
// longer than its word.
pub fn entry_of(line: &[u8]) -> Option<Entry>
    ensures { said result ≡ step_of line.now }
{
    if line.len() < 7 {
        return None;
    }
    if &line[..6] == b"start\t".as_slice() {
        return start_of(line);
    }
    if &line[..7] == b"finish\t".as_slice() {
        return finish_of(line);
    }
    None
}
