// The plan text's lines: what the line at an offset says, and where the next one starts. A line
// says a record, whose word and numbers are its fields. The order of the records and the limits of
// their numbers are not looked at here.
#![tactic(auto)]

ghost use Rattle.std.specs.Prelude.{◌≡◌, ◌+◌, ◌*◌, ◌/◌, ◌≤◌, true, [], length, take, drop, nat_lt};
ghost use Rattle.std.specs.Int.Count.{count_trailing_zeros};
ghost use Rattle.text.specs.Text.{before, bytes};
ghost use Rattle.text.specs.Numbers.{all_digits, no_leading_zero, decimal_after, well_formed, number_of};
ghost use Rattle.text.specs.Words.{alike, keyword_of};
ghost use Rattle.text.specs.Records.{is, first_field, split, sound, one_of, two_of, three_of, loop_of, begin_of, start_of, access_of, by_word, record_of, line_at, record_at, next_of, next_at};

// Eight bytes as one word, the first lowest.
fn word_of(a: u8, b: u8, c: u8, d: u8, e: u8, f: u8, g: u8, h: u8) -> u64
    ensures { result ≡ a + 256 * (b + 256 * (c + 256 * (d + 256 * (e + 256 * (f + 256 * (g + 256 * h)))))) }
{
    a as u64
        + b as u64 * 0x100
        + c as u64 * 0x1_0000
        + d as u64 * 0x100_0000
        + e as u64 * 0x1_0000_0000
        + f as u64 * 0x100_0000_0000
        + g as u64 * 0x1_0000_0000_0000
        + h as u64 * 0x100_0000_0000_0000
}

// The eight bytes from i on as one word: LLVM makes one load of it.
fn word_at(s: &[u8], i: usize) -> u64
    requires { i + 8 ≤ length s.now }
    ensures { bytes 8 result ≡ take 8 (drop i s.now) }
{
    word_of(
        s[i],
        s[i + 1],
        s[i + 2],
        s[i + 3],
        s[i + 4],
        s[i + 5],
        s[i + 6],
        s[i + 7],
    )
}

// The byte 1 on each of a word's eight places.
const ONES: u64 = 0x0101_0101_0101_0101;

// The top bit of each of a word's eight bytes.
const TOP_BITS: u64 = 0x8080_8080_8080_8080;

// Marks the first byte of w that is b, by a bit of it. No bit below is set, those above mean
// nothing, and the answer is 0 where no byte is b.
fn marks(w: u64, b: u8) -> u64
    ensures { count_trailing_zeros 64 result / 8 ≡ before (is b) (bytes 8 w) }
{
    let x = w ^ (b as u64 * ONES);
    std::num::wrapping_sub_u64(x, ONES) & !x & TOP_BITS
}

// Where the first b stands from `at` on, byte by byte: the end where there is none.
fn find_from(s: &[u8], at: usize, b: u8) -> usize
    requires { at ≤ length s.now }
    ensures { result ≡ at + before (is b) (drop at s.now) }
{
    // an index: tried `position` on `&s[at..]`: 43.7 instructions a byte of short lines, limit 42
    for i in at..s.len() {
        if s[i] == b {
            return i;
        }
    }
    s.len()
}

// How many bytes stand before the first b, or all of them: the one search for a tab or a line feed.
// It goes by words of eight bytes, and byte by byte where fewer are left.
fn find(s: &[u8], b: u8) -> usize
    ensures { result ≡ before (is b) s.now }
{
    let mut i = 0;
    // an index: a chain has no words of eight bytes
    while i + 8 <= s.len() {
        let m = marks(word_at(s, i), b);
        if m != 0 {
            return i + (u64::trailing_zeros(m) / 8) as usize;
        }
        i += 8;
    }
    find_from(s, i, b)
}

// The first field, as a part of the caller's text: the bytes before the first tab, or all of them.
fn first_field(t: &[u8]) -> &[u8]
    ensures { result.now ≡ first_field t.now }
{
    let n = find(t, b'\t');
    &t[..n]
}

// What stands behind the first n bytes: nothing where there are no more.
fn behind(t: &[u8], n: usize) -> &[u8]
    ensures { result.now ≡ drop n t.now }
{
    if t.len() < n {
        return &t[..0];
    }
    &t[n..]
}

// What a field says as a number: TooLarge is in form, and above the largest word.
// No Option: a line with a number too large is in form, and refused by another number.
#[derive(Clone, Copy, PartialEq, Eq, Debug)]
pub enum Number {
    Value(u64),
    TooLarge,
    Malformed,
}

// Whether every byte is a digit.
fn all_digits(f: &[u8]) -> bool
    ensures { result ≡ all_digits f.now }
{
    f.iter().all(|&c| (b'0' <= c) & (c <= b'9'))
}

// Whether the first of several bytes is no 0.
fn no_leading_zero(f: &[u8]) -> bool
    ensures { result ≡ no_leading_zero f.now }
{
    if f.len() < 2 {
        return true;
    }
    f[0] != b'0'
}

// Whether a field is 1 to 20 digits, with no leading zero except 0 itself.
fn well_formed(f: &[u8]) -> bool
    ensures { result ≡ well_formed f.now }
{
    let n = f.len();
    (1 <= n) & ((n <= 20) & (no_leading_zero(f) & all_digits(f)))
}

// The number that at most 19 digits write: a word holds any such number, so no digit needs a test.
fn decimal(f: &[u8]) -> u64
    requires { (length f.now ≤ 19) × (all_digits f.now ≡ true) }
    ensures { result ≡ decimal_after 0 f.now }
{
    let mut value: u64 = 0;
    for &c in f {
        value = value * 10 + u64::from(c - b'0');
    }
    value
}

// What a field says as a number. Only the last of 20 digits can lead above the largest word.
pub fn number_of(f: &[u8]) -> Number
    ensures { result ≡ number_of f.now }
{
    if !well_formed(f) {
        return Number::Malformed;
    }
    if f.len() < 20 {
        return Number::Value(decimal(f));
    }
    let most = decimal(&f[..19]);
    let last = u64::from(f[19] - b'0');
    if (u64::MAX - last) / 10 < most {
        return Number::TooLarge;
    }
    Number::Value(most * 10 + last)
}

// The word that begins a line. No Option: `specs/Words.antt` names the unknown word.
#[derive(Clone, Copy, PartialEq, Eq, Debug)]
pub enum Keyword {
    Loop,
    Start,
    Begin,
    In,
    Out,
    Inout,
    End,
    Unknown,
}

// Whether two parts hold the same bytes.
// Tried `==`, which is a call: 30.3 instructions a byte of the largest text, limit 28.5.
pub fn same(a: &[u8], b: &[u8]) -> bool
    ensures { result ≡ alike a.now b.now }
{
    if a.len() != b.len() {
        return false;
    }
    for i in 0..a.len() {
        if a[i] != b[i] {
            return false;
        }
    }
    true
}

// Which word a field is.
pub fn keyword_of(f: &[u8]) -> Keyword
    ensures { result ≡ keyword_of f.now }
{
    if same(f, b"loop") {
        return Keyword::Loop;
    }
    if same(f, b"start") {
        return Keyword::Start;
    }
    if same(f, b"begin") {
        return Keyword::Begin;
    }
    if same(f, b"in") {
        return Keyword::In;
    }
    if same(f, b"out") {
        return Keyword::Out;
    }
    if same(f, b"inout") {
        return Keyword::Inout;
    }
    if same(f, b"end") {
        return Keyword::End;
    }
    Keyword::Unknown
}

// Whether a number is in form.
fn is_sound(x: Number) -> bool
    ensures { result ≡ sound x }
{
    !matches!(x, Number::Malformed)
}

// The number of exactly one field.
fn one_number(t: &[u8]) -> Number
    ensures { result ≡ one_of (split 9 t.now) }
{
    let field = first_field(t);
    if field.len() < t.len() {
        return Number::Malformed;
    }
    number_of(field)
}

// The numbers of exactly two fields, each in form.
fn two_numbers(t: &[u8]) -> Option<(Number, Number)>
    ensures { result ≡ two_of (split 9 t.now) }
{
    let field = first_field(t);
    let n = field.len();
    if t.len() <= n {
        return None;
    }
    let x = number_of(field);
    let y = one_number(behind(t, n + 1));
    if is_sound(x) & is_sound(y) {
        Some((x, y))
    } else {
        None
    }
}

// The numbers of exactly three fields, each in form.
fn three_numbers(t: &[u8]) -> Option<(Number, Number, Number)>
    ensures { result ≡ three_of (split 9 t.now) }
{
    let field = first_field(t);
    let n = field.len();
    if t.len() <= n {
        return None;
    }
    let x = number_of(field);
    let (y, z) = two_numbers(behind(t, n + 1))?;
    if is_sound(x) { Some((x, y, z)) } else { None }
}

// How a task names a region.
#[derive(Clone, Copy, PartialEq, Eq, Debug)]
pub enum Mode {
    In,
    Out,
    Inout,
}

// What a line says. Every number that it holds is in form.
// No Option: the specs of `reading` name the unreadable line.
#[derive(Clone, Copy, PartialEq, Eq, Debug)]
pub enum Record {
    Loop {
        passes: Number,
        ranks: Number,
        regions: Number,
    },
    Start {
        region: Number,
        value: Number,
    },
    Begin {
        rank: Number,
        kernel: Number,
        constant: Number,
    },
    Access {
        mode: Mode,
        region: Number,
    },
    End,
    Unreadable,
}

// A line that stands at an offset: what it says, and the offset behind its line feed.
#[derive(Clone, Copy)]
pub struct Line {
    pub says: Record,
    pub next: usize,
}

// A `loop` line of these fields.
fn loop_of(x: Option<(Number, Number, Number)>) -> Record
    ensures { result ≡ loop_of x }
{
    match x {
        Some((passes, ranks, regions)) => Record::Loop {
            passes,
            ranks,
            regions,
        },
        None => Record::Unreadable,
    }
}

// A `begin` line of these fields.
fn begin_of(x: Option<(Number, Number, Number)>) -> Record
    ensures { result ≡ begin_of x }
{
    match x {
        Some((rank, kernel, constant)) => Record::Begin {
            rank,
            kernel,
            constant,
        },
        None => Record::Unreadable,
    }
}

// A `start` line of these fields.
fn start_of(x: Option<(Number, Number)>) -> Record
    ensures { result ≡ start_of x }
{
    match x {
        Some((region, value)) => Record::Start { region, value },
        None => Record::Unreadable,
    }
}

// An `in`, `out` or `inout` line of this field.
fn access_of(mode: Mode, n: Number) -> Record
    ensures { result ≡ access_of mode n }
{
    if is_sound(n) {
        Record::Access { mode, region: n }
    } else {
        Record::Unreadable
    }
}

// What a line says that is a word alone.
fn without_fields(word: Keyword) -> Record
    ensures { result ≡ by_word word [] }
{
    match word {
        Keyword::End => Record::End,
        _ => Record::Unreadable,
    }
}

// What a line says that has t behind the tab after its word.
fn with_fields(word: Keyword, t: &[u8]) -> Record
    ensures { result ≡ by_word word (split 9 t.now) }
{
    match word {
        Keyword::Loop => loop_of(three_numbers(t)),
        Keyword::Start => start_of(two_numbers(t)),
        Keyword::Begin => begin_of(three_numbers(t)),
        Keyword::In => access_of(Mode::In, one_number(t)),
        Keyword::Out => access_of(Mode::Out, one_number(t)),
        Keyword::Inout => access_of(Mode::Inout, one_number(t)),
        Keyword::End => Record::Unreadable,
        Keyword::Unknown => Record::Unreadable,
    }
}

// What a line says, handed in without its line feed.
pub fn record_of(line: &[u8]) -> Record
    ensures { result ≡ record_of line.now }
{
    let field = first_field(line);
    let word = keyword_of(field);
    let n = field.len();
    if line.len() <= n {
        return without_fields(word);
    }
    with_fields(word, behind(line, n + 1))
}

// The line that starts at `at`, with its line feed, as a part of the caller's text: nothing where
// no line feed follows, and beyond the end.
pub fn line_from(s: &[u8], at: usize) -> &[u8]
    ensures { result.now ≡ line_at s.now at }
{
    let t = behind(s, at);
    let n = find(t, b'\n');
    if t.len() <= n {
        return &t[..0];
    }
    &t[..n + 1]
}

// What the line that starts at `at` says, and where the next one starts. None where no line feed
// follows, and beyond the end.
fn line_at(s: &[u8], at: usize) -> Option<Line>
    ensures { result ≡ record_at s.now at }
{
    let line = line_from(s, at);
    let n = line.len();
    if n == 0 {
        return None;
    }
    Some(Line {
        says: record_of(&line[..n - 1]),
        next: at + n,
    })
}

// Where the line behind what was found at `at` starts: `at` itself where no line feed follows.
fn next_at(found: Option<Line>, at: usize) -> usize
    ensures { result ≡ next_of at found }
{
    match found {
        Some(line) => line.next,
        None => at,
    }
}

// The line reader: it keeps the lent text and the offset of the next line. Its methods put it
// together and take it apart; `line_at` and `next_at` do the work.
#[derive(Clone, Copy)]
pub struct LineReader<'a> {
    text: &'a [u8],
    at: usize,
}

impl<'a> LineReader<'a> {
    // The reader of a text, at its first line.
    pub fn new(text: &'a [u8]) -> LineReader<'a>
        ensures { (result.text ≡ text.entry) × (result.at ≡ 0) }
    {
        LineReader { text, at: 0 }
    }

    // Whether bytes are left.
    pub fn more(self) -> bool
        ensures { result ≡ nat_lt self.entry.at (length self.entry.text.now) }
    {
        self.at < self.text.len()
    }

    // What the next line says. The reader goes on behind it, and stays where no line feed follows.
    // No `Iterator`: a loop over one could not tell an unended line from the end of the text.
    pub fn next(&mut self) -> Option<Line>
        ensures { (result ≡ record_at self.old.text.now self.old.at) × (self.new.text ≡ self.old.text)
            × (self.new.at ≡ next_at self.old.text.now self.old.at) }
    {
        let at = self.at;
        let found = line_at(self.text, at);
        self.at = next_at(found, at);
        found
    }
}
