// The word that a task computes from the words it reads, and the number of reads that its kernel
// permits. Which words are read, and what becomes of the computed one, is no matter of this crate.
#![tactic(auto)]

ghost use Rattle.std.specs.Prelude.{◌≡◌, ◌+◌, ◌-◌, ◌*◌, ◌/◌, ◌%◌, ◌^◌, ◌≤◌};
ghost use Rattle.kernels.specs.Kernels.{read_at, sum_word, difference_word, quarter, mean_word, largest, kernel_by, word_by, allowed, kernel_word, suits, is_kernel};

// The read at place i; 0 where there is none.
fn read_at(reads: &[u64], i: usize) -> u64
    ensures { result ≡ read_at reads.now i }
{
    reads.get(i).copied().unwrap_or(0)
}

// Kernel 1: c plus all reads, modulo 2^64.
fn sum_word(c: u64, reads: &[u64]) -> u64
    ensures { result ≡ sum_word c reads.now }
{
    let mut sum = c;
    // an index: tried `fold`: a run took 137.9 instructions an item instance, limit 130
    for i in 0..reads.len() {
        sum = sum.wrapping_add(reads[i]);
    }
    sum
}

// a minus b plus c, modulo 2^64.
fn difference(a: u64, b: u64, c: u64) -> u64
    ensures { result ≡ (a + (2 ^ 64 - b) + c) % 2 ^ 64 }
{
    a.wrapping_sub(b).wrapping_add(c)
}

// Kernel 2: the first read minus the second plus c, modulo 2^64.
fn difference_word(c: u64, reads: &[u64]) -> u64
    ensures { result ≡ difference_word c reads.now }
{
    difference(read_at(reads, 0), read_at(reads, 1), c)
}

// A quarter of 4 × quarters + left, to the nearest, a half to the even.
fn nearest(quarters: u64, left: u64) -> u64
    requires { (quarters ≤ 2 ^ 64 - 4) × (left ≤ 12) }
    ensures { result ≡ quarter (4 * quarters + left) }
{
    quarters + (left + 1 + (quarters + left / 4) % 2) / 4
}

// A quarter of the exact sum of four words, to the nearest. The sum itself may not fit in a word:
// the quarters and what is left of each word are summed apart.
fn mean_of(a: u64, b: u64, c: u64, d: u64) -> u64
    ensures { result ≡ quarter (a + b + c + d) }
{
    nearest(a / 4 + b / 4 + c / 4 + d / 4, a % 4 + b % 4 + c % 4 + d % 4)
}

// Kernel 3: a quarter of the exact sum of the first four reads, to the nearest.
fn mean_word(reads: &[u64]) -> u64
    ensures { result ≡ mean_word reads.now }
{
    mean_of(
        read_at(reads, 0),
        read_at(reads, 1),
        read_at(reads, 2),
        read_at(reads, 3),
    )
}

// Kernel 4: the largest read; 0 where there is none.
fn largest_word(reads: &[u64]) -> u64
    ensures { result ≡ largest reads.now }
{
    reads.iter().fold(0, |top, &read| read.max(top))
}

// What a kernel computes.
#[derive(Clone, Copy, PartialEq, Eq, Debug)]
pub enum Computation {
    Constant,
    Sum,
    Difference,
    Mean,
    Largest,
}

// How many reads a kernel permits.
#[derive(Clone, Copy, PartialEq, Eq, Debug)]
pub enum Permitted {
    Any,
    Exactly(u64),
    AtLeast(u64),
}

// A kernel: what it computes, and how many reads it permits.
#[derive(Clone, Copy, PartialEq, Eq, Debug)]
pub struct Kernel {
    pub computation: Computation,
    pub permitted: Permitted,
}

// The kernel of a number: the one place that tells kernels apart by their numbers. `None` where the
// number is no kernel's.
pub fn kernel_by(number: u64) -> Option<Kernel>
    ensures { result ≡ kernel_by number }
{
    let (computation, permitted) = match number {
        0 => (Computation::Constant, Permitted::Any),
        1 => (Computation::Sum, Permitted::Any),
        2 => (Computation::Difference, Permitted::Exactly(2)),
        3 => (Computation::Mean, Permitted::Exactly(4)),
        4 => (Computation::Largest, Permitted::AtLeast(1)),
        _ => return None,
    };
    Some(Kernel {
        computation,
        permitted,
    })
}

// The word of a computation.
fn word_by(computation: Computation, c: u64, reads: &[u64]) -> u64
    ensures { result ≡ word_by computation c reads.now }
{
    match computation {
        Computation::Constant => c,
        Computation::Sum => sum_word(c, reads),
        Computation::Difference => difference_word(c, reads),
        Computation::Mean => mean_word(reads),
        Computation::Largest => largest_word(reads),
    }
}

// Whether so many reads are permitted.
fn allows(permitted: Permitted, reads: u64) -> bool
    ensures { result ≡ allowed permitted reads }
{
    match permitted {
        Permitted::Any => true,
        Permitted::Exactly(n) => reads == n,
        Permitted::AtLeast(n) => reads >= n,
    }
}

// The word of a task, by its kernel's number, its constant c and the words it reads, in record
// order. A read that is not there counts as 0, and where the number is no kernel's the word is 0.
#[tactic(auto, unfolding(crate::specs::Kernels::kernel_word))]
pub fn kernel_word(number: u64, c: u64, reads: &[u64]) -> u64
    ensures { result ≡ kernel_word number c reads.now }
{
    match kernel_by(number) {
        Some(kernel) => word_by(kernel.computation, c, reads),
        None => 0,
    }
}

// Whether the kernel permits so many reads. A number that is no kernel's permits no number of them.
#[tactic(auto, unfolding(crate::specs::Kernels::suits))]
pub fn suits_kernel(number: u64, reads: u64) -> bool
    ensures { result ≡ suits number reads }
{
    match kernel_by(number) {
        Some(kernel) => allows(kernel.permitted, reads),
        None => false,
    }
}

// Whether the number is a kernel's.
#[tactic(auto, unfolding(crate::specs::Kernels::is_kernel))]
pub fn is_kernel(number: u64) -> bool
    ensures { result ≡ is_kernel number }
{
    kernel_by(number).is_some()
}
