// Sets of items as bits, for taking the lowest: item a is bit a % 64 of word a / 64.
#![tactic(auto)]

ghost use Rattle.std.specs.Prelude.{◌<◌, ◌^◌, ◌≡◌, false, eqb, length};
ghost use Rattle.std.specs.Option.{MatchOption};
ghost use Rattle.plan.specs.Sizes.{max_items};
ghost use Rattle.masks.specs.Masks.{mask_words, in_mask, Entered, Empty, Lowest};

// The words of a set.
pub const MASK_WORDS: usize = 10;

// Bit q of a word. Inline, as `1 << q`, it leaves `returns` of `insert` open: tried.
fn bit_of(q: u64) -> u64
    requires { q < 64 }
    ensures { result ≡ 2 ^ q }
{
    1 << q
}

// Puts item a, which does not stand there, into a set.
pub fn insert(words: &mut [u64], a: usize)
    requires { (length words.old ≡ mask_words) × (a < max_items) × (in_mask words.old a ≡ false) }
    ensures { Entered words.old (λ b. eqb b a) words.new }
{
    words[a / 64] += bit_of((a % 64) as u64);
}

// Takes the lowest item out of a set, if it has one.
pub fn take_lowest(words: &mut [u64]) -> Option<usize>
    requires { length words.old ≡ mask_words }
    ensures { MatchOption result (Empty words.old × (words.new ≡ words.old)) (λ a. Lowest words.old a words.new) }
{
    // an index: tried `iter_mut().enumerate()`: a run took 137.9 an item instance, limit 130
    for k in 0..MASK_WORDS {
        let word = words[k];
        if word != 0 {
            words[k] = word & (word - 1);
            return Some(64 * k + word.trailing_zeros() as usize);
        }
    }
    None
}
