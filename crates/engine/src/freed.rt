// Where a finish puts the items that it makes ready: into a list, or into a set.
ghost use Rattle.std.specs.Prelude.{◌≤◌, ◌<◌, ◌≡◌, false, [], ◌∷◌, ◌++◌, ℕ, List, length};
ghost use Rattle.finite.specs.Put.{Added};
ghost use Rattle.plan.specs.Sizes.{max_items};
ghost use Rattle.masks.specs.Masks.{mask_words, in_mask};
ghost use Rattle.engine.specs.Freed.{Joined, listed_more, joined_more};

use masks::insert;

// Takes items one after another: `can_put` says that an item may be put, and `puts` that items were.
pub(crate) trait Freed {
    ghost can_put: { Self → ℕ → Type 0 };

    ghost puts: { Self → List ℕ → Self → Type 0 };

    fn put(&mut self, item: usize)
        requires { can_put self.old item }
        ensures { puts self.old (item ∷ []) self.new };

    ghost more: { (s t u : Self) (xs ys : List ℕ) → puts s xs t → puts t ys u → puts s (xs ++ ys) u };
}

// A list whose next item goes to the place `at`.
#[derive(Drop)]
pub(crate) struct FreedList<'a> {
    pub places: &'a mut [u16],
    pub at: usize,
}

impl<'a> Freed for FreedList<'a> {
    ghost can_put = { λ s b. (s.at < length s.places.now) × (b < max_items) };

    ghost puts = { λ s xs t. Added xs s.at s.places.now t.at t.places.now × (t.places.ghost_name ≡ s.places.ghost_name) };

    ghost more = { λ s t u xs ys p q. listed_more xs ys p q };

    fn put(&mut self, item: usize)
        requires { (self.old.at < length self.old.places.now) × (item < max_items) }
        ensures { Added (item ∷ []) self.old.at self.old.places.now self.new.at self.new.places.now
            × (self.new.places.ghost_name ≡ self.old.places.ghost_name) }
    {
        self.places[self.at] = item as u16;
        self.at += 1;
    }
}

// A set as bits of words.
#[derive(Drop)]
pub(crate) struct FreedSet<'a> {
    pub words: &'a mut [u64],
}

impl<'a> Freed for FreedSet<'a> {
    ghost can_put = { λ s b. (length s.words.now ≡ mask_words) × (b < max_items) × (in_mask s.words.now b ≡ false) };

    ghost puts = { λ s xs t. Joined s.words.now xs t.words.now × (t.words.ghost_name ≡ s.words.ghost_name) };

    ghost more = { λ s t u xs ys p q. joined_more xs ys p q };

    fn put(&mut self, item: usize)
        requires { (length self.old.words.now ≡ mask_words) × (item < max_items) × (in_mask self.old.words.now item ≡ false) }
        ensures { Joined self.old.words.now (item ∷ []) self.new.words.now
            × (self.new.words.ghost_name ≡ self.old.words.ghost_name) }
    {
        insert(self.words, item);
    }
}
