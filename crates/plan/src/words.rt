// A lent plan, seen as its words (specs/Layout.antt).
use crate::layout::{
    FIRST_ACCESS, FIRST_CONSTANT, FIRST_COUNT, FIRST_KERNEL, FIRST_RANK, FIRST_START, PASSES,
    RANKS, REGIONS, TASK_WORDS, TASKS, reads_region,
};
use std::marker::Model;

// A plan that is long enough.
#[derive(Drop)]
pub struct Plan<'a> {
    words: &'a [u64],
}

impl<'a> Model for Plan<'a> {
    ghost use Rattle.std.specs.Prelude.{ℕ, ◌≤◌, List, length};
    ghost use Rattle.plan.specs.Layout.{plan_words};

    ghost Value = { List ℕ };

    ghost view = { λ plan. plan.words.now };

    ghost invariant = { λ plan. plan_words ≤ length plan.words.now };
}

impl<'a> Plan<'a> {
    ghost use Rattle.std.specs.Prelude.{◌≡◌, ◌<◌, ◌≤◌, length};
    ghost use Rattle.finite.specs.Below.{count_below};
    ghost use Rattle.plan.specs.Limits.{max_tasks, max_regions, max_accesses};
    ghost use Rattle.plan.specs.Layout.{plan_words, passes_of, ranks_of, regions_of, tasks_of, starting_of, rank_of, kernel_of, constant_of, accesses_of, access_at, is_read};

    pub fn new(words: &'a [u64]) -> Plan<'a>
        requires { plan_words ≤ length words.now }
        ensures { result ≡ words.now }
    {
        Plan { words }
    }

    // The words, for what takes them as they are lent.
    pub fn words(&self) -> &'a [u64]
        ensures { (result.now ≡ self.now) × (plan_words ≤ length self.now) }
    {
        let Plan { words } = self;
        words
    }

    pub fn passes(&self) -> u64
        ensures { result ≡ passes_of self.now }
    {
        self.words[PASSES]
    }

    pub fn ranks(&self) -> u64
        ensures { result ≡ ranks_of self.now }
    {
        self.words[RANKS]
    }

    pub fn regions(&self) -> u64
        ensures { result ≡ regions_of self.now }
    {
        self.words[REGIONS]
    }

    pub fn tasks(&self) -> usize
        ensures { result ≡ tasks_of self.now }
    {
        self.words[TASKS] as usize
    }

    // The starting value of region g.
    pub fn start(&self, g: usize) -> u64
        requires { g < max_regions }
        ensures { result ≡ starting_of self.now g }
    {
        self.words[FIRST_START + g]
    }

    // The rank of task i.
    pub fn rank(&self, i: usize) -> u64
        requires { i < max_tasks }
        ensures { result ≡ rank_of self.now i }
    {
        self.words[FIRST_RANK + TASK_WORDS * i]
    }

    // Its kernel.
    pub fn kernel(&self, i: usize) -> u64
        requires { i < max_tasks }
        ensures { result ≡ kernel_of self.now i }
    {
        self.words[FIRST_KERNEL + TASK_WORDS * i]
    }

    // Its constant.
    pub fn constant(&self, i: usize) -> u64
        requires { i < max_tasks }
        ensures { result ≡ constant_of self.now i }
    {
        self.words[FIRST_CONSTANT + TASK_WORDS * i]
    }

    // How many accesses it has.
    pub fn access_count(&self, i: usize) -> usize
        requires { i < max_tasks }
        ensures { result ≡ accesses_of self.now i }
    {
        self.words[FIRST_COUNT + TASK_WORDS * i] as usize
    }

    // Its access k.
    pub fn access(&self, i: usize, k: usize) -> u64
        requires { (i < max_tasks) × (k < max_accesses) }
        ensures { result ≡ access_at self.now i k }
    {
        self.words[FIRST_ACCESS + TASK_WORDS * i + k]
    }

    // How many accesses of task i read their region.
    pub fn read_count(&self, i: usize) -> u64
        requires { (i < max_tasks) × (accesses_of self.now i ≤ max_accesses) }
        ensures { result ≡ count_below (accesses_of self.now i) (is_read self.now i) }
    {
        let mut count: u64 = 0;
        for a in 0..self.access_count(i) {
            count += u64::from(reads_region(self.access(i, a)));
        }
        count
    }
}
