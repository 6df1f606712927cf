// Lowering the numbers of an item's targets, and telling which become 0.
ghost use Rattle.std.specs.Prelude.{◌+◌, ◌-◌, ◌≤◌, ◌<◌, ◌≡◌, eqb, length, set};
ghost use Rattle.plan.specs.Sizes.{max_items, count_words, first_unmet};
ghost use Rattle.steps.specs.State.{unmet_by};
ghost use Rattle.prepared.specs.Tables.{prepared_words, target_count, target_in};
ghost use Rattle.prepared.specs.Steps.{lowered_by, freed_by};
ghost use Rattle.engine.specs.Usable.{Targets};
ghost use Rattle.engine.specs.Freed.{Takes};

use crate::freed::Freed;
use plan::state::{Count, FIRST_UNMET};
use prepared::{FIRST_START, FIRST_TARGET};

// Takes one off the number of item b, a 0 staying 0. Answers whether it becomes 0.
fn lower_number(counts: &mut [Count], b: usize) -> bool
    requires { (count_words ≤ length counts.old) × (b < max_items) }
    ensures { (counts.new ≡ set counts.old (first_unmet + b) (unmet_by counts.old b - 1))
        × (result ≡ eqb (unmet_by counts.old b) 1) }
{
    let number = counts[FIRST_UNMET + b];
    if number == 0 {
        return false;
    }
    counts[FIRST_UNMET + b] = number - 1;
    number == 1
}

// How many targets item a has.
fn target_count(tables: &[u16], a: usize) -> usize
    requires { (prepared_words ≤ length tables.now) × (a < max_items) }
    ensures { result ≡ target_count tables.now a }
{
    let from = usize::from(tables[FIRST_START + a]);
    let end = usize::from(tables[FIRST_START + (a + 1)]);
    if end < from {
        return 0;
    }
    end - from
}

// Lowers the numbers of the targets of item a, and puts those that become 0.
pub(crate) fn lower_targets<F: Freed>(tables: &[u16], a: usize, counts: &mut [Count], freed: &mut F)
    requires { (prepared_words ≤ length tables.now) × (a < max_items) × Targets tables.now a × (count_words ≤ length counts.old)
        × Takes F F.can_put F.puts (target_in tables.now a) (target_count tables.now a) counts.old freed.old }
    ensures { (counts.new ≡ lowered_by (target_in tables.now a) (target_count tables.now a) counts.old)
        × F.puts freed.old (freed_by (target_in tables.now a) (target_count tables.now a) counts.old) freed.new }
{
    let from = usize::from(tables[FIRST_START + a]);
    let count = target_count(tables, a);
    for k in 0..count {
        let target = usize::from(tables[FIRST_TARGET + (from + k)]);
        if lower_number(counts, target) {
            freed.put(target);
        }
    }
}
