// A part of the tables: numbers at its front, and zeros behind them.
ghost use Rattle.std.specs.Prelude.{◌+◌, ◌-◌, ◌≤◌, ◌≡◌, length, take};
ghost use Rattle.finite.specs.Put.{Added};
ghost use Rattle.prepared.specs.Tables.{padded};

// Fills a part with the first n numbers of a slice, and zeros behind them.
fn pad(from: &[u16], n: usize, part: &mut [u16])
    requires { (n ≤ length from.now) × (n ≤ length part.old) }
    ensures { part.new ≡ padded (length part.old) (take n from.now) }
{
    let (front, rest) = part.split_at_mut(n);
    // by a loop: with `copy_from_slice` the archive for C needs `memmove`
    for k in 0..n {
        front[k] = from[k];
    }
    rest.fill(0);
}

// Fills the part of the tables from `first` to `end` so.
pub(crate) fn put_part(from: &[u16], n: usize, tables: &mut [u16], first: usize, end: usize)
    requires { (n ≤ length from.now) × (first + n ≤ end) × (end ≤ length tables.old) }
    ensures { Added (padded (end - first) (take n from.now)) first tables.old end tables.new }
{
    pad(from, n, &mut tables[first..end]);
}
