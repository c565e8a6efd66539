// Whether no producer connection has more than a share (document 02 §11), by the connections of all rows.
#![tactic(auto)]

ghost use Rattle.std.specs.Prelude.{◌≡◌, true, false, ◌≤◌, eqb, length, take};
ghost use Rattle.definition.specs.Base.{tally};
ghost use Rattle.shares.specs.Shares.{within_each};

// How many are x.
fn count_of(xs: &[u64], x: u64) -> usize
    ensures { result ≡ tally (eqb x) xs.now }
{
    let mut count = 0;
    // A loop, here and in the other counts: `filter` with `count` takes three times as long.
    for y in xs {
        if x == *y {
            count += 1;
        }
    }
    count
}

// Whether each comes up at most so often, one after the other.
fn each_within(xs: &[u64], share: u64) -> bool
    ensures { result ≡ within_each share xs.now }
{
    xs.iter().all(|x| count_of(xs, *x) as u64 <= share)
}

// Whether a remainder comes up more often than that: where none does, no number does.
fn crowded(xs: &[u64], share: u64) -> bool
    requires { length xs.now ≤ 512 }
    ensures { result ≡ false → within_each share xs.now ≡ true }
{
    let mut counts = [0u16; 256];
    for x in xs {
        let slot = (*x % 256) as usize;
        let count = counts[slot] + 1;
        if share < count as u64 {
            return true;
        }
        counts[slot] = count;
    }
    false
}

// Whether each of the first n comes up at most so often; of all of them, where there are fewer.
pub fn within(xs: &[u64], n: usize, share: u64) -> bool
    ensures { result ≡ within_each share (take n xs.now) }
{
    let first = &xs[..n.min(xs.len())];
    if first.len() as u64 <= share {
        return true;
    }
    if first.len() <= entry::ROWS && !crowded(first, share) {
        return true;
    }
    each_within(first, share)
}
