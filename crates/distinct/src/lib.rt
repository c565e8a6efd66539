// Whether numbers are all different.
#![tactic(auto)]

ghost use Rattle.std.specs.Prelude.{◌≡◌, ◌<◌, length, take};
ghost use Rattle.definition.specs.Base.{member, distinct, rising};

// Up to so many numbers are compared pair by pair: clearing the table would cost more.
pub const FEW: usize = 8;

// And up to so many with a smaller table.
pub const SOME: usize = 64;

// Whether x stands among them.
fn met(xs: &[u64], x: u64) -> bool
    ensures { result ≡ member x xs.now }
{
    xs.iter().any(|y| x == *y)
}

// Whether all are different, pair by pair.
fn few_distinct(xs: &[u64]) -> bool
    ensures { result ≡ distinct xs.now }
{
    for (i, x) in xs.iter().enumerate() {
        if met(&xs[..i], *x) {
            return false;
        }
    }
    true
}

// The same with a table of the remainders met: where a number's remainder is new, so is the number.
fn many_distinct<const N: usize>(xs: &[u64]) -> bool
    requires { 0 < N }
    ensures { result ≡ distinct xs.now }
{
    let mut slots = [false; N];
    for (i, x) in xs.iter().enumerate() {
        let slot = (*x % N as u64) as usize;
        if slots[slot] && met(&xs[..i], *x) {
            return false;
        }
        slots[slot] = true;
    }
    true
}

// Whether each is above the one before, and the first above 0.
fn rising(xs: &[u64]) -> bool
    ensures { result ≡ rising 0 xs.now }
{
    let mut last = 0;
    for x in xs {
        if *x <= last {
            return false;
        }
        last = *x;
    }
    true
}

// Whether the first n are all different; all of them, where there are fewer. Numbers that rise are.
pub fn distinct(xs: &[u64], n: usize) -> bool
    ensures { result ≡ distinct (take n xs.now) }
{
    let first = &xs[..n.min(xs.len())];
    if rising(first) {
        true
    } else if first.len() <= FEW {
        few_distinct(first)
    } else if first.len() <= SOME {
        many_distinct::<256>(first)
    } else {
        many_distinct::<1024>(first)
    }
}
