// Copies of one entry among rows: whether they agree on its size (document 02 §3), and whether there may be any.
#![tactic(auto)]

ghost use Rattle.std.specs.Prelude.{◌≡◌, true, map, ◌<◌, ◌≤◌, length, take};
ghost use Rattle.std.proofs.Math.Seq.{slice};
ghost use Rattle.entry.specs.Entry.{entry_of};
ghost use Rattle.definition.specs.Base.{all, tally};
ghost use Rattle.definition.specs.Calls.{sizes_agree};
ghost use Rattle.copies.specs.Copies.{alike, agree_at, Slot, may_copy, shared_by};

use entry::Row;

type SubRow = [u64; 16];

// Whether each row with this number has this size.
fn alike(rows: &[Row], seq: u64, size: u64) -> bool
    ensures { result ≡ all (alike seq size) rows.now }
{
    rows.iter().all(|row| (seq != row[0]) | (size == row[9]))
}

// The same where the rows agree and the table holds this place for the number: one copy stands for all.
fn agrees(rows: &[Row], from: usize, to: usize, seq: u64, size: u64, place: usize) -> bool
    requires from_le_to { from ≤ to }
    requires to_in_bounds { to ≤ length rows.now }
    requires rows_value { agree_at (slice from to rows.now) ≡ true }
    requires slot { Slot seq place from to rows.now }
    ensures { result ≡ all (alike seq size) (slice from to rows.now) }
{
    if place == 0 {
        return true;
    }
    let row = rows[place - 1];
    if row[0] == seq {
        return row[9] == size;
    }
    alike(&rows[from..to], seq, size)
}

// Whether the first n rows agree, pair by pair.
fn few_agree(rows: &[Row], n: usize) -> bool
    requires { n ≤ length rows.now }
    ensures { result ≡ agree_at (take n rows.now) }
{
    for i in (0..n).rev() {
        let row = rows[i];
        if !alike(&rows[i + 1..n], row[0], row[9]) {
            return false;
        }
    }
    true
}

// The same with a table of the places met, one after the other from the end: by a number's remainder, the place after the last row met, 0 for none.
fn many_agree<const N: usize>(rows: &[Row], n: usize) -> bool
    requires table { (0 < N) × (N ≤ 1024) }
    requires n_in_bounds { n ≤ length rows.now }
    requires n_bound { n ≤ 512 }
    ensures { result ≡ agree_at (take n rows.now) }
{
    let mut slots = [0u16; N];
    for i in (0..n).rev() {
        let row = rows[i];
        let seq = row[0];
        let slot = (seq % N as u64) as usize;
        if !agrees(rows, i + 1, n, seq, row[9], slots[slot] as usize) {
            return false;
        }
        slots[slot] = (i + 1) as u16;
    }
    true
}

// Whether copies of one entry among the first n rows agree on its size; among all of them, where there are fewer.
pub fn agree(rows: &[Row], n: usize) -> bool
    ensures { result ≡ sizes_agree (map entry_of (take n rows.now)) }
{
    let len = rows.len();
    if len < n {
        return few_agree(rows, len);
    }
    if n <= distinct::FEW {
        return few_agree(rows, n);
    }
    if n <= distinct::SOME {
        return many_agree::<256>(rows, n);
    }
    if n <= entry::ROWS {
        return many_agree::<1024>(rows, n);
    }
    few_agree(rows, n)
}

// Whether a consumer has rows that may be copies: on a queue only a browser has.
fn holds(w: SubRow, on_queue: bool) -> bool
    ensures { result ≡ may_copy on_queue w }
{
    (!on_queue | (w[6] != 0)) & !((w[14] == 0) & (w[15] == 0))
}

// How many of the first n have; of all of them, where there are fewer.
fn holders(subs: &[SubRow], n: usize, on_queue: bool) -> usize
    ensures { result ≡ tally (may_copy on_queue) (take n subs.now) }
{
    let mut count = 0;
    // A loop: `filter` with `count` takes three times as long.
    for w in &subs[..n.min(subs.len())] {
        if holds(*w, on_queue) {
            count += 1;
        }
    }
    count
}

// Whether an entry may have more than one row, by the first n consumers (all of them, where there are fewer): on a queue if a browser has rows, on a topic if
// two consumers have.
pub fn shared(subs: &[SubRow], n: usize, on_queue: bool) -> bool
    ensures { result ≡ shared_by on_queue (take n subs.now) }
{
    let count = holders(subs, n, on_queue);
    if on_queue { 1 <= count } else { 2 <= count }
}
