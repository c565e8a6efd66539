// The table of rows: the used rows stand at the front, in one order. Rows are removed and put in by moving the later ones.
#![tactic(auto)]

ghost use Rattle.std.specs.Prelude.{◌≡◌, ℕ, Bool, false, List, not, ◌&&◌, ◌+◌, ◌-◌, ◌≤◌, length};
ghost use Rattle.std.specs.Fn.{FnReturnsAt};
ghost use Rattle.std.proofs.Math.Seq.{slice};
ghost use Rattle.entry.specs.Entry.{expired_row};
ghost use Rattle.definition.specs.Base.{tally};
ghost use Rattle.table.specs.Table.{closed, lifted, close_gap, insert_row, open_gap, find_seq, has_seq_in, place_from, place_of};
ghost use Rattle.table.specs.Table.{dseq_between, is_freed, has_seq, count_rows, map_rows, freed_row, mark_row, raised_row, redeliver_row, unmark_row, flown_row};
ghost use Rattle.table.specs.Table.{no_span, in_numbers, Tests, segment_of, compacted, remove_rows, removed_rows, removed_range};

use entry::{DSEQ, FREED, Row, TX};

// Rows at..at+k are removed from the n used ones. What stands past the n - k that are left is what stood there.
pub fn close_gap(rows: &mut [Row], at: usize, k: usize, n: usize)
    ensures { rows.new ≡ close_gap at k n rows.old }
{
    if k == 0 || rows.len() < n || n < k || n - k < at {
        return;
    }
    if k == 1 {
        close_one(&mut rows[at..n]);
        return;
    }
    rows.copy_within(at + k..n, at);
}

// The first row is removed. That the places are literals tells the compiler to make one move of the memory of it; so too in `open_one`.
fn close_one(rows: &mut [Row])
    requires { 1 ≤ length rows.old }
    ensures { rows.new ≡ closed 0 1 (length rows.old) rows.old }
{
    rows.copy_within(1.., 0);
}

// The used rows from at on move up by k; rows at..at+k keep what stood there.
pub fn open_gap(rows: &mut [Row], at: usize, k: usize, n: usize)
    ensures { rows.new ≡ open_gap at k n rows.old }
{
    if rows.len() < k || rows.len() - k < n || n < at {
        return;
    }
    if k == 1 {
        open_one(&mut rows[at..n + 1]);
        return;
    }
    rows.copy_within(at..n, at + k);
}

// A gap of one row before all but the last, which goes.
fn open_one(rows: &mut [Row])
    requires { 1 ≤ length rows.old }
    ensures { rows.new ≡ lifted 0 1 (length rows.old - 1) rows.old }
{
    let n = rows.len() - 1;
    rows.copy_within(..n, 1);
}

// A row is put in at place at; the used rows from there on move up by one.
pub fn insert_row(rows: &mut [Row], at: usize, n: usize, row: Row)
    ensures { rows.new ≡ insert_row at n row rows.old }
{
    if rows.len() <= n || n < at {
        return;
    }
    open_gap(rows, at, 1, n);
    rows[at] = row;
}

// Where in rows[from..to] the first row with that sequence number stands.
pub fn find_seq(rows: &[Row], from: usize, to: usize, seq: u64) -> Option<usize>
    ensures { result ≡ find_seq from to seq rows.now }
{
    let i = rows.get(from..to)?.iter().position(|row| row[0] == seq)?;
    Some(from + i)
}

// Where in rows[from..to], by rising sequence number, a row with that number goes: at the first that is not below it.
pub fn place_of(rows: &[Row], from: usize, to: usize, seq: u64) -> usize
    ensures { result ≡ place_of from to seq rows.now }
{
    let Some(part) = rows.get(from..to) else {
        return to;
    };
    match part.iter().position(|row| seq <= row[0]) {
        Some(i) => from + i,
        None => to,
    }
}

// Whether one of rows[from..to] has that sequence number.
pub fn has_seq(rows: &[Row], from: usize, to: usize, seq: u64) -> bool
    ensures { result ≡ has_seq_in from to seq rows.now }
{
    let Some(part) = rows.get(from..to) else {
        return false;
    };
    part.iter().any(|row| row[0] == seq)
}

// The numbers from first to last, both included; none where last is below first.
#[derive(Clone, Copy)]
pub struct Span {
    pub first: u64,
    pub last: u64,
}

impl Span {
    pub fn none() -> Span
        ensures { result ≡ no_span }
    {
        Span { first: 1, last: 0 }
    }

    pub fn has(self, number: u64) -> bool
        ensures { result ≡ in_numbers self number }
    {
        self.first <= number && number <= self.last
    }
}

// How many rows were removed, and how many of these were freed.
#[derive(Clone, Copy)]
pub struct Removed {
    pub rows: usize,
    pub freed: usize,
}

// The redelivery counter's word.
const REDELIVERY: usize = 5;

fn freed_row(mut row: Row, tx: bool) -> Row
    ensures { result ≡ freed_row tx row }
{
    row[FREED] = 1;
    if tx {
        row[TX] = 1;
    }
    row
}

fn raised_row(mut row: Row) -> Row
    ensures { result ≡ raised_row row }
{
    let e = entry::entry_of(row).redelivered();
    row[REDELIVERY] = words::word_of_int(e.redelivery);
    row
}

// A row as it goes out: with a delivery number, neither freed nor acknowledged in a transaction.
pub fn flown(mut row: Row, dseq: u64) -> Row
    ensures value { result ≡ flown_row dseq row }
    ensures row_len { length row ≡ 10 }
{
    row[DSEQ] = dseq;
    row[FREED] = 0;
    row[TX] = 0;
    row
}

// How many rows have a delivery number in the span. A loop, as in the next: `filter` with `count` takes three times as long.
fn count_in(rows: &[Row], span: Span) -> usize
    ensures { result ≡ tally (dseq_between span.first span.last) rows.now }
{
    let mut count = 0;
    for row in rows {
        if span.has(row[DSEQ]) {
            count += 1;
        }
    }
    count
}

// How many of these are freed.
fn count_freed(rows: &[Row], span: Span) -> usize
    ensures { result ≡ tally (λ w. dseq_between span.first span.last w && is_freed w) rows.now }
{
    let mut count = 0;
    for row in rows {
        if span.has(row[DSEQ]) && row[FREED] != 0 {
            count += 1;
        }
    }
    count
}

// How many of rows[from..to] have a delivery number in the span.
pub fn count_range(rows: &[Row], from: usize, to: usize, span: Span) -> usize
    ensures { result ≡ count_rows (dseq_between span.first span.last) from to rows.now }
{
    let Some(part) = rows.get(from..to) else {
        return 0;
    };
    count_in(part, span)
}

// Marks as freed the rows of from..to with a delivery number in the span, with tx as acknowledged in a transaction,
// and says how many were not freed before.
pub fn mark_range(rows: &mut [Row], from: usize, to: usize, span: Span, tx: bool) -> usize
    ensures value { result ≡ count_rows (λ w. dseq_between span.first span.last w && not (is_freed w)) from to rows.old }
    ensures rows_after { rows.new ≡ map_rows (mark_row span.first span.last tx) from to rows.old }
{
    if rows.len() < to || to < from {
        return 0;
    }
    let mut fresh = 0;
    // A loop of its own here and in the next two: each changes another word, and this one counts.
    for row in &mut rows[from..to] {
        if span.has(row[DSEQ]) {
            if row[FREED] == 0 {
                fresh += 1;
            }
            *row = freed_row(*row, tx);
        }
    }
    fresh
}

// Raises the redelivery counter of the rows of from..to with a delivery number in the span.
pub fn redeliver_range(rows: &mut [Row], from: usize, to: usize, span: Span)
    ensures { rows.new ≡ map_rows (redeliver_row span.first span.last) from to rows.old }
{
    if rows.len() < to || to < from {
        return;
    }
    for row in &mut rows[from..to] {
        if span.has(row[DSEQ]) {
            *row = raised_row(*row);
        }
    }
}

// Takes the transaction marks off rows[from..to].
pub fn unmark(rows: &mut [Row], from: usize, to: usize)
    ensures { rows.new ≡ map_rows unmark_row from to rows.old }
{
    if rows.len() < to || to < from {
        return;
    }
    for row in &mut rows[from..to] {
        row[TX] = 0;
    }
}

// Moves together the rows of from..to that stay, and says how many go. Before the first that goes, none moves.
fn compact<F: Fn(&Row) -> bool>(rows: &mut [Row], from: usize, to: usize, goes: F) -> usize
    requires bounds { (from ≤ to) × (to ≤ length rows.old) }
    requires callable { F.IsAlwaysCallable goes }
    ensures few { from + result ≤ to }
    ensures moved { (p : List ℕ → Bool) → Tests (FnReturnsAt F.Fn goes) p → (result ≡ tally p (slice from to rows.old)) × (rows.new ≡ compacted p from to rows.old) }
{
    let mut gone = 0;
    // By index: a row that stays moves to a place before it.
    for i in from..to {
        let row = rows[i];
        if goes(&row) {
            gone += 1;
        } else if 0 < gone {
            rows[i - gone] = row;
        }
    }
    gone
}

// Whether from..to is a part of the n used rows of a table of this length.
fn is_segment(from: usize, to: usize, n: usize, len: usize) -> bool
    ensures { result ≡ segment_of from to n len }
{
    from <= to && to <= n && n <= len
}

// Takes the rows of from..to that go out of the n used ones, and says how many there were. Where from..to is no part of them, none goes.
pub fn remove_where<F: Fn(&Row) -> bool>(
    rows: &mut [Row],
    from: usize,
    to: usize,
    n: usize,
    goes: F,
) -> usize
    requires { F.IsAlwaysCallable goes }
    ensures outside { segment_of from to n (length rows.old) ≡ false → (result ≡ 0) × (rows.new ≡ rows.old) }
    ensures taken { (p : List ℕ → Bool) → Tests (FnReturnsAt F.Fn goes) p → (result ≡ removed_rows p from to n rows.old) × (rows.new ≡ remove_rows p from to n rows.old) }
{
    if !is_segment(from, to, n, rows.len()) {
        return 0;
    }
    let gone = compact(rows, from, to, goes);
    close_gap(rows, to - gone, gone, n);
    gone
}

// Takes the rows of from..to with a delivery number in the span out of the n used ones.
pub fn remove_range(rows: &mut [Row], from: usize, to: usize, n: usize, span: Span) -> Removed
    ensures value { result ≡ removed_range span.first span.last from to n rows.old }
    ensures rows_after { rows.new ≡ remove_rows (dseq_between span.first span.last) from to n rows.old }
{
    if !is_segment(from, to, n, rows.len()) {
        return Removed { rows: 0, freed: 0 };
    }
    let freed = count_freed(&rows[from..to], span);
    let gone = remove_where(rows, from, to, n, |row| span.has(row[DSEQ]));
    Removed { rows: gone, freed }
}

// Takes the rows of from..to with that sequence number out of the n used ones, and says how many there were.
pub fn remove_seq(rows: &mut [Row], from: usize, to: usize, n: usize, seq: u64) -> usize
    ensures value { result ≡ removed_rows (has_seq seq) from to n rows.old }
    ensures rows_after { rows.new ≡ remove_rows (has_seq seq) from to n rows.old }
{
    remove_where(rows, from, to, n, |row| row[0] == seq)
}

// Takes the rows of from..to that have expired by that clock out of the n used ones, and says how many there were.
pub fn remove_expired(rows: &mut [Row], from: usize, to: usize, n: usize, by: u64) -> usize
    ensures value { result ≡ removed_rows (expired_row by) from to n rows.old }
    ensures rows_after { rows.new ≡ remove_rows (expired_row by) from to n rows.old }
{
    remove_where(
        rows,
        from,
        to,
        n,
        |row| entry::expired_by(entry::entry_of(*row), by),
    )
}
