// Whether consumers and rows of lent buffers are sound, one by one.
#![tactic(auto)]

ghost use Rattle.std.specs.Prelude.{◌≡◌, true, not, ◌&&◌, ◌+◌, ◌≤◌, ◌<◌, ◌^◌, length, take, drop};
ghost use Rattle.std.proofs.Math.Seq.{slice};
ghost use Rattle.model.specs.Model.{id_of, same_id};
ghost use Rattle.definition.specs.Base.{all, every};
ghost use Rattle.definition.specs.Calls.{id_ok};
ghost use Rattle.definition.specs.Words.{at, kind_by};
ghost use Rattle.definition.specs.Layout.{id_at, sub_rows, words_strict};
ghost use Rattle.subrows.specs.Subrows.{row_ok, row_after, RowForm, flight_ok, holder_ok, flying_ok, sorted_ok, word_tests, own_ok, each_ok, ids_apart, rows_up_to, rows_counted, row_tests, rows_sound};

use entry::{ROWS, Row, SEQ_END, SIZE_END};

type SubRow = [u64; 16];

const PREFETCH_END: u64 = 2147483648;

// ---- rows

// The words of an entry, and of the identifier of a reserved one.
fn entry_ok(row: Row) -> bool
    ensures value { result ≡ row_ok row }
    ensures row_value { holder_ok row ≡ true }
    ensures row_bound { result ≡ true → at 0 row < 2 ^ 63 }
{
    let seq = row[0];
    ((1 <= seq) & (seq < SEQ_END)) & ((row[2] <= 1) & (words::is_int(row[5]) & (row[9] < SIZE_END)))
}

// And in flight the marks that it is freed or in a transaction.
fn flight_ok(row: Row) -> bool
    ensures { result ≡ flight_ok row }
{
    entry_ok(row) & ((row[7] <= 1) & (row[8] <= 1))
}

// rows[from..to].
fn entries_ok(rows: &[Row], from: usize, to: usize) -> bool
    requires from_le_to { from ≤ to }
    requires to_in_bounds { to ≤ length rows.now }
    ensures value { result ≡ all row_ok (slice from to rows.now) }
    ensures rows_value { result ≡ true → all holder_ok (slice from to rows.now) ≡ true }
{
    for i in from..to {
        if !entry_ok(rows[i]) {
            return false;
        }
    }
    true
}

// Whether a row's number is above the last one, its marks and its redelivery are strict, and its size is in range.
fn follows(row: Row, last: u64) -> bool
    ensures value { result ≡ row_after last row }
    ensures row_form { RowForm row }
{
    (last < row[0]) & ((row[2] <= 1) & (words::is_int(row[5]) & (row[9] < SIZE_END)))
}

// The same of four rows, each after the one before. Tests with one bound stand together, so that the compiler joins them.
fn four_follow(a: Row, b: Row, c: Row, d: Row, last: u64) -> bool
    ensures value { result ≡ (row_after last a && (row_after (at 0 a) b && (row_after (at 0 b) c && row_after (at 0 c) d))) }
    ensures row_form { RowForm a × (RowForm b × (RowForm c × RowForm d)) }
{
    let rise = (last < a[0]) & ((a[0] < b[0]) & ((b[0] < c[0]) & (c[0] < d[0])));
    let marks = (a[2] <= 1) & ((b[2] <= 1) & ((c[2] <= 1) & (d[2] <= 1)));
    let ints = words::is_int(a[5])
        & (words::is_int(b[5]) & (words::is_int(c[5]) & words::is_int(d[5])));
    let sizes = (a[9] < SIZE_END) & ((b[9] < SIZE_END) & ((c[9] < SIZE_END) & (d[9] < SIZE_END)));
    (rise & marks) & (ints & sizes)
}

// rows[from..to] by rising sequence number, four a turn: the first is above 0, each above the one before, the last in range.
fn sorted_ok(rows: &[Row], from: usize, to: usize) -> bool
    requires from_le_to { from ≤ to }
    requires to_in_bounds { to ≤ length rows.now }
    ensures { result ≡ sorted_ok 0 (slice from to rows.now) }
{
    let mut last = 0;
    let mut i = from;
    // A while: four rows a turn, for speed; with `chunks_exact(4)` and its remainder the code is no shorter.
    while 4 <= to - i {
        let a = rows[i];
        let b = rows[i + 1];
        let c = rows[i + 2];
        let d = rows[i + 3];
        if !four_follow(a, b, c, d, last) {
            return false;
        }
        last = d[0];
        i += 4;
    }
    for i in i..to {
        let row = rows[i];
        if !follows(row, last) {
            return false;
        }
        last = row[0];
    }
    last < SEQ_END
}

// A consumer's rows in flight, rows[from..to]: delivery numbers rise and are below the next one, and the freed ones are counted.
fn flying_ok(rows: &[Row], from: usize, to: usize, next: u64, freed: u64) -> bool
    requires from_le_to { from ≤ to }
    requires to_in_bounds { to ≤ length rows.now }
    ensures { result ≡ flying_ok 0 0 next freed (slice from to rows.now) }
{
    let mut least = 0;
    let mut count = 0;
    for i in from..to {
        let row = rows[i];
        let dseq = row[6];
        if !flight_ok(row) {
            return false;
        }
        if dseq < least {
            return false;
        }
        if next <= dseq {
            return false;
        }
        least = dseq + 1;
        count += (row[7] != 0) as u64;
    }
    freed == count
}

// ---- consumers

// How many rows the consumers have; 513 for more than 512.
fn sub_rows(subs: &[SubRow]) -> usize
    ensures { result ≡ rows_up_to (sub_rows subs.now) }
{
    let mut room: u64 = 512;
    for w in subs {
        let inflight = w[14];
        let held = w[15];
        if room < inflight {
            return 513;
        }
        room -= inflight;
        if room < held {
            return 513;
        }
        room -= held;
    }
    (512 - room) as usize
}

// The marks of one consumer.
fn sub_marks_ok(w: SubRow) -> bool
    ensures { result ≡ words_strict w }
{
    (w[5] <= 1) & ((w[6] <= 1) & ((w[7] <= 1) & ((w[10] <= 1) & true)))
}

// The words of one consumer by themselves: on a queue it holds rows only if it browses.
fn words_ok(w: SubRow, most: u64, on_queue: bool) -> bool
    ensures value { result ≡ every (word_tests on_queue most w) }
    ensures w_value { id_ok (id_at w) ≡ true }
{
    let pull = (w[10] == 0) | (w[11] <= most);
    let place = !on_queue | ((w[6] != 0) | (w[15] == 0));
    let marks = sub_marks_ok(w);
    (w[3] < PREFETCH_END)
        & ((w[4] <= 64)
            & ((w[9] < SEQ_END)
                & ((w[8] <= most) & ((w[12] <= most) & (pull & (place & (marks & true)))))))
}

// One consumer, whose rows start at base.
fn sub_ok(w: SubRow, rows: &[Row], base: usize, most: u64, on_queue: bool) -> bool
    requires { base + (at 14 w + at 15 w) ≤ length rows.now }
    ensures { result ≡ own_ok (kind_by on_queue) most w (take (at 14 w) (drop base rows.now)) (take (at 15 w) (drop (at 14 w) (drop base rows.now))) }
{
    if !words_ok(w, most, on_queue) {
        return false;
    }
    let mid = base + w[14] as usize;
    let end = mid + w[15] as usize;
    if !flying_ok(rows, base, mid, w[8], w[13]) {
        return false;
    }
    if on_queue {
        return entries_ok(rows, mid, end);
    }
    sorted_ok(rows, mid, end)
}

// Each consumer with its rows.
fn subs_ok(subs: &[SubRow], rows: &[Row], most: u64, on_queue: bool) -> bool
    requires subs_in_bounds { sub_rows subs.now ≤ length rows.now }
    requires subs_bound { sub_rows subs.now ≤ 512 }
    ensures { result ≡ each_ok (kind_by on_queue) most subs.now rows.now }
{
    let mut base = 0;
    for w in subs {
        if !sub_ok(*w, rows, base, most, on_queue) {
            return false;
        }
        base += w[14] as usize + w[15] as usize;
    }
    true
}

// ---- identifiers

// Whether two identifiers are one: equal words hold equal numbers. By words and without jumps, as 32 consumers are 496 pairs.
fn same_id(conn: u64, session: u64, value: u64, conn2: u64, session2: u64, value2: u64) -> bool
    ensures { result ≡ same_id (id_of conn session value) (id_of conn2 session2 value2) }
{
    (conn == conn2) & ((session == session2) & (value == value2))
}

// None of the consumers has this identifier.
fn alone(subs: &[SubRow], conn: u64, session: u64, value: u64) -> bool
    ensures { result ≡ all (λ v. not (same_id (id_at v) (id_of conn session value))) subs.now }
{
    subs.iter()
        .all(|w| !same_id(w[0], w[1], w[2], conn, session, value))
}

fn ids_apart(subs: &[SubRow]) -> bool
    ensures { result ≡ ids_apart subs.now }
{
    for i in 0..subs.len() {
        let w = subs[i];
        if !alone(&subs[i + 1..], w[0], w[1], w[2]) {
            return false;
        }
    }
    true
}

// ---- all

// How many rows the consumers have, 513 for more than 512 or for too few consumers; and whether all is sound.
// A struct: `others` is promised where `ok` is false, too.
#[derive(Clone, Copy)]
pub struct Look {
    pub others: usize,
    pub ok: bool,
}

// The consumers and the rows, which the tables have.
fn rows_ok(
    subs: &[SubRow],
    rows: &[Row],
    others: usize,
    reserved: usize,
    waiting: usize,
    most: u64,
    on_queue: bool,
) -> bool
    requires others_value { others ≡ sub_rows subs.now }
    requires waiting_in_bounds { (others + (reserved + waiting) ≤ length rows.now) × (others + (reserved + waiting) ≤ 512) }
    ensures { result ≡ every (row_tests (kind_by on_queue) most others reserved waiting subs.now rows.now) }
{
    if !subs_ok(subs, rows, most, on_queue) {
        return false;
    }
    let first = others + reserved;
    let ids = ids_apart(subs);
    let kept = entries_ok(rows, others, first);
    let sorted = sorted_ok(rows, first, first + waiting);
    ids & (kept & sorted)
}

// The first n consumers with their rows, and after them the reserved and the waiting rows: each by itself. Of numbers that the tables do not have: not sound.
pub fn test_all(
    subs: &[SubRow],
    n: usize,
    rows: &[Row],
    reserved: usize,
    waiting: usize,
    most: u64,
    on_queue: bool,
) -> Look
    ensures others_value { result.others ≡ rows_counted n subs.now }
    ensures ok_value { result.ok ≡ rows_sound (kind_by on_queue) most n reserved waiting subs.now rows.now }
{
    let ok = false;
    if subs.len() < n {
        let others = ROWS + 1;
        return Look { others, ok };
    }
    let subs = &subs[..n];
    let others = sub_rows(subs);
    if ROWS < reserved {
        return Look { others, ok };
    }
    if ROWS < waiting {
        return Look { others, ok };
    }
    let used = others + (reserved + waiting);
    if ROWS < used {
        return Look { others, ok };
    }
    if rows.len() < used {
        return Look { others, ok };
    }
    let ok = rows_ok(subs, rows, others, reserved, waiting, most, on_queue);
    Look { others, ok }
}
