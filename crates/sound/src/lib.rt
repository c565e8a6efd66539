// Whether lent buffers are long enough, and the layout of a sound state.
#![tactic(auto)]

ghost use Rattle.std.specs.Prelude.{◌≡◌, true, false, not, ◌&&◌, ◌||◌, [], ◌++◌, map, ℕ, ◌+◌, ◌-◌, ◌≤◌, ◌<◌, ltb, eqb, length, take, drop, get_or};
ghost use Rattle.std.proofs.Math.Seq.{slice};
ghost use Rattle.words.specs.Pick.{whether◌then◌else◌};
ghost use Rattle.definition.specs.Base.{all, member, distinct, rising, ascending};
ghost use Rattle.definition.specs.Types.{queue};
ghost use Rattle.definition.specs.Calls.{seqs, taken, state_short};
ghost use Rattle.definition.specs.Words.{at};
ghost use Rattle.definition.specs.Layout.{flag, each_sub, subs_at, sub_rows, rings_formed, sound_buffers, lengths_of, lent};
ghost use Rattle.copies.specs.Copies.{shared_by};
ghost use Rattle.shares.specs.Shares.{conns};
ghost use Rattle.heads.specs.Heads.{head_ok};
ghost use Rattle.subrows.specs.Subrows.{sorted_ok, seqs_at};
ghost use Rattle.sound.specs.Sound.{kind_by, held_seqs, held_rise, SameFrom, Met, apart_by, queue_seqs, queue_apart, HubAt, SameRows, sizes_at, AlikeBy, numbers_ok, LoneAgree, own_conns, shares_at, rest_ok};

use entry::{Row, SEQ_END};

type SubRow = [u64; 16];

// The words of a row for its entry's sequence number and its connection.
const NUMBER: usize = 0;

const CONNECTION: usize = 3;

// ---- sequence numbers

// Copies one word of each of n rows from place from into out, from place start.
fn gather<const WORD: usize>(rows: &[Row], from: usize, n: usize, out: &mut [u64], start: usize)
    requires word { WORD < 10 }
    requires n_in_bounds { from + n ≤ length rows.now }
    requires n_bound { start + n ≤ (length out.old) }
    ensures { take (start + n) out.new ≡ take start out.old ++ map (at WORD) (take n (drop from rows.now)) }
{
    for i in 0..n {
        let row = rows[from + i];
        out[start + i] = row[WORD];
    }
}

// Whether the numbers of rows[from..to] rise.
fn rows_rise(rows: &[Row], from: usize, to: usize) -> bool
    requires from_le_to { from ≤ to }
    requires to_in_bounds { to ≤ length rows.now }
    ensures { result ≡ rising 0 (seqs_at (slice from to rows.now)) }
{
    let mut last = 0;
    for i in from..to {
        let row = rows[i];
        let seq = row[0];
        if seq <= last {
            return false;
        }
        last = seq;
    }
    true
}

// Whether n rows from place from have different numbers; those after the first k rise.
fn rows_apart(rows: &[Row], from: usize, n: usize, k: usize) -> bool
    requires n_in_bounds { from + n ≤ length rows.now }
    requires n_bound { n ≤ 512 }
    requires k_le_n { k ≤ n }
    requires rows_value { ascending (seqs_at (slice k n (drop from rows.now))) ≡ true }
    ensures { result ≡ distinct (seqs_at (take n (drop from rows.now))) }
{
    let head = n.min(k + 1);
    if rows_rise(rows, from, from + head) {
        return true;
    }
    let mut many = [0u64; 512];
    gather::<NUMBER>(rows, from, n, &mut many, 0);
    distinct::distinct(&many, n)
}

// One consumer's rows, which start at base; on a queue only a browser's, since the others are looked at together.
fn sub_apart(w: SubRow, rows: &[Row], base: usize, on_queue: bool) -> bool
    requires w_in_bounds { base + (at 14 w + at 15 w) ≤ length rows.now }
    requires w_bound { at 14 w + at 15 w ≤ 512 }
    requires rows_value { held_rise on_queue (seqs_at (take (at 15 w) (drop (at 14 w) (drop base rows.now)))) ≡ true }
    ensures { result ≡ (not (not on_queue || flag (at 6 w)) || distinct (seqs_at (take (at 14 w + at 15 w) (drop base rows.now)))) }
{
    let inflight = w[14] as usize;
    let k = inflight + w[15] as usize;
    if !on_queue {
        return rows_apart(rows, base, k, inflight);
    }
    if w[6] != 0 {
        return rows_apart(rows, base, k, k);
    }
    true
}

// Each consumer's rows.
fn subs_apart(subs: &[SubRow], rows: &[Row], on_queue: bool) -> bool
    requires subs_in_bounds { sub_rows subs.now ≤ length rows.now }
    requires subs_bound { sub_rows subs.now ≤ 512 }
    requires rows_value { all (held_rise on_queue) (each_sub held_seqs subs.now rows.now) ≡ true }
    ensures { result ≡ all (apart_by (kind_by on_queue)) (subs_at (kind_by on_queue) subs.now rows.now) }
{
    let mut base = 0;
    for w in subs {
        if !sub_apart(*w, rows, base, on_queue) {
            return false;
        }
        base += w[14] as usize + w[15] as usize;
    }
    true
}

// How many of a consumer's rows are a queue's entries: a browser's are copies.
fn taken_of(w: SubRow) -> usize
    ensures { result ≡ (whether flag (at 6 w) then 0 else at 14 w) }
{
    if w[6] != 0 {
        return 0;
    }
    w[14] as usize
}

// Gathers a queue's entries in flight; returns where they end.
fn gather_taken(subs: &[SubRow], rows: &[Row], out: &mut [u64], start: usize) -> usize
    requires subs_in_bounds { sub_rows subs.now ≤ length rows.now }
    requires subs_bound { start + sub_rows subs.now ≤ (length out.old) }
    ensures out_after { take result out.new ≡ take start out.old ++ seqs (taken (subs_at queue subs.now rows.now)) }
    ensures upper_bound { result ≤ start + sub_rows subs.now }
{
    let mut end = start;
    let mut base = 0;
    for w in subs {
        let k = taken_of(*w);
        gather::<NUMBER>(rows, base, k, out, end);
        end += k;
        base += w[14] as usize + w[15] as usize;
    }
    end
}

// Where the first of rows[from..to], which rise, stands that is not below x.
fn not_below(rows: &[Row], from: usize, to: usize, x: u64) -> usize
    requires from_le_to { from ≤ to }
    requires to_in_bounds { to ≤ length rows.now }
    requires rows_value { ascending (seqs_at (slice from to rows.now)) ≡ true }
    ensures upper_bound { result ≤ to }
    ensures same_from { SameFrom x (seqs_at (slice from to rows.now)) (seqs_at (slice result to rows.now)) }
    ensures rows_value_2 { ascending (seqs_at (slice result to rows.now)) ≡ true }
    ensures rows_value_3 { member x (seqs_at (slice result to rows.now)) ≡ (ltb result to && eqb (at 0 (get_or rows.now result [])) x) }
{
    for i in from..to {
        let row = rows[i];
        if x <= row[0] {
            return i;
        }
    }
    to
}

// Whether x is the number of the row at place i, before to.
fn stands(rows: &[Row], i: usize, to: usize, x: u64) -> bool
    requires { to ≤ length rows.now }
    ensures { result ≡ (ltb i to && eqb (at 0 (get_or rows.now i [])) x) }
{
    if to <= i {
        return false;
    }
    let row = rows[i];
    row[0] == x
}

// Where to look for x, where all before place i are below last.
fn resume(from: usize, i: usize, x: u64, last: u64) -> usize
    ensures { (x < last → result ≡ from) × (last ≤ x → result ≡ i) }
{
    if x < last {
        return from;
    }
    i
}

// A number that none of rows[from..to], which rise, is below: that of the first.
fn least_of(rows: &[Row], from: usize, to: usize) -> u64
    requires from_le_to { from ≤ to }
    requires to_in_bounds { to ≤ length rows.now }
    requires rows_value { ascending (seqs_at (slice from to rows.now)) ≡ true }
    ensures { (x : ℕ) → x < result → member x (seqs_at (slice from to rows.now)) ≡ false }
{
    if from == to {
        return SEQ_END;
    }
    let first = rows[from];
    first[0]
}

// Whether none of xs is the number of one of rows[from..to], which rise. As long as the numbers rise too, each is looked for from where the
// one before was.
fn none_waits(xs: &[u64], rows: &[Row], from: usize, to: usize) -> bool
    requires from_le_to { from ≤ to }
    requires to_in_bounds { to ≤ length rows.now }
    requires rows_value { ascending (seqs_at (slice from to rows.now)) ≡ true }
    ensures { result ≡ all (λ x. not (member x (seqs_at (slice from to rows.now)))) xs.now }
{
    let low = least_of(rows, from, to);
    let mut at = from;
    let mut last = 0;
    for x in xs {
        if *x < low {
            continue;
        }
        let start = resume(from, at, *x, last);
        at = not_below(rows, start, to, *x);
        if stands(rows, at, to, *x) {
            return false;
        }
        last = *x;
    }
    true
}

// A queue's waiting, reserved and taken entries. Those that wait rise.
fn queue_apart(
    subs: &[SubRow],
    rows: &[Row],
    others: usize,
    reserved: usize,
    waiting: usize,
    out: &mut [u64],
) -> bool
    requires others_value { others ≡ sub_rows subs.now }
    requires waiting_in_bounds { others + (reserved + waiting) ≤ length rows.now }
    requires waiting_bound { others + (reserved + waiting) ≤ 512 }
    requires reserved_bound { others + reserved ≤ (length out.old) }
    requires rows_value { sorted_ok 0 (slice (others + reserved) (others + reserved + waiting) rows.now) ≡ true }
    ensures { result ≡ distinct (queue_seqs others reserved waiting subs.now rows.now) }
{
    gather::<NUMBER>(rows, others, reserved, out, 0);
    let end = gather_taken(subs, rows, out, reserved);
    if !distinct::distinct(out, end) {
        return false;
    }
    if waiting == 0 {
        return true;
    }
    let first = others + reserved;
    none_waits(&out[..end], rows, first, first + waiting)
}

// Marks the remainders of the numbers of n rows from place from. Yes where none was marked, so that each number is new, and none is the number of one of
// rows[first..end], which rise. No is no answer.
fn marks(rows: &[Row], from: usize, n: usize, slots: &mut [bool], first: usize, end: usize) -> bool
    requires n_in_bounds { from + n ≤ length rows.now }
    requires do_bound { 256 ≤ (length slots.old) }
    requires first_le_end { first ≤ end }
    requires end_in_bounds { end ≤ length rows.now }
    requires rows_value { ascending (seqs_at (slice first end rows.now)) ≡ true }
    ensures { result ≡ true → Met slots.old slots.new (seqs_at (slice first end rows.now)) (seqs_at (take n (drop from rows.now))) }
{
    let low = least_of(rows, first, end);
    let mut at = first;
    let mut last = 0;
    for i in 0..n {
        let row = rows[from + i];
        let seq = row[0];
        let slot = (seq % 256) as usize;
        if slots[slot] {
            return false;
        }
        slots[slot] = true;
        if seq < low {
            continue;
        }
        let start = resume(first, at, seq, last);
        at = not_below(rows, start, end, seq);
        if stands(rows, at, end, seq) {
            return false;
        }
        last = seq;
    }
    true
}

// Whether a queue's entries are seen to be different by the remainders of their numbers. Those that wait rise. No is no answer.
fn seen_apart(subs: &[SubRow], rows: &[Row], others: usize, reserved: usize, waiting: usize) -> bool
    requires others_value { others ≡ sub_rows subs.now }
    requires waiting_in_bounds { others + (reserved + waiting) ≤ length rows.now }
    requires waiting_bound { others + (reserved + waiting) ≤ 512 }
    requires rows_value { sorted_ok 0 (slice (others + reserved) (others + reserved + waiting) rows.now) ≡ true }
    ensures { result ≡ true → distinct (queue_seqs others reserved waiting subs.now rows.now) ≡ true }
{
    let first = others + reserved;
    let end = first + waiting;
    let mut slots = [false; 256];
    if !marks(rows, others, reserved, &mut slots, first, end) {
        return false;
    }
    let mut base = 0;
    for w in subs {
        let k = taken_of(*w);
        if !marks(rows, base, k, &mut slots, first, end) {
            return false;
        }
        base += w[14] as usize + w[15] as usize;
    }
    true
}

// With room for the numbers: few rows need little, which is sooner cleared, or none where the remainders show it.
fn apart(
    subs: &[SubRow],
    rows: &[Row],
    others: usize,
    reserved: usize,
    waiting: usize,
    on_queue: bool,
) -> bool
    requires others_value { others ≡ sub_rows subs.now }
    requires waiting_in_bounds { others + (reserved + waiting) ≤ length rows.now }
    requires waiting_bound { others + (reserved + waiting) ≤ 512 }
    requires rows_value { sorted_ok 0 (slice (others + reserved) (others + reserved + waiting) rows.now) ≡ true }
    requires rows_value_2 { all (held_rise on_queue) (each_sub held_seqs subs.now rows.now) ≡ true }
    ensures { result ≡ (queue_apart (kind_by on_queue) others reserved waiting subs.now rows.now && all (apart_by (kind_by on_queue)) (subs_at (kind_by on_queue) subs.now rows.now)) }
{
    if !subs_apart(subs, rows, on_queue) {
        return false;
    }
    if !on_queue {
        return true;
    }
    if others + reserved <= 64 {
        if seen_apart(subs, rows, others, reserved, waiting) {
            return true;
        }
        let mut few = [0u64; 64];
        return queue_apart(subs, rows, others, reserved, waiting, &mut few);
    }
    let mut many = [0u64; 512];
    queue_apart(subs, rows, others, reserved, waiting, &mut many)
}

// ---- sizes

// Where the rows of one consumer end, and how many they are.
#[derive(Clone, Copy)]
struct Span {
    end: usize,
    many: usize,
}

// The first of the consumers that has most rows. That it has most is not promised: nothing but speed depends on it.
fn most_rows(subs: &[SubRow]) -> Span
    requires subs_bound { sub_rows subs.now ≤ 512 }
    ensures { HubAt subs.now result.end result.many }
{
    let mut end = 0;
    let mut many = 0;
    let mut base = 0;
    for w in subs {
        let k = w[14] as usize + w[15] as usize;
        base += k;
        if many < k {
            many = k;
            end = base;
        }
    }
    Span { end, many }
}

// Whether k rows from place a have the numbers and the sizes of those from place b, one by one.
fn same_rows(rows: &[Row], a: usize, b: usize, k: usize) -> bool
    requires k_in_bounds { a + k ≤ length rows.now }
    requires k_in_bounds_2 { b + k ≤ length rows.now }
    ensures { result ≡ true → SameRows a b k rows.now }
{
    if a == b {
        return true;
    }
    for i in 0..k {
        let x = rows[a + i];
        let y = rows[b + i];
        if (x[0] != y[0]) | (x[9] != y[9]) {
            return false;
        }
    }
    true
}

// Whether k rows from place base are copies of the last of many rows before place end, in their order. No is no answer.
fn alike_at(rows: &[Row], base: usize, k: usize, end: usize, many: usize) -> bool
    requires many_le_end { many ≤ end }
    requires end_in_bounds { end ≤ length rows.now }
    requires k_in_bounds { base + k ≤ length rows.now }
    ensures { result ≡ true → (k ≤ many) × SameRows base (end - k) k rows.now }
{
    if many < k {
        return false;
    }
    same_rows(rows, base, end - k, k)
}

// Whether it is seen that copies of an entry agree on its size: on a topic where each consumer takes all entries, its rows are copies of the last rows of the
// one that has most. No is no answer.
fn alike(subs: &[SubRow], rows: &[Row], on_queue: bool) -> bool
    requires subs_in_bounds { sub_rows subs.now ≤ length rows.now }
    requires subs_bound { sub_rows subs.now ≤ 512 }
    ensures { result ≡ true → AlikeBy on_queue subs.now rows.now }
{
    if on_queue {
        return false;
    }
    let hub = most_rows(subs);
    let end = hub.end;
    let many = hub.many;
    let mut base = 0;
    for w in subs {
        let k = w[14] as usize + w[15] as usize;
        if !alike_at(rows, base, k, end, many) {
            return false;
        }
        base += k;
    }
    true
}

// Whether copies of an entry among the first rows agree on its size. Where no entry can have two rows, none is looked at.
fn sizes_ok(subs: &[SubRow], rows: &[Row], used: usize, on_queue: bool) -> bool
    requires used_in_bounds { used ≤ length rows.now }
    requires used_bound { used ≤ 512 }
    requires rows_value { shared_by on_queue subs.now ≡ false → sizes_at used rows.now ≡ true }
    ensures { result ≡ sizes_at used rows.now }
{
    if !copies::shared(subs, subs.len(), on_queue) {
        return true;
    }
    copies::agree(rows, used)
}

// ---- shares

// Gathers those of a queue's entries in flight; returns where they end.
// Not one with `gather_taken`: the definitions say numbers and connections of entries by two words, so each has its own lemmas.
fn taken_conns(subs: &[SubRow], rows: &[Row], out: &mut [u64], start: usize) -> usize
    requires subs_in_bounds { sub_rows subs.now ≤ length rows.now }
    requires subs_bound { start + sub_rows subs.now ≤ (length out.old) }
    ensures { take result out.new ≡ take start out.old ++ conns (taken (subs_at queue subs.now rows.now)) }
{
    let mut end = start;
    let mut base = 0;
    for w in subs {
        let k = taken_of(*w);
        gather::<CONNECTION>(rows, base, k, out, end);
        end += k;
        base += w[14] as usize + w[15] as usize;
    }
    end
}

// Gathers those of all rows that belong to connections; returns how many.
fn own_conns(
    subs: &[SubRow],
    rows: &[Row],
    others: usize,
    rest: usize,
    on_queue: bool,
    out: &mut [u64],
) -> usize
    requires others_value { others ≡ sub_rows subs.now }
    requires rest_in_bounds { others + rest ≤ length rows.now }
    requires rest_bound { others + rest ≤ (length out.old) }
    requires rest_bound_2 { others + rest ≤ 512 }
    ensures { take result out.new ≡ own_conns on_queue others rest subs.now rows.now }
{
    if !on_queue {
        gather::<CONNECTION>(rows, 0, others + rest, out, 0);
        return others + rest;
    }
    gather::<CONNECTION>(rows, others, rest, out, 0);
    taken_conns(subs, rows, out, rest)
}

// Whether no connection has more rows than the share. Where no more are in use, none is looked at.
fn shares_ok(
    subs: &[SubRow],
    rows: &[Row],
    others: usize,
    rest: usize,
    share: u64,
    on_queue: bool,
) -> bool
    requires others_value { others ≡ sub_rows subs.now }
    requires rest_in_bounds { others + rest ≤ length rows.now }
    requires rest_bound { others + rest ≤ 512 }
    ensures { result ≡ shares_at share on_queue others rest subs.now rows.now }
{
    if (others + rest) as u64 <= share {
        return true;
    }
    let mut out = [0u64; 512];
    let end = own_conns(subs, rows, others, rest, on_queue, &mut out);
    shares::within(&out, end, share)
}

// ---- all

// The numbers and the sizes of consumers and rows that are sound one by one.
fn numbers_ok(
    subs: &[SubRow],
    rows: &[Row],
    others: usize,
    reserved: usize,
    waiting: usize,
    on_queue: bool,
) -> bool
    requires others_value { others ≡ sub_rows subs.now }
    requires waiting_in_bounds { others + (reserved + waiting) ≤ length rows.now }
    requires waiting_bound { others + (reserved + waiting) ≤ 512 }
    requires rows_value { sorted_ok 0 (slice (others + reserved) (others + reserved + waiting) rows.now) ≡ true }
    requires rows_value_2 { all (held_rise on_queue) (each_sub held_seqs subs.now rows.now) ≡ true }
    requires lone_agree { LoneAgree on_queue others reserved waiting subs.now rows.now }
    ensures { result ≡ numbers_ok (kind_by on_queue) others reserved waiting subs.now rows.now }
{
    let first = others + reserved;
    let place = on_queue | (reserved + waiting == 0);
    let seqs = apart(subs, rows, others, reserved, waiting, on_queue);
    if !(place & seqs) {
        return false;
    }
    if alike(subs, rows, on_queue) {
        return true;
    }
    sizes_ok(subs, rows, first + waiting, on_queue)
}

// What follows the head.
fn rest_ok(head: &[u64], subs: &[SubRow], rows: &[Row]) -> bool
    requires in_bounds { 8347 ≤ length head.now }
    requires do_bound { 32 ≤ (length subs.now) }
    requires in_bounds_2 { 512 ≤ length rows.now }
    requires head_value { (head_ok head.now ≡ true) × (rings_formed (at 14 head.now) (drop 113 head.now) ≡ true) }
    ensures { result ≡ rest_ok (lent head.now subs.now rows.now) }
{
    let n = head[12] as usize;
    let reserved = head[15] as usize;
    let waiting = head[16] as usize;
    let on_queue = head[0] == 0;
    let most = 65536 * head[3] + 1;
    let look = subrows::test_all(subs, n, rows, reserved, waiting, most, on_queue);
    if !look.ok {
        return false;
    }
    let subs = &subs[..n];
    let others = look.others;
    if !numbers_ok(subs, rows, others, reserved, waiting, on_queue) {
        return false;
    }
    let rest = reserved + waiting;
    shares_ok(subs, rows, others, rest, head[8346], on_queue)
}

// Whether the buffers are long enough.
pub fn whole(head: &[u64], subs: &[SubRow], rows: &[Row]) -> bool
    ensures { result ≡ not (state_short (lengths_of (lent head.now subs.now rows.now) 0)) }
{
    !((head.len() < 8347) | ((subs.len() < 32) | (rows.len() < 512)))
}

// Whether they are long enough and the layout of a sound state.
pub fn sound(head: &[u64], subs: &[SubRow], rows: &[Row]) -> bool
    ensures { result ≡ (not (state_short (lengths_of (lent head.now subs.now rows.now) 0)) && sound_buffers (lent head.now subs.now rows.now)) }
{
    if !whole(head, subs, rows) {
        return false;
    }
    if !heads::sound(head) {
        return false;
    }
    rest_ok(head, subs, rows)
}
