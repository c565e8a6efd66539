// The queries of a destination on lent buffers: they use no call and change nothing.
#![tactic(auto)]

ghost use Rattle.std.specs.Prelude.{◌≡◌, true, false, ◌||◌, map, ◌+◌, ◌-◌, ◌/◌, ◌≤◌, min, length, take};
ghost use Rattle.std.proofs.Math.Seq.{slice};
ghost use Rattle.words.specs.Pick.{whether◌then◌else◌};
ghost use Rattle.definition.specs.Base.{all, member, distinct};
ghost use Rattle.definition.specs.Words.{at, kind_by};
ghost use Rattle.definition.specs.Queries.{of_kind, consumers, expirations, messages, bytes, idle, sequence};
ghost use Rattle.definition.specs.Layout.{subs_at, sub_rows, buffer_query, buffer_counters, buffer_page, lent};
ghost use Rattle.copies.specs.Copies.{Slot, shared_by};
ghost use Rattle.queries.specs.Answers.{as_asked, as_counted, barred, lasts, sub_lasts, is_idle};
ghost use Rattle.queries.specs.Bytes.{bytes_at, sizes_of, Small};
ghost use Rattle.queries.specs.Pages.{buffer_first_waiting, as_plan, PagePlanned, page_line_at};

use consumers::{BROWSER, HELD, INFLIGHT, SubRow};
use entry::Row;
use model::Refusal;
use state::Head;
use stats::Stats;

// Most lines of a page.
pub const PAGE_MAX: usize = 50;

// The refusal (0: answered) and the answer, as the C header has them.
#[repr(C)]
#[derive(Clone, Copy)]
pub struct Asked {
    pub refusal: u64,
    pub answer: u64,
}

// The refusal and the counters, 0 beside a refusal, as the C header has them.
#[repr(C)]
#[derive(Clone, Copy)]
pub struct Counted {
    pub refusal: u64,
    pub stats: Stats,
}

// The refusal, how many entries wait, and the rows of a page's lines: `count` of them from row `from` on. Beside a refusal the others are 0.
// No Result: `as_plan` and `PagePlanned`, which `plan` promises, name the refusal's number.
#[repr(C)]
#[derive(Clone, Copy)]
pub struct PagePlan {
    pub refusal: u64,
    pub total: u64,
    pub from: usize,
    pub count: usize,
}

// The refusal, how many entries wait, and how many lines were written, as the C header has them.
#[repr(C)]
#[derive(Clone, Copy)]
pub struct Paged {
    pub refusal: u64,
    pub total: u64,
    pub count: usize,
}

// A line of a page.
#[repr(C)]
#[derive(Clone, Copy)]
pub struct PageLine {
    pub seq: u64,
    pub expiration: i64,
    pub redelivery: i32,
}

// What a query meets first: 1 where a buffer is short, 2 where the state is not sound, else 0. A number, as the definition `barred` has it.
pub fn barred(head: &[u64], subs: &[SubRow], rows: &[Row]) -> u64
    ensures { result ≡ barred (lent head.now subs.now rows.now) }
{
    if !sound::whole(head, subs, rows) {
        return u64::from(Refusal::Short);
    }
    if !sound::sound(head, subs, rows) {
        return u64::from(Refusal::NotSound);
    }
    0
}

// 1 for a queue, 0 for a topic.
pub fn is_queue(head: &[u64], subs: &[SubRow], rows: &[Row]) -> Asked
    ensures { result ≡ as_asked (buffer_query (lent head.now subs.now rows.now) of_kind) }
{
    let refusal = barred(head, subs, rows);
    if refusal != 0 {
        return Asked { refusal, answer: 0 };
    }
    let d = state::load(head, subs);
    Asked {
        refusal: 0,
        answer: d.queue as u64,
    }
}

// 1 if there are consumers.
pub fn has_consumers(head: &[u64], subs: &[SubRow], rows: &[Row]) -> Asked
    ensures { result ≡ as_asked (buffer_query (lent head.now subs.now rows.now) consumers) }
{
    let refusal = barred(head, subs, rows);
    if refusal != 0 {
        return Asked { refusal, answer: 0 };
    }
    let d = state::load(head, subs);
    Asked {
        refusal: 0,
        answer: (d.consumers != 0) as u64,
    }
}

// ---- has_expiring

// A row whose entry has no expiration.
fn lasts(row: Row) -> bool
    ensures { result ≡ lasts row }
{
    let at = entry::entry_of(row).expiration;
    !(0 < at)
}

// Each of rows[from..to].
fn lasting(rows: &[Row], from: usize, to: usize) -> bool
    requires from_le_to { from ≤ to }
    requires to_in_bounds { to ≤ length rows.now }
    ensures { result ≡ all lasts (slice from to rows.now) }
{
    rows[from..to].iter().all(|row| lasts(*row))
}

// The same; a snapshot is not looked at.
fn held_lasting(rows: &[Row], from: usize, to: usize, snapshot: bool) -> bool
    requires from_le_to { from ≤ to }
    requires to_in_bounds { to ≤ length rows.now }
    ensures { result ≡ (snapshot || all lasts (slice from to rows.now)) }
{
    if snapshot {
        return true;
    }
    lasting(rows, from, to)
}

// What each consumer holds; base is where its rows begin.
fn subs_lasting(subs: &[SubRow], rows: &[Row], on_queue: bool) -> bool
    requires { sub_rows subs.now ≤ length rows.now }
    ensures { result ≡ all sub_lasts (subs_at (kind_by on_queue) subs.now rows.now) }
{
    let mut base = 0;
    for w in subs {
        let flying = w[INFLIGHT] as usize;
        let k = flying + w[HELD] as usize;
        let snapshot = on_queue & (w[BROWSER] != 0);
        if !held_lasting(rows, base + flying, base + k, snapshot) {
            return false;
        }
        base += k;
    }
    true
}

// 1 if an entry that waits, on the queue or for a consumer, has an expiration.
pub fn has_expiring(head: &[u64], subs: &[SubRow], rows: &[Row]) -> Asked
    ensures { result ≡ as_asked (buffer_query (lent head.now subs.now rows.now) expirations) }
{
    let refusal = barred(head, subs, rows);
    if refusal != 0 {
        return Asked { refusal, answer: 0 };
    }
    let d = state::load(head, subs);
    let waiting = lasting(rows, d.first_waiting(), d.used);
    let held = subs_lasting(&subs[..d.consumers], rows, d.queue);
    Asked {
        refusal: 0,
        answer: !(waiting & held) as u64,
    }
}

// Entries that wait or are in flight, of all consumers; snapshots and reserved ones apart.
pub fn message_count(head: &[u64], subs: &[SubRow], rows: &[Row]) -> Asked
    ensures { result ≡ as_asked (buffer_query (lent head.now subs.now rows.now) messages) }
{
    let refusal = barred(head, subs, rows);
    if refusal != 0 {
        return Asked { refusal, answer: 0 };
    }
    let d = state::load(head, subs);
    let held = consumers::held_rows(subs, d.consumers, d.queue);
    Asked {
        refusal: 0,
        answer: (d.waiting + held) as u64,
    }
}

// ---- bytes_held

// Whether one of rows[from..to] has this number.
fn met(rows: &[Row], from: usize, to: usize, seq: u64) -> bool
    requires from_le_to { from ≤ to }
    requires to_in_bounds { to ≤ length rows.now }
    ensures { result ≡ member seq (map (at 0) (slice from to rows.now)) }
{
    rows[from..to].iter().any(|row| seq == row[0])
}

// The same where the table holds this place for the number.
fn known(rows: &[Row], from: usize, to: usize, seq: u64, place: usize) -> bool
    requires from_le_to { from ≤ to }
    requires to_in_bounds { to ≤ length rows.now }
    requires slot { Slot seq place from to rows.now }
    ensures { result ≡ member seq (map (at 0) (slice from to rows.now)) }
{
    if place == 0 {
        return false;
    }
    let row = rows[place - 1];
    if row[0] == seq {
        return true;
    }
    met(rows, from, to, seq)
}

// What a row of this size adds to them.
fn added(rows: &[Row], from: usize, to: usize, seq: u64, place: usize, size: u64) -> u64
    requires from_le_to { from ≤ to }
    requires to_in_bounds { to ≤ length rows.now }
    requires slot { Slot seq place from to rows.now }
    ensures { result ≡ (whether member seq (map (at 0) (slice from to rows.now)) then 0 else size) }
{
    if known(rows, from, to, seq, place) {
        return 0;
    }
    size
}

// The sizes of the first n rows, each number once: by a number's remainder the table has the place after the last row met, from the end, 0 for none.
fn once(rows: &[Row], n: usize) -> u64
    requires n_in_bounds { n ≤ length rows.now }
    requires n_bound { n ≤ 512 }
    requires small { Small n rows.now }
    ensures { result ≡ bytes_at (take n rows.now) }
{
    let mut slots = [0u16; 1024];
    let mut sum = 0;
    for i in (0..n).rev() {
        let row = rows[i];
        let seq = row[0];
        let slot = (seq % 1024) as usize;
        sum += added(rows, i + 1, n, seq, slots[slot] as usize, row[9]);
        slots[slot] = (i + 1) as u16;
    }
    sum
}

// The sizes of the first n rows.
fn each(rows: &[Row], n: usize) -> u64
    requires n_in_bounds { n ≤ length rows.now }
    requires n_bound { n ≤ 512 }
    requires small { Small n rows.now }
    ensures { result ≡ sizes_of (take n rows.now) }
{
    let mut sum = 0;
    for row in &rows[..n] {
        sum += row[9];
    }
    sum
}

// The bytes of the first rows. Where no entry can have two of them, no number is looked at.
fn bytes_of(subs: &[SubRow], n: usize, rows: &[Row], used: usize, on_queue: bool) -> u64
    requires used_in_bounds { used ≤ length rows.now }
    requires used_bound { used ≤ 512 }
    requires small { Small used rows.now }
    requires rows_value { shared_by on_queue (take n subs.now) ≡ false → distinct (map (at 0) (take used rows.now)) ≡ true }
    ensures { result ≡ bytes_at (take used rows.now) }
{
    if !copies::shared(subs, n, on_queue) {
        return each(rows, used);
    }
    once(rows, used)
}

// The bytes that the destination holds: each sequence number counts once, whatever rows hold it (document 02 §3).
pub fn bytes_held(head: &[u64], subs: &[SubRow], rows: &[Row]) -> Asked
    ensures { result ≡ as_asked (buffer_query (lent head.now subs.now rows.now) bytes) }
{
    let refusal = barred(head, subs, rows);
    if refusal != 0 {
        return Asked { refusal, answer: 0 };
    }
    let d = state::load(head, subs);
    Asked {
        refusal: 0,
        answer: bytes_of(subs, d.consumers, rows, d.used, d.queue),
    }
}

// ---- idle_for

// The clock less the mark in whole seconds, 0 if the clock went back.
fn idle_seconds(since: u64, clock: u64) -> u64
    ensures { result ≡ (clock - since) / 1000 }
{
    clock.saturating_sub(since) / 1000
}

fn is_idle(d: Head, clock: u64, secs: u64) -> bool
    ensures { result ≡ is_idle clock secs d }
{
    if d.waiting != 0 {
        return false;
    }
    if d.consumers != 0 {
        return false;
    }
    if d.producers != 0 {
        return false;
    }
    if !d.idle {
        return false;
    }
    secs <= idle_seconds(d.idle_since, clock)
}

// 1 if the destination has been empty and unused for at least so many seconds. The clock counts milliseconds.
pub fn idle_for(head: &[u64], subs: &[SubRow], rows: &[Row], clock: u64, secs: u64) -> Asked
    ensures { result ≡ as_asked (buffer_query (lent head.now subs.now rows.now) (idle clock secs)) }
{
    let refusal = barred(head, subs, rows);
    if refusal != 0 {
        return Asked { refusal, answer: 0 };
    }
    if entry::CLOCK_MOST < clock {
        return Asked {
            refusal: u64::from(Refusal::Arguments),
            answer: 0,
        };
    }
    let d = state::load(head, subs);
    Asked {
        refusal: 0,
        answer: is_idle(d, clock, secs) as u64,
    }
}

// The sequence number of the waiting entry at a place, 0 for none.
pub fn seq_at(head: &[u64], subs: &[SubRow], rows: &[Row], index: u64) -> Asked
    ensures { result ≡ as_asked (buffer_query (lent head.now subs.now rows.now) (sequence index)) }
{
    let refusal = barred(head, subs, rows);
    if refusal != 0 {
        return Asked { refusal, answer: 0 };
    }
    let d = state::load(head, subs);
    if d.waiting as u64 <= index {
        return Asked {
            refusal: 0,
            answer: 0,
        };
    }
    let at = d.first_waiting() + index as usize;
    let row = rows[at];
    Asked {
        refusal: 0,
        answer: row[0],
    }
}

// The five counters.
pub fn counters(head: &[u64], subs: &[SubRow], rows: &[Row]) -> Counted
    ensures { result ≡ as_counted (buffer_counters (lent head.now subs.now rows.now)) }
{
    let refusal = barred(head, subs, rows);
    if refusal != 0 {
        let stats = Stats {
            enqueued: 0,
            dequeued: 0,
            expired: 0,
            discarded: 0,
            dispatched: 0,
        };
        return Counted { refusal, stats };
    }
    let d = state::load(head, subs);
    let stats = d.stats;
    Counted { refusal: 0, stats }
}

// ---- page

// How many lines a page has: at most 50, the limit, and what waits from the offset on.
fn lines_of(waiting: usize, offset: u64, limit: u64) -> usize
    ensures { result ≡ min (min limit 50) (waiting - offset) }
{
    let left = (waiting as u64).saturating_sub(offset);
    limit.min(PAGE_MAX as u64).min(left) as usize
}

fn no_plan(refusal: u64) -> PagePlan
    ensures { result ≡ (record { refusal = refusal; total = 0; from = 0; count = 0 }) }
{
    PagePlan {
        refusal,
        total: 0,
        from: 0,
        count: 0,
    }
}

// A page of the entries that wait, for a list of so many lines: where its rows stand. A list under 50 lines gets 1.
pub fn plan(
    head: &[u64],
    subs: &[SubRow],
    rows: &[Row],
    lines: usize,
    offset: u64,
    limit: u64,
) -> PagePlan
    ensures value { result ≡ as_plan (buffer_first_waiting (lent head.now subs.now rows.now) + offset) (buffer_page (lent head.now subs.now rows.now) lines offset limit) }
    ensures page_planned { PagePlanned (buffer_page (lent head.now subs.now rows.now) lines offset limit) rows.now lines result }
{
    if lines < PAGE_MAX {
        return no_plan(u64::from(Refusal::Short));
    }
    let refusal = barred(head, subs, rows);
    if refusal != 0 {
        return no_plan(refusal);
    }
    let d = state::load(head, subs);
    let total = d.waiting as u64;
    let count = lines_of(d.waiting, offset, limit);
    if count == 0 {
        return PagePlan {
            refusal: 0,
            total,
            from: 0,
            count: 0,
        };
    }
    let from = d.first_waiting() + offset as usize;
    PagePlan {
        refusal: 0,
        total,
        from,
        count,
    }
}

// The line of the row at `i` after `from`; past the rows, zeros.
pub fn line_at(rows: &[Row], from: usize, i: usize) -> PageLine
    ensures { result ≡ page_line_at rows.now from i }
{
    if from < rows.len() {
        if i < rows.len() - from {
            let e = entry::entry_of(rows[from + i]);
            return PageLine {
                seq: e.seq,
                expiration: e.expiration,
                redelivery: e.redelivery,
            };
        }
    }
    PageLine {
        seq: 0,
        expiration: 0,
        redelivery: 0,
    }
}
