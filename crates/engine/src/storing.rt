// An entry that arrives (`enqueue` of destination.rs, before its dispatch): refused, or stored on a queue or fanned out on a topic.
ghost use Rattle.std.specs.Prelude.{◌≡◌, true, ◌+◌, ◌≤◌, ◌<◌, ◌^◌, length, take};
ghost use Rattle.std.proofs.Math.Seq.{slice};
ghost use Rattle.definition.specs.Base.{tally};
ghost use Rattle.definition.specs.Layout.{sub_rows};
ghost use Rattle.entry.specs.Entry.{row_of};
ghost use Rattle.consumers.specs.Table.{on_first, held_back_row};
ghost use Rattle.state.specs.Answers.{refusal_of};
ghost use Rattle.state.specs.State.{first_waiting};
ghost use Rattle.state.specs.Fits.{fits};
ghost use Rattle.table.specs.Table.{place_of, insert_row};
ghost use Rattle.engine.specs.Storing.{holds, rows_needed, own_refusal_of, queued_head, kept};
ghost use Rattle.engine.specs.Shares.{came_from, own_of, taken_from, held_from, over_of};
ghost use Rattle.engine.specs.Arrivals.{rows_in_order, FannedOut, Standing, Arrives, Arrived};

use crate::{fanning, ordered};
use consumers::{Sub, SubRow};
use entry::{Entry, Row};
use model::Refusal;
use state::Head;

// The producer connection's word in a row.
const PRODUCER: usize = 3;

// ---- a producer connection's rows

// Whether a row came from a connection.
fn is_from(row: &Row, conn: u64) -> bool
    ensures { result ≡ came_from conn row.now }
{
    conn == row[PRODUCER]
}

// How many of rows[from..to] came from a connection.
fn count_from(rows: &[Row], from: usize, to: usize, conn: u64) -> usize
    requires { (from ≤ to) × (to ≤ length rows.now) }
    ensures { result ≡ tally (came_from conn) (slice from to rows.now) }
{
    let mut count = 0;
    for row in &rows[from..to] {
        if is_from(row, conn) {
            count += 1;
        }
    }
    count
}

// How many of a consumer's rows, from its first on, belong to connections: copies of a queue's browsers belong to none.
fn own_of(s: Sub, queue: bool) -> usize
    requires { s.inflight + s.held ≤ 512 }
    ensures { result ≡ own_of queue s }
{
    if !queue {
        return s.inflight + s.held;
    }
    if s.browser { 0 } else { s.inflight }
}

// How many of the consumers' rows are a connection's.
fn taken_from(subs: &[SubRow], rows: &[Row], d: Head, conn: u64) -> usize
    requires { fits subs.now d (length rows.now) 545 ≡ true }
    ensures { result ≡ taken_from d.queue conn 0 (take d.consumers subs.now) rows.now }
{
    let n = d.consumers;
    let queue = d.queue;
    let mut count = 0;
    let mut base = 0;
    for i in 0..n {
        let s = consumers::load(subs, i);
        count += count_from(rows, base, base + own_of(s, queue), conn);
        base += s.inflight + s.held;
    }
    count
}

// How many rows a connection holds.
fn rows_from(subs: &[SubRow], rows: &[Row], d: Head, conn: u64) -> usize
    requires { fits subs.now d (length rows.now) 545 ≡ true }
    ensures value { result ≡ held_from conn d subs.now rows.now }
    ensures upper_bound { result ≤ 512 }
{
    taken_from(subs, rows, d, conn) + count_from(rows, d.first_reserved(), d.used, conn)
}

// ---- refusals

// Whether one of a queue's rows in use has a sequence number; those that wait are the last.
fn is_queued(rows: &[Row], first: usize, used: usize, seq: u64) -> bool
    requires { (first ≤ used) × (used ≤ length rows.now) × (rows_in_order (slice first used rows.now) ≡ true) }
    ensures { result ≡ holds seq (take used rows.now) }
{
    if ordered::has_number(rows, first, used, seq) {
        return true;
    }
    table::has_seq(rows, 0, first, seq)
}

// Whether one of the rows of a topic's first n consumers has it.
fn is_fanned_out(subs: &[SubRow], rows: &[Row], n: usize, seq: u64) -> bool
    requires { FannedOut n subs.now rows.now }
    ensures { result ≡ holds seq (take (sub_rows (take n subs.now)) rows.now) }
{
    let mut base = 0;
    for i in 0..n {
        let s = consumers::load(subs, i);
        let from = base + s.inflight;
        let to = from + s.held;
        if table::has_seq(rows, base, from, seq) {
            return true;
        }
        if ordered::has_number(rows, from, to, seq) {
            return true;
        }
        base = to;
    }
    false
}

// Whether a row in use has it.
fn is_held(subs: &[SubRow], rows: &[Row], d: Head, seq: u64) -> bool
    requires { Standing d subs.now rows.now }
    ensures { result ≡ holds seq (take d.used rows.now) }
{
    if d.queue {
        return is_queued(rows, d.first_waiting(), d.used, seq);
    }
    is_fanned_out(subs, rows, d.consumers, seq)
}

// The rows that an entry needs.
fn rows_for(subs: &[SubRow], d: Head, e: Entry) -> usize
    ensures { result ≡ rows_needed e d subs.now }
{
    if d.queue {
        return 1;
    }
    consumers::accepting(subs, d.consumers, e)
}

// Whether an entry's rows, with those that its connection holds, are more than the share.
fn over_share(subs: &[SubRow], rows: &[Row], d: Head, e: Entry) -> bool
    requires { (fits subs.now d (length rows.now) 545 ≡ true) × (d.share < 512) }
    ensures { result ≡ over_of e d subs.now rows.now }
{
    d.share < (rows_from(subs, rows, d, e.producer) + rows_for(subs, d, e)) as u64
}

// Whether an entry is stored: refused where its number is held, where it goes over its connection's share, and where too few rows
// are free. A share of 512 or more is not looked at.
pub(crate) fn admit(subs: &[SubRow], rows: &[Row], d: Head, e: Entry) -> Result<(), Refusal>
    requires { Standing d subs.now rows.now }
    ensures { refusal_of result ≡ own_refusal_of e d subs.now rows.now }
{
    if is_held(subs, rows, d, e.seq) {
        return Err(Refusal::NumberHeld);
    }
    if d.share < entry::SHARE_MOST {
        if over_share(subs, rows, d, e) {
            return Err(Refusal::ShareUsedUp);
        }
    }
    if d.free_rows() < rows_for(subs, d, e) {
        return Err(Refusal::RowsFull);
    }
    Ok(())
}

// ---- stored on a queue

fn queued(subs: &mut [SubRow], rows: &mut [Row], mut d: Head, e: Entry) -> Head
    requires { (d.used ≤ 512) × (d.used ≤ length rows.old) × (d.waiting ≤ 512) × (rows_in_order (slice (first_waiting d) d.used rows.old) ≡ true) }
    ensures value { result ≡ queued_head d }
    ensures subs_after { subs.new ≡ on_first (held_back_row e.seq) d.consumers subs.old }
    ensures rows_after { rows.new ≡ insert_row (place_of (first_waiting d) d.used e.seq rows.old) d.used (row_of e 0 0 0) rows.old }
{
    consumers::hold_back(subs, d.consumers, e.seq);
    let place = ordered::place_from_end(rows, d.first_waiting(), d.used, e.seq);
    table::insert_row(rows, place, d.used, entry::held_row(e));
    d.used = d.used + 1;
    d.waiting = d.waiting + 1;
    d.not_idle()
}

// ---- stored by the kind

// Stores an entry that is not refused, on a queue or fanned out on a topic, by the clock that entries expire by; nothing is dispatched yet.
pub(crate) fn store(subs: &mut [SubRow], rows: &mut [Row], d: Head, e: Entry, by: u64) -> Head
    requires { Arrives e d subs.old rows.old × (d.stats.enqueued ≤ 2 ^ 62) × (by ≤ 2 ^ 62) }
    ensures { Arrived (kept by e) d result subs.old rows.old subs.new rows.new }
{
    let counted = d.count_enqueued();
    if d.queue {
        return queued(subs, rows, counted, e);
    }
    fanning::fan_out_all(subs, rows, counted, e, by)
}
