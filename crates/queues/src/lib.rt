// A queue's dispatch without its browsers (`dispatch_queue` of destination.rs): waiting entries go out to consumers that have credit, in turn.
#![tactic(auto)]

ghost use Rattle.std.specs.Prelude.{◌≡◌, MatchOption, [], ◌-◌, ◌%◌, ◌≤◌, ◌<◌, ◌^◌, length, take, get_or};
ghost use Rattle.definition.specs.Base.{all};
ghost use Rattle.consumers.specs.Table.{next_fits};
ghost use Rattle.state.specs.Leaves.{Leaves, LeavesIf};
ghost use Rattle.queues.specs.Look.{Passed, Found, Missed};
ghost use Rattle.queues.specs.Give.{Gives, Gave, looked_head};
ghost use Rattle.queues.specs.Scan.{can_take, scan_tables, scan_counters, rows_fit, scans, Scans, Onward, Visited, served};

use consumers::{Sub, SubRow};
use entry::Row;
use state::{Event, Head};
use stats::Stats;

// From there a delivery number, or a counter, can rise by a full table and is no more than 2^63.
const NEXT_MOST: u64 = 4611686018427387904;

const RISING_MOST: u64 = 9223372036854775296;

// What a look along the waiting rows leaves: where the entry stands that was chosen, where the rows in use end, and the cursor.
#[derive(Clone, Copy)]
struct Looked {
    at: Option<usize>,
    end: usize,
    cursor: u64,
}

// A consumer's turn in the scan: whether it took an entry, and what that leaves.
#[derive(Clone, Copy)]
struct Turn {
    took: bool,
    head: Head,
}

// A place in from..to before which no row is after the cursor.
fn passed(rows: &[Row], from: usize, to: usize, cursor: u64) -> usize
    requires { (from ≤ to) × (to ≤ length rows.now) × (to ≤ 512) }
    ensures { Passed from to cursor rows.now result }
{
    let mut i = from;
    // A while: four rows a step, for speed (docs/SPEED.md), and the place is the answer.
    while 4 <= to - i {
        let a = rows[i][0];
        let b = rows[i + 1][0];
        let c = rows[i + 2][0];
        let d = rows[i + 3][0];
        if (cursor < a) | (cursor < b) | (cursor < c) | (cursor < d) {
            return i;
        }
        i += 4;
    }
    i
}

// The earliest of the waiting rows from..to after the cursor that the consumer accepts; expired ones met on the way go.
fn look(rows: &mut [Row], from: usize, to: usize, s: Sub, by: u64) -> Looked
    requires { (from ≤ to) × (to ≤ length rows.old) × (to ≤ 512) × (by ≤ 2 ^ 62) }
    ensures { MatchOption result.at (Missed by s from to rows.old rows.new result.end result.cursor) (λ at. Found by s from to rows.old rows.new at result.end) }
{
    let at = words::signed_of(by);
    let mut end = to;
    let mut cursor = s.cursor;
    let mut i = passed(rows, from, to, s.cursor);
    // A while: the end moves as rows go.
    while i < end {
        let e = entry::entry_of(rows[i]);
        if e.seq <= s.cursor {
            i += 1;
        } else if e.expired(at) {
            table::close_gap(rows, i, 1, end);
            end -= 1;
        } else if s.accepts(e) {
            return Looked {
                at: Some(i),
                end,
                cursor: e.seq,
            };
        } else {
            cursor = e.seq;
            i += 1;
        }
    }
    Looked {
        at: None,
        end,
        cursor,
    }
}

// The numbers when the rows in use end there: the others waited, and have expired.
fn after_look(mut d: Head, end: usize) -> Head
    requires { (end ≤ d.used) × (d.used - end ≤ d.waiting) }
    ensures { result ≡ looked_head end d }
{
    let gone = d.used - end;
    d.used = end;
    d.waiting = d.waiting - gone;
    d.count_expired(gone as u64)
}

// The waiting row at a place goes out to consumer i, and stands last among its rows in flight.
fn give(
    subs: &mut [SubRow],
    rows: &mut [Row],
    events: &mut [Event],
    i: usize,
    mut s: Sub,
    at: usize,
    before: Head,
) -> Head
    requires { Gives subs.old (length rows.old) (length events.old) i s at before }
    ensures { Gave i s at before result subs.old rows.old events.old subs.new rows.new events.new }
{
    let e = entry::entry_of(rows[at]);
    let mut d = state::push_message(
        events,
        before,
        s.conn,
        s.session,
        s.value,
        e.seq,
        e.redelivery,
    );
    let last = consumers::base_of(subs, i) + s.inflight;
    table::insert_row(rows, last, at, entry::inflight_row(e, s.next_dseq));
    s.cursor = e.seq;
    consumers::store(subs, i, s.sent());
    d.waiting = d.waiting - 1;
    d.turn = in_turn(i + 1, d.consumers);
    d.count_dispatched()
}

// x % n, mostly without a division.
fn in_turn(x: usize, n: usize) -> usize
    requires { 0 < n }
    ensures { result ≡ x % n }
{
    if x < n {
        return x;
    }
    if x - n < n {
        return x - n;
    }
    x % n
}

// Whether consumer i is no browser and has credit: else its turn leaves everything as it is.
fn can_take(subs: &[SubRow], i: usize) -> bool
    ensures { result ≡ can_take (get_or subs.now i []) }
{
    let s = consumers::load(subs, i);
    !s.browser && s.has_credit()
}

// Consumer i's turn in the scan.
fn visit(
    subs: &mut [SubRow],
    rows: &mut [Row],
    events: &mut [Event],
    i: usize,
    d: Head,
    by: u64,
) -> Turn
    requires { Scans subs.old d (length rows.old) (length events.old) × (i < d.consumers) × (by ≤ 2 ^ 62) }
    ensures { Visited by i d result.took result.head subs.old rows.old events.old subs.new rows.new events.new }
{
    let mut s = consumers::load(subs, i);
    if s.browser {
        return Turn {
            took: false,
            head: d,
        };
    }
    if !s.has_credit() {
        return Turn {
            took: false,
            head: d,
        };
    }
    let l = look(rows, d.first_waiting(), d.used, s, by);
    let seen = after_look(d, l.end);
    if let Some(at) = l.at {
        let given = give(subs, rows, events, i, s, at, seen);
        return Turn {
            took: true,
            head: given,
        };
    }
    s.cursor = l.cursor;
    consumers::store(subs, i, s);
    Turn {
        took: false,
        head: seen,
    }
}

// The scan over consumers stops at the first that takes an entry, and starts again after it.
fn rounds(
    subs: &mut [SubRow],
    rows: &mut [Row],
    events: &mut [Event],
    before: Head,
    by: u64,
) -> Head
    requires { Scans subs.old before (length rows.old) (length events.old) × (by ≤ 2 ^ 62) }
    ensures leaves { Leaves (served by) before result subs.old rows.old events.old subs.new rows.new events.new }
    ensures onward { Onward before result subs.old rows.old events.old subs.new rows.new events.new }
{
    let n = before.consumers;
    let mut d = before;
    // A while: what waits changes as entries go.
    'dispatch: while 0 < d.waiting {
        for k in 0..n {
            let i = in_turn(d.turn + k, n);
            if !can_take(subs, i) {
                continue;
            }
            let r = visit(subs, rows, events, i, d, by);
            d = r.head;
            if r.took {
                continue 'dispatch;
            }
        }
        return d;
    }
    d
}

// ---- when the scan can run

// The tables are long enough, the counts within them, and there is room for an event for each waiting entry.
fn scan_tables(d: Head, subs: usize, rows: usize, events: usize) -> bool
    ensures { result ≡ scan_tables d subs rows events }
{
    state::CONSUMERS <= subs
        && state::ROWS <= rows
        && d.consumers <= state::CONSUMERS
        && d.turn <= state::CONSUMERS
        && d.waiting <= events
        && d.events <= events - d.waiting
}

// The counters that rise have room for a full table.
fn scan_counters(s: Stats) -> bool
    ensures { result ≡ scan_counters s }
{
    s.expired <= RISING_MOST && s.dispatched <= RISING_MOST
}

// The rows in use are those of the consumers, reserved and waiting ones.
fn rows_fit(subs: &[SubRow], d: Head) -> bool
    ensures { result ≡ rows_fit subs.now d }
{
    if state::ROWS < d.used {
        return false;
    }
    if state::ROWS < d.reserved {
        return false;
    }
    if state::ROWS < d.waiting {
        return false;
    }
    let base = consumers::base_of(subs, d.consumers);
    base + (d.reserved + d.waiting) == d.used
}

// The next delivery numbers of the first n consumers can rise.
fn next_fit(subs: &[SubRow], n: usize) -> bool
    requires { n ≤ length subs.now }
    ensures { result ≡ all next_fits (take n subs.now) }
{
    subs.iter()
        .take(n)
        .all(|w| w[consumers::NEXT_DSEQ] <= NEXT_MOST)
}

fn can_scan(subs: &[SubRow], d: Head, rows: usize, events: usize, by: u64) -> bool
    ensures { result ≡ scans by subs.now d rows events }
{
    if entry::CLOCK_MOST < by {
        return false;
    }
    if !d.queue {
        return false;
    }
    if !scan_tables(d, subs.len(), rows, events) {
        return false;
    }
    let s = d.stats;
    if !scan_counters(s) {
        return false;
    }
    if !rows_fit(subs, d) {
        return false;
    }
    next_fit(subs, d.consumers)
}

// Gives a queue's waiting entries to the consumers that have credit for them. Of a topic, of numbers that do not fit the tables, or with a clock
// above 2^62, nothing happens.
pub fn serve_rounds(
    subs: &mut [SubRow],
    rows: &mut [Row],
    events: &mut [Event],
    d: Head,
    by: u64,
) -> Head
    ensures { LeavesIf (scans by subs.old d (length rows.old) (length events.old)) (Onward d result subs.old rows.old events.old subs.new rows.new events.new) (served by) d result subs.old rows.old events.old subs.new rows.new events.new }
{
    if !can_scan(subs, d, rows.len(), events.len(), by) {
        return d;
    }
    rounds(subs, rows, events, d, by)
}
