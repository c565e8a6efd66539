// Browsers of a queue are served from their own snapshots (`dispatch_browser` of destination.rs, and the loop of `dispatch_queue` over them).
#![tactic(auto)]

ghost use Rattle.std.specs.Prelude.{◌≡◌, ◌≤◌, ◌<◌, ◌^◌, true, false, ◌&&◌, leb, length};
ghost use Rattle.consumers.specs.Consumers.{credit_of};
ghost use Rattle.state.specs.Fits.{Fits, fits};
ghost use Rattle.state.specs.Leaves.{Leaves, LeavesIf};
ghost use Rattle.browsers.specs.Browsers.{browsed, BrowsersServed};
ghost use Rattle.browsers.specs.Serving.{gone_rows, left_rows, dropped, closed_sub, BrowserFine, Sending, Done};

use consumers::{Sub, SubRow};
use entry::Row;
use state::{Event, Head};

// What serving one browser leaves.
#[derive(Clone, Copy)]
struct Left {
    sub: Sub,
    head: Head,
}

// An expired snapshot entry is deleted if it still waits: every waiting row with its number goes.
fn drop_waiting(rows: &mut [Row], mut d: Head, seq: u64) -> Head
    requires { (d.waiting ≤ d.used) × (d.used ≤ 512) × (512 ≤ length rows.old) }
    ensures value { result ≡ dropped (gone_rows seq d rows.old) d }
    ensures rows_after { rows.new ≡ left_rows seq d rows.old }
{
    let used = d.used;
    let from = d.first_waiting();
    let gone = table::remove_seq(rows, from, used, used, seq);
    d.used = d.used - gone;
    d.waiting = d.waiting - gone;
    d.count_expired(gone as u64)
}

// `Sub::send_null`, and the browser is finished.
fn closed(s: Sub) -> Sub
    ensures { result ≡ closed_sub s }
{
    Sub {
        finished: true,
        pulling: false,
        pull: 0,
        ..s
    }
}

// A browser, whose rows begin at base: its snapshot goes out while there is credit.
fn send_snapshot(
    rows: &mut [Row],
    events: &mut [Event],
    base: usize,
    start: Sub,
    before: Head,
    by: u64,
) -> Left
    requires { BrowserFine (length rows.old) (length events.old) base start before by }
    ensures sending { Sending by base rows.old events.old start before rows.new events.new result.sub result.head }
    ensures sub_value { 0 < result.sub.held → credit_of result.sub ≡ false }
{
    let mut s = start;
    let mut d = before;
    // A while: the browser and the rows change as copies go.
    while 0 < s.held {
        if !s.has_credit() {
            return Left { sub: s, head: d };
        }
        let first = base + s.inflight;
        let row = rows[first];
        let e = entry::entry_of(row);
        if entry::expired_by(e, by) {
            d = drop_waiting(rows, d, e.seq);
            table::close_gap(rows, first, 1, d.used);
            d.used = d.used - 1;
            s.held = s.held - 1;
        } else {
            d = state::push_message(events, d, s.conn, s.session, s.value, e.seq, e.redelivery);
            rows[first] = table::flown(row, s.next_dseq);
            s.held = s.held - 1;
            s = s.sent();
        }
    }
    Left { sub: s, head: d }
}

// `dispatch_browser`: the snapshot, and when it is empty the closing null, once.
fn dispatch_browser(
    rows: &mut [Row],
    events: &mut [Event],
    base: usize,
    start: Sub,
    before: Head,
    by: u64,
) -> Left
    requires { BrowserFine (length rows.old) (length events.old) base start before by }
    ensures { Done by base rows.old events.old start before rows.new events.new result.sub result.head }
{
    let r = send_snapshot(rows, events, base, start, before, by);
    let s = r.sub;
    let d = r.head;
    if !s.has_credit() {
        return Left { sub: s, head: d };
    }
    if s.finished {
        return Left { sub: s, head: d };
    }
    let told = state::push_null(events, d, s.conn, s.session, s.value);
    Left {
        sub: closed(s),
        head: told,
    }
}

// Each consumer that is a browser, in turn; base is where a consumer's rows begin.
fn serve_each(
    subs: &mut [SubRow],
    rows: &mut [Row],
    events: &mut [Event],
    before: Head,
    by: u64,
) -> Head
    requires { Fits subs.old before (length rows.old) (length events.old) × (before.queue ≡ true) × (by ≤ 2 ^ 62) }
    ensures { Leaves (browsed by) before result subs.old rows.old events.old subs.new rows.new events.new × BrowsersServed before result subs.new }
{
    let mut d = before;
    let mut base = 0;
    for i in 0..before.consumers {
        let s = consumers::load(subs, i);
        if !s.browser {
            base = base + s.inflight + s.held;
            continue;
        }
        let r = dispatch_browser(rows, events, base, s, d, by);
        let t = r.sub;
        d = r.head;
        base = base + t.inflight + t.held;
        consumers::store(subs, i, t);
    }
    d
}

// Sends to a queue's browsers what their snapshots hold and they have credit for. Of a topic, of numbers that do not fit the tables, or with
// a clock above 2^62, nothing happens.
pub fn serve_browsers(
    subs: &mut [SubRow],
    rows: &mut [Row],
    events: &mut [Event],
    d: Head,
    by: u64,
) -> Head
    ensures { LeavesIf (fits subs.old d (length rows.old) (length events.old) && (leb by (2 ^ 62) && d.queue)) (BrowsersServed d result subs.new) (browsed by) d result subs.old rows.old events.old subs.new rows.new events.new }
{
    if entry::CLOCK_MOST < by {
        return d;
    }
    if !d.queue {
        return d;
    }
    if !state::fits(subs, d, rows.len(), events.len()) {
        return d;
    }
    serve_each(subs, rows, events, d, by)
}
