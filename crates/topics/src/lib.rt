// A topic's dispatch (`dispatch_topic` of destination.rs): what its consumers hold goes out to those that have credit.
#![tactic(auto)]

ghost use Rattle.std.specs.Prelude.{◌≡◌, ◌≤◌, ◌^◌, false, not, ◌&&◌, leb, [], length, drop, get_or};
ghost use Rattle.definition.specs.Destination.{dispatch_topic};
ghost use Rattle.consumers.specs.Seats.{OwnStrict};
ghost use Rattle.state.specs.Fits.{Fits, fits};
ghost use Rattle.state.specs.Leaves.{Leaves, LeavesIf};
ghost use Rattle.topics.specs.Topics.{can_serve, TopicFine, ConsumerKept, topic_seen, topic_ran, Dispatched};

use consumers::{Sub, SubRow};
use entry::Row;
use state::{Event, Head};

// What serving one consumer leaves.
#[derive(Clone, Copy)]
struct Served {
    sub: Sub,
    head: Head,
}

// One consumer, whose rows begin at base: `while sub.has_credit() { pop_first .. }`.
fn serve_topic(
    rows: &mut [Row],
    events: &mut [Event],
    base: usize,
    start: Sub,
    before: Head,
    by: u64,
) -> Served
    requires { TopicFine (length rows.old) (length events.old) base start before by }
    ensures events_after { topic_seen base result.sub result.head rows.new events.new ≡ topic_ran by (topic_seen base start before rows.old events.old) }
    ensures events_unchanged { drop result.head.events events.new ≡ drop result.head.events events.old }
    ensures consumer_kept { ConsumerKept base start before result.sub result.head }
    ensures rows_unchanged { drop before.used rows.new ≡ drop before.used rows.old }
    ensures own_strict { OwnStrict base start.inflight start.held rows.old → OwnStrict base result.sub.inflight result.sub.held rows.new }
{
    let mut s = start;
    let mut d = before;
    // A while: the consumer and the rows change as copies go.
    while 0 < s.held {
        if !s.has_credit() {
            return Served { sub: s, head: d };
        }
        let first = base + s.inflight;
        let row = rows[first];
        let e = entry::entry_of(row);
        if entry::expired_by(e, by) {
            table::close_gap(rows, first, 1, d.used);
            d.used = d.used - 1;
            d = d.count_expired(1);
            s.held = s.held - 1;
        } else {
            d = state::push_message(events, d, s.conn, s.session, s.value, e.seq, e.redelivery);
            d = d.count_dispatched();
            rows[first] = table::flown(row, s.next_dseq);
            s.held = s.held - 1;
            s = s.sent();
        }
    }
    Served { sub: s, head: d }
}

// Whether consumer i holds something and has credit: else serving it leaves everything as it is.
fn can_serve(subs: &[SubRow], i: usize) -> bool
    ensures { result ≡ can_serve (get_or subs.now i []) }
{
    let s = consumers::load(subs, i);
    0 < s.held && s.has_credit()
}

// Each consumer in turn; base is where its rows begin.
fn serve_all(
    subs: &mut [SubRow],
    rows: &mut [Row],
    events: &mut [Event],
    before: Head,
    by: u64,
) -> Head
    requires { Fits subs.old before (length rows.old) (length events.old) × (before.queue ≡ false) × (by ≤ 2 ^ 62) }
    ensures { Leaves (dispatch_topic by) before result subs.old rows.old events.old subs.new rows.new events.new × Dispatched before result }
{
    let mut d = before;
    let mut base = 0;
    for i in 0..before.consumers {
        let s = consumers::load(subs, i);
        if !can_serve(subs, i) {
            base = base + s.inflight + s.held;
            continue;
        }
        let r = serve_topic(rows, events, base, s, d, by);
        let t = r.sub;
        d = r.head;
        base = base + t.inflight + t.held;
        consumers::store(subs, i, t);
    }
    d
}

// Sends what a topic's consumers hold and have credit for. Of a queue, of numbers that do not fit the tables, or with a clock above
// 2^62, nothing happens.
pub fn dispatch_topic(
    subs: &mut [SubRow],
    rows: &mut [Row],
    events: &mut [Event],
    d: Head,
    by: u64,
) -> Head
    ensures { LeavesIf (fits subs.old d (length rows.old) (length events.old) && (leb by (2 ^ 62) && not d.queue)) (Dispatched d result) (dispatch_topic by) d result subs.old rows.old events.old subs.new rows.new events.new }
{
    if entry::CLOCK_MOST < by {
        return d;
    }
    if d.queue {
        return d;
    }
    if !state::fits(subs, d, rows.len(), events.len()) {
        return d;
    }
    serve_all(subs, rows, events, d, by)
}
