// `dispatch` of destination.rs: what can go out goes out, to a queue's browsers and then its consumers, or to a topic's consumers.
#![tactic(auto)]

ghost use Rattle.std.specs.Prelude.{◌≡◌, true, [], ◌≤◌, ◌<◌, ◌^◌, length, get_or};
ghost use Rattle.definition.specs.Destination.{dispatch_queue, dispatch};
ghost use Rattle.state.specs.Fits.{fits};
ghost use Rattle.state.specs.Leaves.{LeavesIf};
ghost use Rattle.dispatch.specs.Dispatch.{can_go, goes_out, browses, queue_fits, dispatches, Sent};

use consumers::SubRow;
use entry::Row;
use state::{Event, Head};

// Whether one of the first n consumers is a browser; no, where the table is shorter.
fn any_browser(subs: &[SubRow], n: usize) -> bool
    ensures { result ≡ browses n subs.now }
{
    n <= subs.len() && subs.iter().take(n).any(|w| w[consumers::BROWSER] != 0)
}

// A queue's with a browser: browsers first, then the scan over consumers. Where the numbers do not fit the tables, nothing happens.
fn browsers_first(
    subs: &mut [SubRow],
    rows: &mut [Row],
    events: &mut [Event],
    d: Head,
    by: u64,
) -> Head
    requires { (d.queue ≡ true) × (by ≤ 2 ^ 62) × (0 < d.consumers) }
    ensures { LeavesIf (fits subs.old d (length rows.old) (length events.old)) (Sent d result) (dispatch_queue by) d result subs.old rows.old events.old subs.new rows.new events.new }
{
    if !state::fits(subs, d, rows.len(), events.len()) {
        return d;
    }
    let shown = browsers::serve_browsers(subs, rows, events, d, by);
    queues::serve_rounds(subs, rows, events, shown, by)
}

// A queue's: without a browser, the scan alone. Where the numbers do not fit the tables, nothing happens.
fn dispatch_queue(
    subs: &mut [SubRow],
    rows: &mut [Row],
    events: &mut [Event],
    d: Head,
    by: u64,
) -> Head
    requires { (d.queue ≡ true) × (by ≤ 2 ^ 62) }
    ensures { LeavesIf (queue_fits by subs.old d (length rows.old) (length events.old)) (Sent d result) (dispatch_queue by) d result subs.old rows.old events.old subs.new rows.new events.new }
{
    if d.consumers == 0 {
        return d;
    }
    if any_browser(subs, d.consumers) {
        return browsers_first(subs, rows, events, d, by);
    }
    queues::serve_rounds(subs, rows, events, d, by)
}

// Whether consumer i can be sent something: of a topic's, one that holds something and has credit; of a queue's, a browser, or where something
// waits one that has credit.
fn can_go(subs: &[SubRow], i: usize, waiting: usize, queue: bool) -> bool
    ensures { result ≡ can_go waiting queue (get_or subs.now i []) }
{
    let s = consumers::load(subs, i);
    let credit = s.has_credit();
    if queue {
        return s.browser | ((waiting != 0) & credit);
    }
    (0 < s.held) & credit
}

// Whether a dispatch can send something to one of the first n consumers; no, where the table is shorter.
pub fn goes(subs: &[SubRow], n: usize, waiting: usize, queue: bool) -> bool
    ensures { result ≡ goes_out n waiting queue subs.now }
{
    n <= subs.len() && (0..n).any(|i| can_go(subs, i, waiting, queue))
}

// Sends what can go out. Where the numbers do not fit the tables, or with a clock above 2^62, nothing happens.
pub fn dispatch(
    subs: &mut [SubRow],
    rows: &mut [Row],
    events: &mut [Event],
    d: Head,
    clock: u64,
) -> Head
    ensures { LeavesIf (dispatches clock subs.old d (length rows.old) (length events.old)) (Sent d result) (dispatch clock) d result subs.old rows.old events.old subs.new rows.new events.new }
{
    let by = d.due(clock);
    if entry::CLOCK_MOST < clock {
        return d;
    }
    if d.queue {
        return dispatch_queue(subs, rows, events, d, by);
    }
    topics::dispatch_topic(subs, rows, events, d, by)
}
