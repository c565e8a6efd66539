// What a consumer asks (codes 4 to 7), on a sound destination with a call left.
ghost use Rattle.std.specs.Prelude.{◌≡◌, true, ◌<◌, ◌≤◌, ◌^◌, take, Some};
ghost use Rattle.model.specs.declared.Id.{Id};
ghost use Rattle.definition.specs.Base.{is_some};
ghost use Rattle.definition.specs.Destination.{ack};
ghost use Rattle.definition.specs.Words.{decode};
ghost use Rattle.consumers.specs.Table.{position_from};
ghost use Rattle.acks.specs.Acks.{ack_of, acked};
ghost use Rattle.state.specs.Answers.{told};
ghost use Rattle.state.specs.Ready.{Ready};
ghost use Rattle.engine.specs.Performs.{PerformsBy};
ghost use Rattle.engine.specs.Requests.{sent_on, Absent, Sends, Pulled};

use crate::acking;
use acks::Ack;
use consumers::SubRow;
use entry::Row;
use model::Id;
use state::{Answer, Answered, Event, Head};

// The ack of the consumer at a place, `touch_idle`, and the dispatch where anything can go.
fn ack_present(
    subs: &mut [SubRow],
    rows: &mut [Row],
    events: &mut [Event],
    d: Head,
    i: usize,
    a: Ack,
    clock: u64,
) -> Head
    requires { Ready d subs.old rows.old events.old × (clock ≤ 2 ^ 62) × (i < d.consumers) }
    ensures { (id : Id) → position_from 0 id (take d.consumers subs.old) ≡ Some i → Sends (sent_on clock (acked id (ack_of a))) d result subs.old rows.old events.old subs.new rows.new events.new }
{
    let acked = acking::ack_at(subs, rows, events, d, i, a).touch_idle(clock);
    if !dispatch::goes(subs, acked.consumers, acked.waiting, acked.queue) {
        return acked;
    }
    dispatch::dispatch(subs, rows, events, acked, clock)
}

// The ack of a consumer that is not there: of what is reserved for it.
fn ack_absent(
    subs: &mut [SubRow],
    rows: &mut [Row],
    events: &mut [Event],
    d: Head,
    id: Id,
    a: Ack,
    clock: u64,
) -> Head
    requires { Ready d subs.old rows.old events.old × (clock ≤ 2 ^ 62) × Absent id d subs.old rows.old }
    ensures { Sends (ack clock id (ack_of a)) d result subs.old rows.old events.old subs.new rows.new events.new }
{
    if a.transacted {
        return d;
    }
    if !reserved::has_reserved(rows, d, id) {
        return d;
    }
    let taken = reserved::ack_reserved(subs, rows, events, d, id, a);
    dispatch::dispatch(subs, rows, events, taken.touch_idle(clock), clock)
}

// `Dest::ack`.
pub(crate) fn ack(
    subs: &mut [SubRow],
    rows: &mut [Row],
    events: &mut [Event],
    d: Head,
    id: Id,
    a: Ack,
    clock: u64,
) -> Head
    requires { Ready d subs.old rows.old events.old × (clock ≤ 2 ^ 62) }
    ensures { Sends (ack clock id (ack_of a)) d result subs.old rows.old events.old subs.new rows.new events.new }
{
    match consumers::position(subs, d.consumers, id) {
        Some(i) => ack_present(subs, rows, events, d, i, a, clock),
        None => ack_absent(subs, rows, events, d, id, a, clock),
    }
}

// `Dest::pull_timeout` (code 6).
pub(crate) fn pull_timeout(
    subs: &mut [SubRow],
    rows: &[Row],
    events: &mut [Event],
    d: Head,
    w: [u64; 8],
) -> Answer
    requires { Ready d subs.old rows.now events.old × (is_some (decode 6 w) ≡ true) }
    ensures { PerformsBy (decode 6 w) d (told d result) subs.old rows.now events.old subs.new rows.now events.new }
{
    let id = Id::of_words(w[0], w[1], w[2]);
    let head = pulls::pull_timeout(subs, rows, events, d, id, w[3]);
    Ok(Answered { answer: 0, head })
}

// `Dest::set_prefetch` (code 7).
pub(crate) fn set_prefetch(
    subs: &mut [SubRow],
    rows: &mut [Row],
    events: &mut [Event],
    d: Head,
    w: [u64; 8],
) -> Answer
    requires { Ready d subs.old rows.old events.old × (is_some (decode 7 w) ≡ true) }
    ensures { PerformsBy (decode 7 w) d (told d result) subs.old rows.old events.old subs.new rows.new events.new }
{
    let id = Id::of_words(w[0], w[1], w[2]);
    calls::words_fit(w);
    let prefetch = words::int_of(w[3]);
    let clock = w[4];
    pulls::set_prefetch(subs, rows, events, d, id, prefetch);
    let head = dispatch::dispatch(subs, rows, events, d, clock);
    Ok(Answered { answer: 0, head })
}

// `Dest::pull`.
pub(crate) fn pull(
    subs: &mut [SubRow],
    rows: &mut [Row],
    events: &mut [Event],
    d: Head,
    id: Id,
    timeout: i64,
    clock: u64,
) -> Answer
    requires { Ready d subs.old rows.old events.old × (clock ≤ 2 ^ 62) }
    ensures { Pulled clock id timeout d (told d result) subs.old rows.old events.old subs.new rows.new events.new }
{
    if !pulls::register(subs, rows, events, d, id) {
        return Ok(Answered { answer: 0, head: d });
    }
    let sent = dispatch::dispatch(subs, rows, events, d, clock);
    pulls::answer_pull(subs, rows, events, sent, id, timeout)
}
