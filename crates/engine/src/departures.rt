// What goes from a destination (codes 3, 8 to 10 and 15): a consumer, a transaction's marks, expired entries, all of them, what is reserved.
ghost use Rattle.std.specs.Prelude.{◌≡◌, true, ◌≤◌, ◌^◌};
ghost use Rattle.definition.specs.Base.{is_some};
ghost use Rattle.definition.specs.Calls.{leaving, releasing, clearing};
ghost use Rattle.definition.specs.Words.{decode};
ghost use Rattle.state.specs.Answers.{told};
ghost use Rattle.state.specs.Ready.{Ready};
ghost use Rattle.engine.specs.Performs.{Performs, PerformsBy};

use consumers::SubRow;
use entry::Row;
use model::Id;
use state::{Answer, Answered, Event, Head};

// `Dest::remove_sub`: answers whether the consumer was there.
pub(crate) fn leave(
    subs: &mut [SubRow],
    rows: &mut [Row],
    events: &mut [Event],
    d: Head,
    id: Id,
    last: i64,
    clock: u64,
) -> Answer
    requires { Ready d subs.old rows.old events.old × (clock ≤ 2 ^ 62) }
    ensures { Performs (leaving id last clock) d (told d result) subs.old rows.old events.old subs.new rows.new events.new }
{
    if !returns::is_present(subs, d, id) {
        return Ok(Answered { answer: 0, head: d });
    }
    let left = returns::leave(subs, rows, events, d, id, last, clock);
    let head = dispatch::dispatch(subs, rows, events, left.touch_idle(clock), clock);
    Ok(Answered { answer: 1, head })
}

// `Dest::release_reserved`, its first half (code 8): the transaction marks of a present consumer.
pub(crate) fn unmark(
    subs: &[SubRow],
    rows: &mut [Row],
    events: &[Event],
    d: Head,
    w: [u64; 8],
) -> Answer
    requires { Ready d subs.now rows.old events.now × (is_some (decode 8 w) ≡ true) }
    ensures { PerformsBy (decode 8 w) d (told d result) subs.now rows.old events.now subs.now rows.new events.now }
{
    let id = Id::of_words(w[0], w[1], w[2]);
    returns::unmark(subs, rows, events, d, id);
    Ok(Answered { answer: 0, head: d })
}

// `Dest::release_reserved`, its second half: the dispatch only where something was reserved.
pub(crate) fn release(
    subs: &mut [SubRow],
    rows: &mut [Row],
    events: &mut [Event],
    d: Head,
    id: Id,
    clock: u64,
) -> Answer
    requires { Ready d subs.old rows.old events.old × (clock ≤ 2 ^ 62) }
    ensures { Performs (releasing id clock) d (told d result) subs.old rows.old events.old subs.new rows.new events.new }
{
    let any = reserved::has_reserved(rows, d, id);
    let freed = returns::release(subs, rows, events, d, id, clock);
    if !any {
        return Ok(Answered {
            answer: 0,
            head: freed,
        });
    }
    let head = dispatch::dispatch(subs, rows, events, freed, clock);
    Ok(Answered { answer: 0, head })
}

// `Dest::sweep_expired`, of at most so many (code 9).
pub(crate) fn sweep(
    subs: &mut [SubRow],
    rows: &mut [Row],
    events: &[Event],
    d: Head,
    w: [u64; 8],
) -> Answer
    requires { Ready d subs.old rows.old events.now × (is_some (decode 9 w) ≡ true) }
    ensures { PerformsBy (decode 9 w) d (told d result) subs.old rows.old events.now subs.new rows.new events.now }
{
    let most = w[1] as usize;
    expiry::sweep(subs, rows, events, d, most, w[0])
}

// `Dest::clear` (code 10).
pub(crate) fn clear(subs: &mut [SubRow], rows: &[Row], events: &[Event], d: Head) -> Answer
    requires { Ready d subs.old rows.now events.now }
    ensures { Performs clearing d (told d result) subs.old rows.now events.now subs.new rows.now events.now }
{
    expiry::clear(subs, rows, events, d)
}
