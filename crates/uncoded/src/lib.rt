// The two changing calls that have no code in the call file: each counts one entry, and uses a call.
#![tactic(auto)]

ghost use Rattle.std.specs.Prelude.{◌≡◌, length, IfOk};
ghost use Rattle.definition.specs.Calls.{discarding, missing};
ghost use Rattle.definition.specs.Layout.{buffer_call, lent};
ghost use Rattle.state.specs.Answers.{refusal_of};
ghost use Rattle.state.specs.State.{loaded, stored_head};
ghost use Rattle.engine.specs.Called.{Called, outcome};
ghost use Rattle.engine.specs.Opened.{counted};
ghost use Rattle.uncoded.specs.Bare.{bare_refusal};

use consumers::SubRow;
use engine::Outcome;
use entry::Row;
use model::Refusal;
use state::{Answered, Event, Head};

// The numbers of a destination that does a call without arguments; or why it is refused, in the paper's order.
fn ready(head: &[u64], subs: &[SubRow], rows: &[Row], events: &[Event]) -> Result<Head, Refusal>
    ensures refusal_value { refusal_of result ≡ bare_refusal (lent head.now subs.now rows.now) (length events.now) }
    ensures numbers { IfOk result (λ d. d ≡ loaded head.now subs.now) }
{
    if !sound::whole(head, subs, rows) {
        return Err(Refusal::Short);
    }
    if events.len() < state::EVENTS {
        return Err(Refusal::Short);
    }
    if !sound::sound(head, subs, rows) {
        return Err(Refusal::NotSound);
    }
    let d = state::load(head, subs);
    if d.calls_used == d.call_limit {
        return Err(Refusal::CallsUsedUp);
    }
    Ok(d)
}

// `Dest::add_discarded`.
pub fn add_discarded(
    head: &mut [u64],
    subs: &mut [SubRow],
    rows: &mut [Row],
    events: &mut [Event],
) -> Outcome
    ensures { Called (buffer_call (lent head.old subs.old rows.old) (length events.old) discarding) (lent head.old subs.old rows.old) (lent head.new subs.new rows.new) events.old events.new result }
{
    match ready(head, subs, rows, events) {
        Ok(d) => done(head, d.count_discarded(1)),
        Err(refusal) => Outcome::refused_for(refusal),
    }
}

// `Dest::expired_before_storing`.
pub fn expired_before_storing(
    head: &mut [u64],
    subs: &mut [SubRow],
    rows: &mut [Row],
    events: &mut [Event],
) -> Outcome
    ensures { Called (buffer_call (lent head.old subs.old rows.old) (length events.old) missing) (lent head.old subs.old rows.old) (lent head.new subs.new rows.new) events.old events.new result }
{
    match ready(head, subs, rows, events) {
        Ok(d) => done(head, d.count_expired(1)),
        Err(refusal) => Outcome::refused_for(refusal),
    }
}

// A call that is done, with the answer 0.
fn done(head: &mut [u64], d: Head) -> Outcome
    ensures value { result ≡ outcome 0 0 d.events }
    ensures head_after { head.new ≡ stored_head (counted d) head.old }
{
    engine::conclude(head, Ok(Answered { answer: 0, head: d }))
}
