// What arrives (codes 1 and 2), an entry or a consumer, on a sound destination with a call left: refused, or done and dispatched.
ghost use Rattle.std.specs.Prelude.{◌≡◌, true, ◌<◌, ◌≤◌, ◌^◌};
ghost use Rattle.definition.specs.Calls.{enqueuing, joining, arguments_ok};
ghost use Rattle.joins.specs.Joins.{spec_of};
ghost use Rattle.state.specs.Answers.{told};
ghost use Rattle.state.specs.Ready.{Ready};
ghost use Rattle.engine.specs.Performs.{Performs};

use crate::storing;
use consumers::SubRow;
use entry::{Entry, Row};
use joins::SubSpec;
use state::{Answer, Answered, Event, Head};

// `Dest::enqueue`.
pub(crate) fn enqueue(
    subs: &mut [SubRow],
    rows: &mut [Row],
    events: &mut [Event],
    d: Head,
    e: Entry,
    clock: u64,
) -> Answer
    requires { Ready d subs.old rows.old events.old × (clock ≤ 2 ^ 62) × (arguments_ok (enqueuing e clock) ≡ true) }
    ensures { Performs (enqueuing e clock) d (told d result) subs.old rows.old events.old subs.new rows.new events.new }
{
    storing::admit(subs, rows, d, e)?;
    let by = d.due(clock);
    let stored = storing::store(subs, rows, d, e, by);
    if !dispatch::goes(subs, stored.consumers, stored.waiting, stored.queue) {
        return Ok(Answered {
            answer: 0,
            head: stored,
        });
    }
    let head = dispatch::dispatch(subs, rows, events, stored, clock);
    Ok(Answered { answer: 0, head })
}

// `Dest::add_sub`.
pub(crate) fn join(
    subs: &mut [SubRow],
    rows: &mut [Row],
    events: &mut [Event],
    d: Head,
    spec: SubSpec,
    clock: u64,
) -> Answer
    requires { Ready d subs.old rows.old events.old × (clock ≤ 2 ^ 62) × (arguments_ok (joining (spec_of spec) clock) ≡ true) }
    ensures { Performs (joining (spec_of spec) clock) d (told d result) subs.old rows.old events.old subs.new rows.new events.new }
{
    joins::refusal(subs, rows, d, spec, clock)?;
    let joined = joins::join(subs, rows, events, d, spec, clock);
    let head = dispatch::dispatch(subs, rows, events, joined, clock);
    Ok(Answered { answer: 0, head })
}
