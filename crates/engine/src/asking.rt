// A consumer's request from the words of its call (codes 4 and 5).
ghost use Rattle.std.specs.Prelude.{◌≡◌, true};
ghost use Rattle.definition.specs.Base.{is_some};
ghost use Rattle.definition.specs.Words.{decode};
ghost use Rattle.state.specs.Answers.{told};
ghost use Rattle.state.specs.Ready.{Ready};
ghost use Rattle.engine.specs.Performs.{PerformsBy};

use crate::requests;
use consumers::SubRow;
use entry::Row;
use model::Id;
use state::{Answer, Answered, Event, Head};

// Code 4.
pub(crate) fn ask_ack(
    subs: &mut [SubRow],
    rows: &mut [Row],
    events: &mut [Event],
    d: Head,
    w: [u64; 8],
) -> Answer
    requires { Ready d subs.old rows.old events.old × (is_some (decode 4 w) ≡ true) }
    ensures { PerformsBy (decode 4 w) d (told d result) subs.old rows.old events.old subs.new rows.new events.new }
{
    let id = Id::of_words(w[0], w[1], w[2]);
    let a = acks::ack_of(w);
    let head = requests::ack(subs, rows, events, d, id, a, w[6]);
    Ok(Answered { answer: 0, head })
}

// Code 5.
pub(crate) fn ask_pull(
    subs: &mut [SubRow],
    rows: &mut [Row],
    events: &mut [Event],
    d: Head,
    w: [u64; 8],
) -> Answer
    requires { Ready d subs.old rows.old events.old × (is_some (decode 5 w) ≡ true) }
    ensures { PerformsBy (decode 5 w) d (told d result) subs.old rows.old events.old subs.new rows.new events.new }
{
    let id = Id::of_words(w[0], w[1], w[2]);
    let timeout = words::signed_of(w[3]);
    requests::pull(subs, rows, events, d, id, timeout, w[4])
}
