// A call by its code: on the tables (codes 1 to 10 and 15), or in the head's words (codes 11 to 14).
ghost use Rattle.std.specs.Prelude.{◌≡◌, true, false, ◌<◌, length};
ghost use Rattle.definition.specs.Base.{is_some};
ghost use Rattle.definition.specs.Words.{decode};
ghost use Rattle.producers.specs.Producers.{head_fits};
ghost use Rattle.state.specs.Answers.{told};
ghost use Rattle.state.specs.Ready.{Ready};
ghost use Rattle.engine.specs.Performs.{PerformsBy, HeadBy, on_tables};

use crate::{asking, departures, handling, requests};
use calls::Call;
use consumers::SubRow;
use entry::Row;
use state::{Answer, Event, Head};

// Codes 1 to 10 and 15.
pub(crate) fn perform(
    subs: &mut [SubRow],
    rows: &mut [Row],
    events: &mut [Event],
    d: Head,
    c: Call,
) -> Answer
    requires { Ready d subs.old rows.old events.old × (is_some (decode c.code c.words) ≡ true) × (0 < c.code) × (on_tables c.code ≡ true) }
    ensures { PerformsBy (decode c.code c.words) d (told d result) subs.old rows.old events.old subs.new rows.new events.new }
{
    let code = c.code;
    let w = c.words;
    // A match on numbers, no closures: the codes are the papers' and C's, and each step takes what it needs of the words.
    match code {
        Call::ENQUEUE => handling::enqueue(subs, rows, events, d, w),
        Call::JOIN => handling::join(subs, rows, events, d, w),
        Call::LEAVE => handling::leave(subs, rows, events, d, w),
        Call::ACK => asking::ask_ack(subs, rows, events, d, w),
        Call::PULL => asking::ask_pull(subs, rows, events, d, w),
        Call::TIMEOUT => requests::pull_timeout(subs, rows, events, d, w),
        Call::PREFETCH => requests::set_prefetch(subs, rows, events, d, w),
        Call::UNMARK => departures::unmark(subs, rows, events, d, w),
        Call::SWEEP => departures::sweep(subs, rows, events, d, w),
        Call::RELEASE => handling::release(subs, rows, events, d, w),
        _ => departures::clear(subs, rows, events, d),
    }
}

// Codes 11 to 14.
pub(crate) fn perform_head(head: &mut [u64], d: Head, c: Call) -> Answer
    requires { (head_fits (length head.old) d ≡ true) × (is_some (decode c.code c.words) ≡ true) × (on_tables c.code ≡ false) }
    ensures { HeadBy (decode c.code c.words) d head.old (told d result) head.new }
{
    let code = c.code;
    let w = c.words;
    let id = c.id_of();
    match code {
        Call::ADD_PRODUCER => producers::add_producer(head, d, id),
        Call::REMOVE_PRODUCER => producers::remove_producer(head, d, id, w[3]),
        Call::DUPLICATE => producers::is_duplicate(head, d, id, w[3]),
        _ => producers::release_audits(head, d, w[0]),
    }
}
