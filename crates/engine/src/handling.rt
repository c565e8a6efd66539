// The other calls on the tables from their words (codes 1 to 3 and 15).
ghost use Rattle.std.specs.Prelude.{◌≡◌, true};
ghost use Rattle.definition.specs.Base.{is_some};
ghost use Rattle.definition.specs.Words.{decode};
ghost use Rattle.definition.specs.Words as Words;
ghost use Rattle.joins.specs.Joins.{spec_of};
ghost use Rattle.state.specs.Answers.{told};
ghost use Rattle.state.specs.Ready.{Ready};
ghost use Rattle.engine.specs.Performs.{PerformsBy};

use crate::{arrivals, departures};
use calls::Call;
use consumers::SubRow;
use entry::Row;
use joins::SubSpec;
use model::Id;
use state::{Answer, Event, Head};

// Code 1.
pub(crate) fn enqueue(
    subs: &mut [SubRow],
    rows: &mut [Row],
    events: &mut [Event],
    d: Head,
    w: [u64; 8],
) -> Answer
    requires { Ready d subs.old rows.old events.old × (is_some (decode 1 w) ≡ true) }
    ensures { PerformsBy (decode 1 w) d (told d result) subs.old rows.old events.old subs.new rows.new events.new }
{
    let c = Call::new(Call::ENQUEUE, w);
    let e = c.entry_of();
    arrivals::enqueue(subs, rows, events, d, e, w[6])
}

// The consumer in a join's words. Not a From: eight words are those of any call.
fn spec_of(w: [u64; 8]) -> SubSpec
    requires { is_some (decode 2 w) ≡ true }
    ensures { spec_of result ≡ Words.spec_in w }
{
    calls::words_fit(w);
    let prefetch = words::int_of(w[3]);
    let flags = w[5];
    let no_local = calls::flag_of(flags, 0);
    let browser = calls::flag_of(flags, 1);
    SubSpec {
        conn: w[0],
        session: w[1],
        value: w[2],
        prefetch,
        selector: w[4],
        no_local,
        browser,
    }
}

// Code 2.
pub(crate) fn join(
    subs: &mut [SubRow],
    rows: &mut [Row],
    events: &mut [Event],
    d: Head,
    w: [u64; 8],
) -> Answer
    requires { Ready d subs.old rows.old events.old × (is_some (decode 2 w) ≡ true) }
    ensures { PerformsBy (decode 2 w) d (told d result) subs.old rows.old events.old subs.new rows.new events.new }
{
    let spec = spec_of(w);
    arrivals::join(subs, rows, events, d, spec, w[6])
}

// Code 3.
pub(crate) fn leave(
    subs: &mut [SubRow],
    rows: &mut [Row],
    events: &mut [Event],
    d: Head,
    w: [u64; 8],
) -> Answer
    requires { Ready d subs.old rows.old events.old × (is_some (decode 3 w) ≡ true) }
    ensures { PerformsBy (decode 3 w) d (told d result) subs.old rows.old events.old subs.new rows.new events.new }
{
    let id = Id::of_words(w[0], w[1], w[2]);
    let last = words::signed_of(w[3]);
    departures::leave(subs, rows, events, d, id, last, w[4])
}

// Code 15.
pub(crate) fn release(
    subs: &mut [SubRow],
    rows: &mut [Row],
    events: &mut [Event],
    d: Head,
    w: [u64; 8],
) -> Answer
    requires { Ready d subs.old rows.old events.old × (is_some (decode 15 w) ≡ true) }
    ensures { PerformsBy (decode 15 w) d (told d result) subs.old rows.old events.old subs.new rows.new events.new }
{
    let id = Id::of_words(w[0], w[1], w[2]);
    departures::release(subs, rows, events, d, id, w[3])
}
