// Many calls on one lent station, with one test of whether it is sound.
ghost use Rattle.std.specs.Prelude.{◌≡◌, true, false, ◌≤◌, ◌-◌, length, take, drop};
ghost use Rattle.calls.specs.Calls.{new_call};
ghost use Rattle.engine.specs.Batch.{eight_words};
ghost use Rattle.definition_station.specs.Station.{station_short, station_events};
ghost use Rattle.definition_station.specs.Layout.{station_lengths_of, station_view, sound_station, buffer_station_step};
ghost use Rattle.definition_station.specs.Called.{StationCalled};
ghost use Rattle.stationcalls.specs.Parts.{lent_all};
ghost use Rattle.stationcalls.specs.Batch.{listed_code, station_batch, buffer_station_batch, StationBatched};

use crate::letters::Sent;
use calls::Call;
use consumers::SubRow;
use engine::{Done, Outcome};
use entry::Row;

// A call in nine words, without its destination's number: its code, and the eight after it. Not a From: a destination reads nine words otherwise.
fn call_of(w: [u64; 9]) -> Call
    ensures { result ≡ new_call (listed_code w) (eight_words w) }
{
    Call::new(w[0] % 256, [w[1], w[2], w[3], w[4], w[5], w[6], w[7], w[8]])
}

// A call on a sound station that is lent the event list from a place on.
fn go_from(
    heads: &mut [u64],
    subs: &mut [SubRow],
    rows: &mut [Row],
    own: &mut [u64],
    events: &mut [Sent],
    from: usize,
    number: u64,
    c: Call,
) -> Outcome
    requires { (from ≤ length events.old) × (station_short (station_lengths_of (lent_all heads.old subs.old rows.old own.old) (length events.old - from)) ≡ false) × (sound_station (lent_all heads.old subs.old rows.old own.old) ≡ true) }
    ensures station_called { StationCalled (buffer_station_step (lent_all heads.old subs.old rows.old own.old) (length events.old - from) number c.code c.words) number c.code c.words (lent_all heads.old subs.old rows.old own.old) (lent_all heads.new subs.new rows.new own.new) (drop from events.old) (drop from events.new) result.refusal result.answer result.events }
    ensures events_unchanged { take from events.new ≡ take from events.old }
{
    crate::go(heads, subs, rows, own, &mut events[from..], number, c)
}

// The calls on a sound station, each lent what is left of the event list.
fn run_each(
    heads: &mut [u64],
    subs: &mut [SubRow],
    rows: &mut [Row],
    own: &mut [u64],
    events: &mut [Sent],
    words: &[[u64; 9]],
    outcomes: &mut [[u64; 3]],
) -> Done
    requires { (station_short (station_lengths_of (lent_all heads.old subs.old rows.old own.old) station_events) ≡ false) × (sound_station (lent_all heads.old subs.old rows.old own.old) ≡ true) }
    ensures { StationBatched (station_batch (station_lengths_of (lent_all heads.old subs.old rows.old own.old) (length events.old)) (length outcomes.old) words.now (station_view (lent_all heads.old subs.old rows.old own.old)) own.old) words.now (lent_all heads.old subs.old rows.old own.old) (lent_all heads.new subs.new rows.new own.new) events.old events.new outcomes.old outcomes.new result }
{
    let mut from = 0;
    for i in 0..words.len() {
        if outcomes.len() <= i {
            return Done {
                calls: i,
                events: from,
            };
        }
        if events.len() - from < crate::EVENTS {
            return Done {
                calls: i,
                events: from,
            };
        }
        let w = words[i];
        let c = call_of(w);
        let r = go_from(heads, subs, rows, own, events, from, w[0] / 256, c);
        outcomes[i] = [r.refusal, r.answer, r.events as u64];
        from += r.events;
    }
    Done {
        calls: words.len(),
        events: from,
    }
}

// The calls of a list, nine words each, one after another, as `call` would do each on what is left of the event list. Word 0 is a call's code and 256
// times its destination's number, as in a station's call file, where a start has a code: here 16 is an unknown one. An outcome is a refusal, an answer and how
// many events; the events of all calls stand one after another. It ends with the last call, with the last place for an outcome, or where fewer than 4,872 places
// for events are left. With a short state buffer, or a station that is not sound, none is done: `call` then says why.
pub fn calls(
    heads: &mut [u64],
    subs: &mut [SubRow],
    rows: &mut [Row],
    own: &mut [u64],
    events: &mut [Sent],
    words: &[[u64; 9]],
    outcomes: &mut [[u64; 3]],
) -> Done
    ensures { StationBatched (buffer_station_batch (lent_all heads.old subs.old rows.old own.old) (length events.old) (length outcomes.old) words.now) words.now (lent_all heads.old subs.old rows.old own.old) (lent_all heads.new subs.new rows.new own.new) events.old events.new outcomes.old outcomes.new result }
{
    if crate::checked(heads, subs, rows, own).is_err() {
        return Done {
            calls: 0,
            events: 0,
        };
    }
    run_each(heads, subs, rows, own, events, words, outcomes)
}
