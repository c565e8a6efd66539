// The C library of a station: the calls of `stationcalls` for programs in C or Rust. Nothing checks include/station.h against these: examples/station does.
#![tactic(auto)]

ghost use Rattle.std.specs.Prelude.{◌≡◌, [], length};
ghost use Rattle.definition.specs.Calls.{discarding, missing};
ghost use Rattle.definition_station.specs.Station.{station_start};
ghost use Rattle.definition_station.specs.Layout.{station_lengths_of, station_view, buffer_station_step, buffer_station_uncoded};
ghost use Rattle.definition_station.specs.Called.{StationCalled, StationStarted};
ghost use Rattle.stationcalls.specs.Parts.{lent_all};
ghost use Rattle.stationcalls.specs.Queried.{buffer_numbers};
ghost use Rattle.stationcalls.specs.Tells.{told_rows, StationTells};
ghost use Rattle.stationcalls.specs.Batch.{buffer_station_batch, StationBatched};

use calls::Call;
use consumers::SubRow;
use engine::{Done, Outcome};
use entry::Row;
use stationcalls::{OwnNumbers, Sent, Told, ToldOutcome};

// ---- how much each buffer must hold

#[unsafe(no_mangle)]
pub extern "C" fn station_head_words() -> usize
    ensures { result ≡ 66776 }
{
    stationcalls::HEADS
}

#[unsafe(no_mangle)]
pub extern "C" fn station_consumers() -> usize
    ensures { result ≡ 256 }
{
    stationcalls::SUBS
}

#[unsafe(no_mangle)]
pub extern "C" fn station_rows() -> usize
    ensures { result ≡ 4096 }
{
    stationcalls::ROWS
}

#[unsafe(no_mangle)]
pub extern "C" fn station_own_words() -> usize
    ensures { result ≡ 20 }
{
    stationcalls::OWN
}

#[unsafe(no_mangle)]
pub extern "C" fn station_events() -> usize
    ensures { result ≡ 4872 }
{
    stationcalls::EVENTS
}

// ---- calls

// Starts a station, whatever the buffers hold. The refusal, 0 for none.
#[unsafe(no_mangle)]
pub extern "C" fn station_start(
    heads: &[u64],
    subs: &[SubRow],
    rows: &[Row],
    own: &mut [u64],
    events: &[Sent],
) -> u64
    ensures { StationStarted (station_start (station_lengths_of (lent_all heads.now subs.now rows.now own.old) (length events.now)) (station_view (lent_all heads.now subs.now rows.now own.old))) (lent_all heads.now subs.now rows.now own.old) (lent_all heads.now subs.now rows.now own.new) events.now events.now result }
{
    stationcalls::start(heads, subs, rows, own, events)
}

// A call of the destination with that number, by its code and its eight words.
#[unsafe(no_mangle)]
pub extern "C" fn station_call(
    heads: &mut [u64],
    subs: &mut [SubRow],
    rows: &mut [Row],
    own: &mut [u64],
    events: &mut [Sent],
    number: u64,
    c: Call,
) -> Outcome
    ensures { StationCalled (buffer_station_step (lent_all heads.old subs.old rows.old own.old) (length events.old) number c.code c.words) number c.code c.words (lent_all heads.old subs.old rows.old own.old) (lent_all heads.new subs.new rows.new own.new) events.old events.new result.refusal result.answer result.events }
{
    stationcalls::call(heads, subs, rows, own, events, number, c)
}

// The same call, with what became of its dead letters in a list, as far as it goes.
#[unsafe(no_mangle)]
pub extern "C" fn station_call_told(
    heads: &mut [u64],
    subs: &mut [SubRow],
    rows: &mut [Row],
    own: &mut [u64],
    events: &mut [Sent],
    told: &mut [Told],
    number: u64,
    c: Call,
) -> ToldOutcome
    ensures station_called { StationCalled (buffer_station_step (lent_all heads.old subs.old rows.old own.old) (length events.old) number c.code c.words) number c.code c.words (lent_all heads.old subs.old rows.old own.old) (lent_all heads.new subs.new rows.new own.new) events.old events.new result.refusal result.answer result.events }
    ensures station_tells { StationTells (buffer_station_step (lent_all heads.old subs.old rows.old own.old) (length events.old) number c.code c.words) (told_rows number c.code c.words (station_view (lent_all heads.old subs.old rows.old own.old))) told.old told.new result.letters }
{
    stationcalls::call_told(heads, subs, rows, own, events, told, number, c)
}

// `Dest::add_discarded` of the destination with that number.
#[unsafe(no_mangle)]
pub extern "C" fn station_add_discarded(
    heads: &mut [u64],
    subs: &mut [SubRow],
    rows: &mut [Row],
    own: &[u64],
    events: &mut [Sent],
    number: u64,
) -> Outcome
    ensures { StationCalled (buffer_station_uncoded (lent_all heads.old subs.old rows.old own.now) (length events.old) number discarding) number 1 [] (lent_all heads.old subs.old rows.old own.now) (lent_all heads.new subs.new rows.new own.now) events.old events.new result.refusal result.answer result.events }
{
    stationcalls::add_discarded(heads, subs, rows, own, events, number)
}

// `Dest::expired_before_storing`.
#[unsafe(no_mangle)]
pub extern "C" fn station_expired_before_storing(
    heads: &mut [u64],
    subs: &mut [SubRow],
    rows: &mut [Row],
    own: &[u64],
    events: &mut [Sent],
    number: u64,
) -> Outcome
    ensures { StationCalled (buffer_station_uncoded (lent_all heads.old subs.old rows.old own.now) (length events.old) number missing) number 1 [] (lent_all heads.old subs.old rows.old own.now) (lent_all heads.new subs.new rows.new own.now) events.old events.new result.refusal result.answer result.events }
{
    stationcalls::expired_before_storing(heads, subs, rows, own, events, number)
}

// Many calls with one test of the station, each nine words: its code and 256 times its destination's number, and the eight after it.
#[unsafe(no_mangle)]
pub extern "C" fn station_calls(
    heads: &mut [u64],
    subs: &mut [SubRow],
    rows: &mut [Row],
    own: &mut [u64],
    events: &mut [Sent],
    words: &[[u64; 9]],
    outcomes: &mut [[u64; 3]],
) -> Done
    ensures { StationBatched (buffer_station_batch (lent_all heads.old subs.old rows.old own.old) (length events.old) (length outcomes.old) words.now) words.now (lent_all heads.old subs.old rows.old own.old) (lent_all heads.new subs.new rows.new own.new) events.old events.new outcomes.old outcomes.new result }
{
    stationcalls::calls(heads, subs, rows, own, events, words, outcomes)
}

// ---- the query

// The next number and the lost count; with 1 for short buffers and 2 for a station that is not sound they are 0.
#[unsafe(no_mangle)]
pub extern "C" fn station_numbers(
    heads: &[u64],
    subs: &[SubRow],
    rows: &[Row],
    own: &[u64],
) -> OwnNumbers
    ensures { result ≡ buffer_numbers (lent_all heads.now subs.now rows.now own.now) }
{
    stationcalls::numbers(heads, subs, rows, own)
}
