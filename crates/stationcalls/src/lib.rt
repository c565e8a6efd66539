// The calls of a station (document 02 §1): eight destinations in lent buffers eight times as long, numbered 0 to 7, one row of sequence numbers, and dead letters that
// go where their destination says. Total, with refusals in the paper's order.
#![tactic(auto)]

ghost use Rattle.std.specs.Prelude.{◌≡◌, not, ◌&&◌, ◌||◌, true, false, List, [], ◌≤◌, ◌<◌, ℕ, ltb, eqb, length};
ghost use Rattle.definition.specs.Base.{whether◌then◌else◌, all, up_from};
ghost use Rattle.definition.specs.Words.{at, decode};
ghost use Rattle.definition.specs.Layout.{flag, buffer_step};
ghost use Rattle.definition_station.specs.Station.{station_short, station_start, opening_words, station_events};
ghost use Rattle.definition_station.specs.Layout.{station_lengths_of, station_view, sound_station, part, buffer_station_step, buffer_station_uncoded};
ghost use Rattle.definition_station.specs.Called.{StationStarted, StationCalled};
ghost use Rattle.stationcalls.specs.Parts.{lent_all, Within};
ghost use Rattle.stationcalls.specs.Own.{other_ok};
ghost use Rattle.stationcalls.specs.Plain.{NamedAt};
ghost use Rattle.definition_station.specs.Letters.{rejected};
ghost use Rattle.definition.specs.Calls.{discarding, missing};
ghost use Rattle.rejects.specs.Rejects.{rejecting};
ghost use Rattle.definition.specs.Types.{Dest};
ghost use Rattle.calls.specs.Calls.{new_call};
ghost use Rattle.stationcalls.specs.Tells.{told_rows, told_quiet, StationTells};
ghost use Rattle.stationcalls.specs.Step.{AskedAt, Unstopped, carried_words, stops_as, barred_as};
ghost use Rattle.state.specs.Answers.{refusal_of};
ghost use Rattle.stationcalls.specs.Queried.{station_checked, buffer_numbers};

mod batch;
mod letters;
mod own;
mod places;

pub use batch::calls;
use calls::Call;
use consumers::SubRow;
use engine::Outcome;
use entry::Row;
pub use letters::{Sent, Told};
use model::Refusal;
pub use own::OWN;

// The most destinations.
pub const PLACES: u64 = 8;

// How much the lent buffers must hold: eight times what a destination's must, and the most events of a call.
pub const HEADS: usize = 66776;

pub const SUBS: usize = 256;

pub const ROWS: usize = 4096;

pub const EVENTS: usize = 4872;

// ---- refusals 1, 10 and 2

// Whether the lent buffers are long enough.
pub fn whole(heads: &[u64], subs: &[SubRow], rows: &[Row], own: &[u64], events: &[Sent]) -> bool
    ensures { result ≡ not (station_short (station_lengths_of (lent_all heads.now subs.now rows.now own.now) (length events.now))) }
{
    !((heads.len() < HEADS)
        | ((subs.len() < SUBS)
            | ((rows.len() < ROWS) | ((own.len() < OWN) | (events.len() < EVENTS)))))
}

// Whether a number is no place, or one that is not open.
fn absent(own: &[u64], number: u64) -> bool
    requires { 20 ≤ length own.now }
    ensures { result ≡ (ltb 7 number || not (flag (at number own.now))) }
{
    if 7 < number {
        return true;
    }
    !own::is_open(own, number as usize)
}

// Whether the destination at a place is the one that is called, not open, or sound.
fn other_ok(heads: &[u64], subs: &[SubRow], rows: &[Row], own: &[u64], but: usize, k: usize) -> bool
    requires { Within k heads.now subs.now rows.now × (20 ≤ length own.now) }
    ensures { result ≡ other_ok (lent_all heads.now subs.now rows.now own.now) but k }
{
    if k == but {
        return true;
    }
    if !own::is_open(own, k) {
        return true;
    }
    places::sound(heads, subs, rows, k)
}

// Whether all open destinations but one are sound: that one's own call says whether it is.
fn others_sound(heads: &[u64], subs: &[SubRow], rows: &[Row], own: &[u64], but: usize) -> bool
    requires { Within 0 heads.now subs.now rows.now × (20 ≤ length own.now) }
    ensures { result ≡ all (other_ok (lent_all heads.now subs.now rows.now own.now) but) (up_from 0 8) }
{
    for k in 0..8 {
        if !other_ok(heads, subs, rows, own, but, k) {
            return false;
        }
    }
    true
}

// Whether the own words are in range and all open destinations are sound.
fn all_sound(heads: &[u64], subs: &[SubRow], rows: &[Row], own: &[u64]) -> bool
    requires { Within 0 heads.now subs.now rows.now × (20 ≤ length own.now) }
    ensures { result ≡ sound_station (lent_all heads.now subs.now rows.now own.now) }
{
    if !own::ok(own) {
        return false;
    }
    others_sound(heads, subs, rows, own, 8)
}

// Whether the lent buffers are long enough and hold a sound station.
pub fn is_sound(heads: &[u64], subs: &[SubRow], rows: &[Row], own: &[u64], events: &[Sent]) -> bool
    ensures { result ≡ (not (station_short (station_lengths_of (lent_all heads.now subs.now rows.now own.now) (length events.now))) && sound_station (lent_all heads.now subs.now rows.now own.now)) }
{
    if !whole(heads, subs, rows, own, events) {
        return false;
    }
    all_sound(heads, subs, rows, own)
}

// ---- start

// Starts a station: none is open, the first number is 1, none is lost. Its refusal's number (0: accepted), as C gets it.
pub fn start(heads: &[u64], subs: &[SubRow], rows: &[Row], own: &mut [u64], events: &[Sent]) -> u64
    ensures { StationStarted (station_start (station_lengths_of (lent_all heads.now subs.now rows.now own.old) (length events.now)) (station_view (lent_all heads.now subs.now rows.now own.old))) (lent_all heads.now subs.now rows.now own.old) (lent_all heads.now subs.now rows.now own.new) events.now events.now result }
{
    if !whole(heads, subs, rows, own, events) {
        return u64::from(Refusal::Short);
    }
    own::start(own);
    0
}

// ---- open

// An open as its destination gets it: without the name.
fn opening(c: Call) -> Call
    ensures { result ≡ new_call c.code (opening_words c.words) }
{
    let w = c.words;
    sized(w);
    Call::new(c.code, [w[0], w[1], w[2], w[3], w[4], w[5], 0, w[7]])
}

// Opens the destination at a place, with the dead-letter destination that it names (word 6).
fn open(
    heads: &mut [u64],
    subs: &mut [SubRow],
    rows: &mut [Row],
    own: &mut [u64],
    events: &mut [Sent],
    k: usize,
    c: Call,
) -> Outcome
    requires { (station_short (station_lengths_of (lent_all heads.old subs.old rows.old own.old) (length events.old)) ≡ false) × (k < 8) × (c.code ≡ 0) }
    ensures { StationCalled (buffer_station_step (lent_all heads.old subs.old rows.old own.old) (length events.old) k c.code c.words) k c.code c.words (lent_all heads.old subs.old rows.old own.old) (lent_all heads.new subs.new rows.new own.new) events.old events.new result.refusal result.answer result.events }
{
    let w = c.words;
    let name = w[6];
    if PLACES < name {
        return Outcome::refused_for(Refusal::Arguments);
    }
    let given = opening(c);
    let r = named_call(heads, subs, rows, events, k, given);
    if r.refusal != 0 {
        return r;
    }
    own::open(own, k, name);
    r
}

// ---- calls of an open destination

// A call of the destination at a place: it writes its events straight into the station's list, and then they get its number.
fn named_call(
    heads: &mut [u64],
    subs: &mut [SubRow],
    rows: &mut [Row],
    events: &mut [Sent],
    k: usize,
    c: Call,
) -> Outcome
    requires { Within k heads.old subs.old rows.old × (545 ≤ length events.old) }
    ensures { (own : List ℕ) → NamedAt (buffer_step (part k (lent_all heads.old subs.old rows.old own)) 545 c.code c.words) k (lent_all heads.old subs.old rows.old own) (lent_all heads.new subs.new rows.new own) events.old events.new result }
{
    let r = places::call(heads, subs, rows, events, k, c);
    let n = r.events;
    letters::name_all(events, n, k as u64);
    r
}

// A call that takes no number and makes no dead letter.
fn quiet(
    heads: &mut [u64],
    subs: &mut [SubRow],
    rows: &mut [Row],
    own: &[u64],
    events: &mut [Sent],
    k: usize,
    c: Call,
) -> Outcome
    requires { AskedAt (lent_all heads.old subs.old rows.old own.now) k c.code (length events.old) × (eqb c.code 1 ≡ false) × ((t : Dest) → rejected t (decode c.code c.words) ≡ []) }
    ensures { StationCalled (buffer_station_step (lent_all heads.old subs.old rows.old own.now) (length events.old) k c.code c.words) k c.code c.words (lent_all heads.old subs.old rows.old own.now) (lent_all heads.new subs.new rows.new own.now) events.old events.new result.refusal result.answer result.events }
{
    named_call(heads, subs, rows, events, k, c)
}

// Eight words: nothing is done, this is said for the proofs.
fn sized(w: [u64; 8])
    ensures { length w ≡ 8 }
{}

// The number of a direct enqueue: the next one; of one that carries a number 0, which is none.
fn number_of(carried: u64, next: u64) -> u64
    ensures { result ≡ (whether eqb carried 0 then next else 0) }
{
    if carried == 0 {
        return next;
    }
    0
}

// A direct enqueue as its destination gets it.
fn carried(next: u64, c: Call) -> Call
    ensures { result ≡ new_call c.code (carried_words next c.words) }
{
    let w = c.words;
    sized(w);
    let number = number_of(w[0], next);
    Call::new(c.code, [number, w[1], w[2], w[3], w[4], w[5], w[6], w[7]])
}

// A direct enqueue: it takes the next number where it is accepted.
fn enqueue(
    heads: &mut [u64],
    subs: &mut [SubRow],
    rows: &mut [Row],
    own: &mut [u64],
    events: &mut [Sent],
    k: usize,
    c: Call,
) -> Outcome
    requires { AskedAt (lent_all heads.old subs.old rows.old own.old) k c.code (length events.old) × (c.code ≡ 1) }
    ensures { StationCalled (buffer_station_step (lent_all heads.old subs.old rows.old own.old) (length events.old) k c.code c.words) k c.code c.words (lent_all heads.old subs.old rows.old own.old) (lent_all heads.new subs.new rows.new own.new) events.old events.new result.refusal result.answer result.events }
{
    let next = own::next(own);
    let given = carried(next, c);
    let r = named_call(heads, subs, rows, events, k, given);
    if r.refusal != 0 {
        return r;
    }
    own::set_next(own, next + 1);
    r
}

// The refusal (0: accepted), the answer, how many events were written, and how many dead letters there are: C's struct (include/station.h).
#[repr(C)]
#[derive(Clone, Copy)]
pub struct ToldOutcome {
    pub refusal: u64,
    pub answer: u64,
    pub events: usize,
    pub letters: usize,
}

impl ToldOutcome {
    // Without dead letters.
    fn quiet(r: Outcome) -> ToldOutcome
        ensures { result ≡ told_quiet r }
    {
        ToldOutcome {
            refusal: r.refusal,
            answer: r.answer,
            events: r.events,
            letters: 0,
        }
    }
}

// An acknowledgement that rejects entries: the persistent ones are copied before, numbered and run after, and a list gets what became of each.
fn reject(
    heads: &mut [u64],
    subs: &mut [SubRow],
    rows: &mut [Row],
    own: &mut [u64],
    events: &mut [Sent],
    k: usize,
    c: Call,
    told: &mut [Told],
) -> ToldOutcome
    requires { AskedAt (lent_all heads.old subs.old rows.old own.old) k c.code (length events.old) × (rejecting c.code c.words ≡ true) }
    ensures station_called { StationCalled (buffer_station_step (lent_all heads.old subs.old rows.old own.old) (length events.old) k c.code c.words) k c.code c.words (lent_all heads.old subs.old rows.old own.old) (lent_all heads.new subs.new rows.new own.new) events.old events.new result.refusal result.answer result.events }
    ensures station_tells { StationTells (buffer_station_step (lent_all heads.old subs.old rows.old own.old) (length events.old) k c.code c.words) (told_rows k c.code c.words (station_view (lent_all heads.old subs.old rows.old own.old))) told.old told.new result.letters }
{
    let mut dead = [[0u64; 10]; 512];
    let n = places::rejected(heads, subs, rows, k, c, &mut dead);
    let r = named_call(heads, subs, rows, events, k, c);
    if r.refusal != 0 {
        return ToldOutcome::quiet(r);
    }
    if n == 0 {
        return ToldOutcome::quiet(r);
    }
    let w = c.words;
    let all = letters::run_all(
        heads, subs, rows, own, events, r.events, &dead, n, w[6], k, told,
    );
    ToldOutcome {
        refusal: 0,
        answer: r.answer,
        events: all,
        letters: n,
    }
}

// A call of an open destination, on a station whose other destinations are sound.
fn step(
    heads: &mut [u64],
    subs: &mut [SubRow],
    rows: &mut [Row],
    own: &mut [u64],
    events: &mut [Sent],
    k: usize,
    c: Call,
) -> Outcome
    requires { AskedAt (lent_all heads.old subs.old rows.old own.old) k c.code (length events.old) }
    ensures { StationCalled (buffer_station_step (lent_all heads.old subs.old rows.old own.old) (length events.old) k c.code c.words) k c.code c.words (lent_all heads.old subs.old rows.old own.old) (lent_all heads.new subs.new rows.new own.new) events.old events.new result.refusal result.answer result.events }
{
    if rejects::rejects(c) {
        let mut told = [[0u64; 3]; 1];
        let r = reject(heads, subs, rows, own, events, k, c, &mut told);
        return Outcome {
            refusal: r.refusal,
            answer: r.answer,
            events: r.events,
        };
    }
    if c.code == Call::ENQUEUE {
        return enqueue(heads, subs, rows, own, events, k, c);
    }
    quiet(heads, subs, rows, own, events, k, c)
}

// Whether the own words or another destination are not sound, where that is asked: an open needs no sound state, and 10 comes before.
fn stopped(
    heads: &[u64],
    subs: &[SubRow],
    rows: &[Row],
    own: &[u64],
    number: u64,
    code: u64,
) -> bool
    requires { Within 0 heads.now subs.now rows.now × (20 ≤ length own.now) }
    ensures { result ≡ stops_as (lent_all heads.now subs.now rows.now own.now) number code }
{
    if code == Call::OPEN {
        return false;
    }
    if absent(own, number) {
        return false;
    }
    if !own::ok(own) {
        return true;
    }
    !others_sound(heads, subs, rows, own, number as usize)
}

// A station call once these tests are passed.
fn go(
    heads: &mut [u64],
    subs: &mut [SubRow],
    rows: &mut [Row],
    own: &mut [u64],
    events: &mut [Sent],
    number: u64,
    c: Call,
) -> Outcome
    requires { Unstopped (lent_all heads.old subs.old rows.old own.old) number c.code (length events.old) }
    ensures { StationCalled (buffer_station_step (lent_all heads.old subs.old rows.old own.old) (length events.old) number c.code c.words) number c.code c.words (lent_all heads.old subs.old rows.old own.old) (lent_all heads.new subs.new rows.new own.new) events.old events.new result.refusal result.answer result.events }
{
    if 7 < number {
        return Outcome::refused_for(Refusal::NotOpen);
    }
    let k = number as usize;
    if c.code == Call::OPEN {
        return open(heads, subs, rows, own, events, k, c);
    }
    if !own::is_open(own, k) {
        return Outcome::refused_for(Refusal::NotOpen);
    }
    step(heads, subs, rows, own, events, k, c)
}

// A station call: the destination's number, the code and the eight words. Its refusal (0: accepted), its answer, and how many events it has
// written, each with its destination's number. A refused call changes nothing.
pub fn call(
    heads: &mut [u64],
    subs: &mut [SubRow],
    rows: &mut [Row],
    own: &mut [u64],
    events: &mut [Sent],
    number: u64,
    c: Call,
) -> Outcome
    ensures { StationCalled (buffer_station_step (lent_all heads.old subs.old rows.old own.old) (length events.old) number c.code c.words) number c.code c.words (lent_all heads.old subs.old rows.old own.old) (lent_all heads.new subs.new rows.new own.new) events.old events.new result.refusal result.answer result.events }
{
    if !whole(heads, subs, rows, own, events) {
        return Outcome::refused_for(Refusal::Short);
    }
    if stopped(heads, subs, rows, own, number, c.code) {
        return Outcome::refused_for(Refusal::NotSound);
    }
    go(heads, subs, rows, own, events, number, c)
}

// A station call as `call` makes it, and what became of its dead letters: a list gets a row for each, in the order of the call's dead-letter events and as far
// as it goes. A call that is refused, or rejects nothing, leaves the list as it was.
pub fn call_told(
    heads: &mut [u64],
    subs: &mut [SubRow],
    rows: &mut [Row],
    own: &mut [u64],
    events: &mut [Sent],
    told: &mut [Told],
    number: u64,
    c: Call,
) -> ToldOutcome
    ensures station_called { StationCalled (buffer_station_step (lent_all heads.old subs.old rows.old own.old) (length events.old) number c.code c.words) number c.code c.words (lent_all heads.old subs.old rows.old own.old) (lent_all heads.new subs.new rows.new own.new) events.old events.new result.refusal result.answer result.events }
    ensures station_tells { StationTells (buffer_station_step (lent_all heads.old subs.old rows.old own.old) (length events.old) number c.code c.words) (told_rows number c.code c.words (station_view (lent_all heads.old subs.old rows.old own.old))) told.old told.new result.letters }
{
    if !whole(heads, subs, rows, own, events) {
        return ToldOutcome::quiet(Outcome::refused_for(Refusal::Short));
    }
    if stopped(heads, subs, rows, own, number, c.code) {
        return ToldOutcome::quiet(Outcome::refused_for(Refusal::NotSound));
    }
    if rejects::rejects(c) {
        if absent(own, number) {
            return ToldOutcome::quiet(Outcome::refused_for(Refusal::NotOpen));
        }
        return reject(heads, subs, rows, own, events, number as usize, c, told);
    }
    let r = go(heads, subs, rows, own, events, number, c);
    ToldOutcome::quiet(r)
}

// ---- the two calls without a code

// Whether such a call is refused before its destination is asked.
fn barred(
    heads: &[u64],
    subs: &[SubRow],
    rows: &[Row],
    own: &[u64],
    events: &[Sent],
    number: u64,
) -> Result<(), Refusal>
    ensures { refusal_of result ≡ barred_as (lent_all heads.now subs.now rows.now own.now) (length events.now) number }
{
    if !whole(heads, subs, rows, own, events) {
        return Err(Refusal::Short);
    }
    if absent(own, number) {
        return Err(Refusal::NotOpen);
    }
    if !own::ok(own) {
        return Err(Refusal::NotSound);
    }
    if !others_sound(heads, subs, rows, own, number as usize) {
        return Err(Refusal::NotSound);
    }
    Ok(())
}

// `Dest::add_discarded` of the destination with that number.
pub fn add_discarded(
    heads: &mut [u64],
    subs: &mut [SubRow],
    rows: &mut [Row],
    own: &[u64],
    events: &mut [Sent],
    number: u64,
) -> Outcome
    ensures { StationCalled (buffer_station_uncoded (lent_all heads.old subs.old rows.old own.now) (length events.old) number discarding) number 1 [] (lent_all heads.old subs.old rows.old own.now) (lent_all heads.new subs.new rows.new own.now) events.old events.new result.refusal result.answer result.events }
{
    match barred(heads, subs, rows, own, events, number) {
        Ok(()) => places::add_discarded(heads, subs, rows, events, number as usize),
        Err(refusal) => Outcome::refused_for(refusal),
    }
}

// `Dest::expired_before_storing`.
pub fn expired_before_storing(
    heads: &mut [u64],
    subs: &mut [SubRow],
    rows: &mut [Row],
    own: &[u64],
    events: &mut [Sent],
    number: u64,
) -> Outcome
    ensures { StationCalled (buffer_station_uncoded (lent_all heads.old subs.old rows.old own.now) (length events.old) number missing) number 1 [] (lent_all heads.old subs.old rows.old own.now) (lent_all heads.new subs.new rows.new own.now) events.old events.new result.refusal result.answer result.events }
{
    match barred(heads, subs, rows, own, events, number) {
        Ok(()) => places::expired_before_storing(heads, subs, rows, events, number as usize),
        Err(refusal) => Outcome::refused_for(refusal),
    }
}

// ---- the query of the station's own numbers

// The refusal (0: answered), the next number and the lost count, 0 beside a refusal: C's struct (include/station.h).
#[repr(C)]
#[derive(Clone, Copy)]
pub struct OwnNumbers {
    pub refusal: u64,
    pub next: u64,
    pub lost: u64,
}

// Whether the lent state buffers are long enough.
fn state_whole(heads: &[u64], subs: &[SubRow], rows: &[Row], own: &[u64]) -> bool
    ensures { result ≡ not (station_short (station_lengths_of (lent_all heads.now subs.now rows.now own.now) station_events)) }
{
    !((heads.len() < HEADS) | ((subs.len() < SUBS) | ((rows.len() < ROWS) | (own.len() < OWN))))
}

// What a query of a station meets first: a state buffer that is short, or a station that is not sound.
pub fn checked(heads: &[u64], subs: &[SubRow], rows: &[Row], own: &[u64]) -> Result<(), Refusal>
    ensures { refusal_of result ≡ station_checked (lent_all heads.now subs.now rows.now own.now) }
{
    if !state_whole(heads, subs, rows, own) {
        return Err(Refusal::Short);
    }
    if !all_sound(heads, subs, rows, own) {
        return Err(Refusal::NotSound);
    }
    Ok(())
}

// The next number and the lost count.
pub fn numbers(heads: &[u64], subs: &[SubRow], rows: &[Row], own: &[u64]) -> OwnNumbers
    ensures { result ≡ buffer_numbers (lent_all heads.now subs.now rows.now own.now) }
{
    match checked(heads, subs, rows, own) {
        Err(refusal) => OwnNumbers {
            refusal: u64::from(refusal),
            next: 0,
            lost: 0,
        },
        Ok(()) => OwnNumbers {
            refusal: 0,
            next: own::next(own),
            lost: own::lost(own),
        },
    }
}
