// Dead letters (`run_effects` and `to_dlq` of mod.rs): running them and storing one call each other, with remaining hops that fall from eight.
ghost use Rattle.std.specs.Prelude.{◌≡◌, true, List, [], ◌∷◌, ◌++◌, map, ◌+◌, ◌≤◌, ◌<◌, ◌^◌, length, get_or, take, drop};
ghost use Rattle.std.proofs.Math.Option.{Option};
ghost use Rattle.std.proofs.Math.Seq.{paste};
ghost use Rattle.definition.specs.Base.{all};
ghost use Rattle.calls.specs.Calls.{new_call};
ghost use Rattle.entry.specs.Entry.{entry_of};
ghost use Rattle.definition_station.specs.Types.{StationSlot};
ghost use Rattle.definition_station.specs.Letters.{number_letters};
ghost use Rattle.stationcalls.specs.Numbers.{letter_words, dead_ok, station_of, Numbers, Letters};
ghost use Rattle.definition.specs.Words.{at};
ghost use Rattle.definition.specs.Calls.{clock_ok};
ghost use Rattle.definition_station.specs.Layout.{station_view};
ghost use Rattle.stationcalls.specs.All.{all_run, all_told, rows_told, numbers_got, LendsAll, RanAll};
ghost use Rattle.stationcalls.specs.Tells.{told_over};
ghost use Rattle.stationcalls.specs.Parts.{lent_all};
ghost use Rattle.stationcalls.specs.Run.{named, letter_call, letter_ok, shown_with, Lends, Roomy, RunsLetters, storing_on, running_on, place_on, places_on, last_of};

use crate::{own, places};
use calls::Call;
use consumers::SubRow;
use entry::Row;
use state::Event;

// An event of a station: the six words of an event, with 256 times its destination's number added to the first.
pub type Sent = [u64; 6];

// A dead letter in the words of an enqueue.
type Letter = [u64; 8];

// What became of a dead letter: the number that it had, the one that it got (0: none was left), and the place where it is stored (8: it is lost).
pub type Told = [u64; 3];

// A letter makes at most so many hops.
const HOPS: usize = 8;

// No destination: a letter that is lost is stored nowhere. A number, since a row of `Told` holds it for C.
const NOWHERE: u64 = 8;

// What running dead letters leaves: how many events there are now, the lost count, and where the last letter is stored.
#[derive(Clone, Copy)]
struct Ran {
    sent: usize,
    lost: u64,
    place: u64,
}

// What numbering dead letters leaves: how many have got a number, the next number, and the lost count.
#[derive(Clone, Copy)]
struct Given {
    many: usize,
    next: u64,
    lost: u64,
}

// An event with its destination's number.
fn named(e: Event, k: u64) -> Sent
    requires { k < 8 }
    ensures { result ≡ named k e }
{
    [e[0] % 256 + 256 * k, e[1], e[2], e[3], e[4], e[5]]
}

// Puts the first n events of a call with its destination's number into the list, from `at` on; how many events there are then.
pub(crate) fn tell(events: &mut [Sent], at: usize, called: &[Event], n: usize, k: u64) -> usize
    requires { (n ≤ length called.now) × (at + n ≤ length events.old) × (k < 8) }
    ensures value { result ≡ at + n }
    ensures events_after { events.new ≡ paste events.old at (map (named k) called.now) n }
{
    for i in 0..n {
        events[at + i] = named(called[i], k);
    }
    at + n
}

// Names the destination of the first n events.
pub(crate) fn name_all(events: &mut [Sent], n: usize, k: u64)
    requires { (n ≤ length events.old) × (k < 8) }
    ensures { events.new ≡ paste events.old 0 (map (named k) events.old) n }
{
    for i in 0..n {
        events[i] = named(events[i], k);
    }
}

// A letter as a call, at a clock.
fn call_of(letter: Letter, clock: u64) -> Call
    ensures { result ≡ new_call 1 (letter_call clock letter) }
{
    Call::new(
        Call::ENQUEUE,
        [
            letter[0], letter[1], letter[2], letter[3], letter[4], letter[5], clock, letter[7],
        ],
    )
}

// Stores a letter at the destination that is named: an accepted enqueue there. Where that one refuses, the letter goes on to the one that it names; with
// no hop left, none named, or one that is not open, it is lost.
#[cycle(run_store)]
fn store(
    heads: &mut [u64],
    subs: &mut [SubRow],
    rows: &mut [Row],
    events: &mut [Sent],
    scratch: &mut [Event],
    own: &[u64],
    before: Ran,
    letter: Letter,
    clock: u64,
    name: u64,
    hops: usize,
) -> Ran
    requires { Lends (lent_all heads.old subs.old rows.old own.now) scratch.old × (letter_ok clock letter ≡ true) × Roomy (storing_on hops clock name letter (shown_with (lent_all heads.old subs.old rows.old own.now) before.lost)) before.sent events.old }
    ensures runs_letters { RunsLetters (storing_on hops clock name letter (shown_with (lent_all heads.old subs.old rows.old own.now) before.lost)) (lent_all heads.old subs.old rows.old own.now) (lent_all heads.new subs.new rows.new own.now) events.old events.new before.sent result.sent result.lost }
    ensures place_value { result.place ≡ place_on hops clock name letter (shown_with (lent_all heads.old subs.old rows.old own.now) before.lost) }
{
    if hops == 0 {
        return Ran {
            sent: before.sent,
            lost: own::one_more(before.lost),
            place: NOWHERE,
        };
    }
    if 7 < name {
        return Ran {
            sent: before.sent,
            lost: own::one_more(before.lost),
            place: NOWHERE,
        };
    }
    let k = name as usize;
    if !own::is_open(own, k) {
        return Ran {
            sent: before.sent,
            lost: own::one_more(before.lost),
            place: NOWHERE,
        };
    }
    let c = call_of(letter, clock);
    let r = places::call(heads, subs, rows, scratch, k, c);
    if r.refusal != 0 {
        let one = [letter];
        let next = own::name(own, k);
        return run(
            heads,
            subs,
            rows,
            events,
            scratch,
            own,
            before,
            &one,
            1,
            clock,
            next,
            hops - 1,
        );
    }
    let n = r.events;
    let from = before.sent;
    let sent = tell(events, from, scratch, n, name);
    Ran {
        sent,
        lost: before.lost,
        place: name,
    }
}

// Runs the first n letters, one after another, from the destination that is named on.
#[cycle(run_store)]
fn run(
    heads: &mut [u64],
    subs: &mut [SubRow],
    rows: &mut [Row],
    events: &mut [Sent],
    scratch: &mut [Event],
    own: &[u64],
    before: Ran,
    letters: &[Letter],
    n: usize,
    clock: u64,
    name: u64,
    hops: usize,
) -> Ran
    requires { Lends (lent_all heads.old subs.old rows.old own.now) scratch.old × (n ≤ length letters.now) × (all (letter_ok clock) (take n letters.now) ≡ true) × Roomy (running_on hops clock name (take n letters.now) (shown_with (lent_all heads.old subs.old rows.old own.now) before.lost)) before.sent events.old }
    ensures runs_letters { RunsLetters (running_on hops clock name (take n letters.now) (shown_with (lent_all heads.old subs.old rows.old own.now) before.lost)) (lent_all heads.old subs.old rows.old own.now) (lent_all heads.new subs.new rows.new own.now) events.old events.new before.sent result.sent result.lost }
    ensures place_value { result.place ≡ last_of before.place (places_on hops clock name (take n letters.now) (shown_with (lent_all heads.old subs.old rows.old own.now) before.lost)) }
{
    let mut ran = before;
    for i in 0..n {
        ran = store(
            heads, subs, rows, events, scratch, own, ran, letters[i], clock, name, hops,
        );
    }
    ran
}

// Runs the first n letters, one after another, from the destination that is named on, with eight hops each; a list gets the place where each is stored.
fn run_each(
    heads: &mut [u64],
    subs: &mut [SubRow],
    rows: &mut [Row],
    events: &mut [Sent],
    scratch: &mut [Event],
    own: &[u64],
    before: Ran,
    letters: &[Letter],
    n: usize,
    clock: u64,
    name: u64,
    places: &mut [u64],
) -> Ran
    requires { Lends (lent_all heads.old subs.old rows.old own.now) scratch.old × (n ≤ length letters.now) × (all (letter_ok clock) (take n letters.now) ≡ true) × Roomy (running_on 8 clock name (take n letters.now) (shown_with (lent_all heads.old subs.old rows.old own.now) before.lost)) before.sent events.old × (n ≤ length places.old) }
    ensures runs_letters { RunsLetters (running_on 8 clock name (take n letters.now) (shown_with (lent_all heads.old subs.old rows.old own.now) before.lost)) (lent_all heads.old subs.old rows.old own.now) (lent_all heads.new subs.new rows.new own.now) events.old events.new before.sent result.sent result.lost }
    ensures places_after { places.new ≡ places_on 8 clock name (take n letters.now) (shown_with (lent_all heads.old subs.old rows.old own.now) before.lost) ++ drop n places.old }
{
    let mut ran = before;
    for i in 0..n {
        ran = store(
            heads, subs, rows, events, scratch, own, ran, letters[i], clock, name, HOPS,
        );
        places[i] = ran.place;
    }
    ran
}

// A rejected row as a letter: a new number, and all else as it was. (Its clock comes with the call.)
fn letter_of(row: Row, number: u64) -> Letter
    ensures { result ≡ letter_words number (entry_of row) }
{
    let e = entry::entry_of(row);
    let w = entry::held_row(e);
    [number, w[1], w[2], w[3], w[4], w[5], 0, w[9]]
}

// Gives each of the first n rejected rows its number, in order; with no number left one is lost.
fn number(dead: &[Row], n: usize, letters: &mut [Letter], first: u64, before: u64) -> Given
    requires { (n ≤ length dead.now) × (n ≤ length letters.old) × (all dead_ok (take n dead.now) ≡ true) × (1 ≤ first) × (first ≤ 2 ^ 63) }
    ensures numbers { (slots : List (Option StationSlot)) → Numbers (number_letters (map entry_of (take n dead.now)) (station_of slots first before)) slots letters.new result }
    ensures letters { Letters n letters.new result }
{
    let mut many = 0;
    let mut next = first;
    let mut lost = before;
    for i in 0..n {
        if next < own::NUMBERS_END {
            letters[many] = letter_of(dead[i], next);
            many += 1;
            next += 1;
        } else {
            lost = own::one_more(lost);
        }
    }
    Given { many, next, lost }
}

// What became of the rejected row at a place, where the first `many` have got a number.
fn told_at(dead: &[Row], letters: &[Letter], many: usize, places: &[u64], i: usize) -> Told
    requires { (i < length dead.now) × (many ≤ length letters.now) × (many ≤ length places.now) }
    ensures { result ≡ at 0 (get_or dead.now i []) ∷ at i (numbers_got many letters.now) ∷ get_or (take many places.now) i 8 ∷ [] }
{
    let number = dead[i][0];
    if i < many {
        return [number, letters[i][0], places[i]];
    }
    [number, 0, NOWHERE]
}

// Says of the first n rejected rows what became of them, as far as the list goes.
fn tell_letters(
    told: &mut [Told],
    dead: &[Row],
    n: usize,
    letters: &[Letter],
    many: usize,
    places: &[u64],
)
    requires { (n ≤ length dead.now) × (many ≤ length letters.now) × (many ≤ length places.now) }
    ensures { told.new ≡ told_over (rows_told (take n dead.now) (numbers_got many letters.now) (take many places.now)) told.old }
{
    let end = n.min(told.len());
    for i in 0..end {
        told[i] = told_at(dead, letters, many, places, i);
    }
}

// Numbers the first n rejected rows and runs them, from the name of destination k on, and tells what became of each. How many events there are then.
pub(crate) fn run_all(
    heads: &mut [u64],
    subs: &mut [SubRow],
    rows: &mut [Row],
    own: &mut [u64],
    events: &mut [Sent],
    sent: usize,
    dead: &[Row],
    n: usize,
    clock: u64,
    k: usize,
    told: &mut [Told],
) -> usize
    requires { LendsAll (lent_all heads.old subs.old rows.old own.old) × (n ≤ length dead.now) × (n ≤ 512) × (all dead_ok (take n dead.now) ≡ true) × (clock_ok clock ≡ true) × (k < 8) × Roomy (all_run clock (at (8 + k) own.old) (map entry_of (take n dead.now)) (station_view (lent_all heads.old subs.old rows.old own.old))) sent events.old }
    ensures ran_all { RanAll (all_run clock (at (8 + k) own.old) (map entry_of (take n dead.now)) (station_view (lent_all heads.old subs.old rows.old own.old))) (lent_all heads.old subs.old rows.old own.old) (lent_all heads.new subs.new rows.new own.new) events.old events.new sent result }
    ensures told_after { told.new ≡ told_over (all_told clock (at (8 + k) own.old) (map entry_of (take n dead.now)) (station_view (lent_all heads.old subs.old rows.old own.old))) told.old }
{
    let mut places = [NOWHERE; 512];
    let mut letters = [[0u64; 8]; 512];
    let mut scratch = [[0u64; 6]; 545];
    let next = own::next(own);
    let lost = own::lost(own);
    let given = number(dead, n, &mut letters, next, lost);
    own::set_next(own, given.next);
    let before = Ran {
        sent,
        lost: given.lost,
        place: NOWHERE,
    };
    let name = own::name(own, k);
    let many = given.many;
    let ran = run_each(
        heads,
        subs,
        rows,
        events,
        &mut scratch,
        own,
        before,
        &letters,
        many,
        clock,
        name,
        &mut places,
    );
    own::set_lost(own, ran.lost);
    tell_letters(told, dead, n, &letters, many, &places);
    ran.sent
}
