// Parts of `set_prefetch`, `pull` and `pull_timeout` of destination.rs that change one consumer's words and no row: what comes before
// and after the dispatch.
#![tactic(auto)]

ghost use Rattle.std.specs.Prelude.{◌≡◌, true, false, ◌+◌, ◌<◌, ◌^◌, length, take, set};
ghost use Rattle.model.specs.Model.{id_of};
ghost use Rattle.definition.specs.Base.{all};
ghost use Rattle.definition.specs.Types.{null};
ghost use Rattle.definition.specs.Destination.{room, pull_timeout};
ghost use Rattle.definition.specs.Layout.{event_words};
ghost use Rattle.consumers.specs.Consumers.{sub_words};
ghost use Rattle.state.specs.Answers.{told};
ghost use Rattle.state.specs.State.{pushed};
ghost use Rattle.state.specs.Fits.{fits};
ghost use Rattle.state.specs.Leaves.{silent, LeavesIf};
ghost use Rattle.pulls.specs.Pulls.{sub_prefetch, sub_pull, prefetched, registered, answered_out, OneMore, PullWaits, PullAnswers, stands, risable};

use consumers::{Sub, SubRow};
use entry::Row;
use model::{Id, Refusal};
use state::{Answer, Answered, Event, Head};

// `prefetch.max(0)`.
pub fn room(prefetch: i32) -> u64
    ensures { result ≡ room prefetch }
{
    prefetch.max(0) as u64
}

// With a new prefetch.
fn with_prefetch(s: Sub, prefetch: u64) -> Sub
    ensures { result ≡ sub_prefetch prefetch s }
{
    Sub { prefetch, ..s }
}

// With a new pull.
fn pulling(s: Sub) -> Sub
    requires { s.generation < 2 ^ 63 }
    ensures { result ≡ sub_pull true (s.generation + 1) (s.generation + 1) s }
{
    let next = s.generation + 1;
    Sub {
        generation: next,
        pulling: true,
        pull: next,
        ..s
    }
}

// With no pull.
fn not_pulling(s: Sub) -> Sub
    ensures { result ≡ sub_pull false 0 s.generation s }
{
    Sub {
        pulling: false,
        pull: 0,
        ..s
    }
}

// `send_null` to the consumer s at a place.
fn send_null(subs: &mut [SubRow], events: &mut [Event], d: Head, i: usize, s: Sub) -> Head
    ensures value { (result ≡ pushed d (length events.old)) × (events.new ≡ set events.old d.events (event_words (null (id_of s.conn s.session s.value)))) }
    ensures subs_after { subs.new ≡ set subs.old i (sub_words (sub_pull false 0 s.generation s)) }
{
    consumers::store(subs, i, not_pulling(s));
    state::push_null(events, d, s.conn, s.session, s.value)
}

// A consumer gets a new prefetch; below 0 it is 0. Where the numbers do not fit the tables, nothing happens.
pub fn set_prefetch(
    subs: &mut [SubRow],
    rows: &[Row],
    events: &[Event],
    d: Head,
    id: Id,
    prefetch: i32,
)
    ensures { LeavesIf (fits subs.old d (length rows.now) (length events.now)) (fits subs.new d (length rows.now) (length events.now) ≡ true) (silent (prefetched id prefetch)) d d subs.old rows.now events.now subs.new rows.now events.now }
{
    if !state::fits(subs, d, rows.len(), events.len()) {
        return;
    }
    let Some(i) = consumers::position(subs, d.consumers, id) else {
        return;
    };
    let s = consumers::load(subs, i);
    consumers::store(subs, i, with_prefetch(s, room(prefetch)));
}

// A consumer with prefetch 0 gets a new pull; whether there is such a consumer. Where the numbers do not fit the tables, nothing
// happens.
pub fn register(subs: &mut [SubRow], rows: &[Row], events: &[Event], d: Head, id: Id) -> bool
    ensures leaves_if { LeavesIf (fits subs.old d (length rows.now) (length events.now)) (all risable (take d.consumers subs.old) ≡ true → fits subs.new d (length rows.now) (length events.now) ≡ true) (silent (registered id)) d d subs.old rows.now events.now subs.new rows.now events.now }
    ensures pull_waits { PullWaits (fits subs.old d (length rows.now) (length events.now)) id d subs.old rows.now result }
{
    if !state::fits(subs, d, rows.len(), events.len()) {
        return false;
    }
    let Some(i) = consumers::position(subs, d.consumers, id) else {
        return false;
    };
    let s = consumers::load(subs, i);
    if 0 < s.prefetch {
        return false;
    }
    consumers::store(subs, i, pulling(s));
    true
}

// Whether the counts are within the tables, and one more event has room.
fn stands(subs: &[SubRow], d: Head, rows: usize, events: usize) -> bool
    ensures { result ≡ stands subs.now d rows events }
{
    if subs.len() < state::CONSUMERS {
        return false;
    }
    if rows < state::ROWS {
        return false;
    }
    if events <= d.events {
        return false;
    }
    if state::CONSUMERS < d.consumers {
        return false;
    }
    if state::ROWS < d.used {
        return false;
    }
    if d.used < d.reserved {
        return false;
    }
    if d.used - d.reserved < d.waiting {
        return false;
    }
    consumers::base_of(subs, d.consumers) == d.used - d.reserved - d.waiting
}

// What becomes of a pull after the dispatch: satisfied, or answered at once with a null (timeout below 0), or timed (the answer is its
// generation), or waiting. Refused with 2 where the counts are not within the tables or no event has room.
pub fn answer_pull(
    subs: &mut [SubRow],
    rows: &[Row],
    events: &mut [Event],
    d: Head,
    id: Id,
    timeout: i64,
) -> Answer
    ensures leaves_if { LeavesIf (stands subs.old d (length rows.now) (length events.old)) (OneMore d (told d result).head) (answered_out id timeout) d (told d result).head subs.old rows.now events.old subs.new rows.now events.new }
    ensures pull_answers { PullAnswers (stands subs.old d (length rows.now) (length events.old)) id timeout d subs.old rows.now (told d result) }
{
    if !stands(subs, d, rows.len(), events.len()) {
        return Err(Refusal::NotSound);
    }
    let Some(i) = consumers::position(subs, d.consumers, id) else {
        return Ok(Answered { answer: 0, head: d });
    };
    let s = consumers::load(subs, i);
    if !s.pulling {
        return Ok(Answered { answer: 0, head: d });
    }
    if timeout < 0 {
        let head = send_null(subs, events, d, i, s);
        return Ok(Answered { answer: 0, head });
    }
    if 0 < timeout {
        return Ok(Answered {
            answer: s.pull,
            head: d,
        });
    }
    Ok(Answered { answer: 0, head: d })
}

// A pull's timer fires: a null, if that pull still waits. Where the numbers do not fit the tables, nothing happens.
pub fn pull_timeout(
    subs: &mut [SubRow],
    rows: &[Row],
    events: &mut [Event],
    d: Head,
    id: Id,
    generation: u64,
) -> Head
    ensures { LeavesIf (fits subs.old d (length rows.now) (length events.old)) (OneMore d result) (pull_timeout id generation) d result subs.old rows.now events.old subs.new rows.now events.new }
{
    if !state::fits(subs, d, rows.len(), events.len()) {
        return d;
    }
    let Some(i) = consumers::position(subs, d.consumers, id) else {
        return d;
    };
    let s = consumers::load(subs, i);
    if !s.pulling {
        return d;
    }
    if s.pull != generation {
        return d;
    }
    send_null(subs, events, d, i, s)
}
