// The public calls of a destination on lent buffers, total, with refusals in the paper's order.
#![tactic(auto)]

ghost use Rattle.std.specs.Prelude.{◌≡◌, true, false, ◌<◌, eqb, length};
ghost use Rattle.definition.specs.Base.{whether◌then◌else◌};
ghost use Rattle.definition.specs.Words.{share_of, open_words};
ghost use Rattle.definition.specs.Base.{is_some};
ghost use Rattle.definition.specs.Calls.{short};
ghost use Rattle.definition.specs.Words.{decode};
ghost use Rattle.definition.specs.Layout.{sound_buffers, lengths_of, buffer_step, lent};
ghost use Rattle.model.specs.Refusal.{refusal_number};
ghost use Rattle.state.specs.State.{stored_head};
ghost use Rattle.engine.specs.Called.{outcome, Called};
ghost use Rattle.engine.specs.Opened.{opened_head, counted, finished, finished_by, stored_after};

mod acking;
mod arrivals;
mod asking;
mod batch;
mod departures;
mod fanning;
mod handling;
mod ordered;
mod perform;
mod requests;
mod storing;

pub use batch::{Done, calls};
use calls::Call;
use consumers::SubRow;
use entry::Row;
use model::Refusal;
use state::{Answer, Answered, Event, Head};
use stats::Stats;

// The refusal's number (0: accepted), the answer, how many events were written: C's struct (include/destination.h).
#[repr(C)]
#[derive(Clone, Copy)]
pub struct Outcome {
    pub refusal: u64,
    pub answer: u64,
    pub events: usize,
}

impl Outcome {
    // Of any number.
    pub fn refused(refusal: u64) -> Outcome
        ensures { result ≡ outcome refusal 0 0 }
    {
        Outcome {
            refusal,
            answer: 0,
            events: 0,
        }
    }

    pub fn refused_for(refusal: Refusal) -> Outcome
        ensures { result ≡ outcome (refusal_number refusal) 0 0 }
    {
        Outcome::refused(u64::from(refusal))
    }
}

// What a call gives, for `finish`: its refusal by any number, 0 for none.
#[derive(Clone, Copy)]
pub struct Reply {
    pub refusal: u64,
    pub answer: u64,
    pub head: Head,
}

// The share that a word stands for: 0 for all rows.
fn share_of(w: u64) -> u64
    ensures { result ≡ share_of w }
{
    if w == 0 { entry::SHARE_MOST } else { w }
}

// The numbers of a destination that is opened by these words.
fn opened(words: [u64; 8]) -> Head
    ensures { result ≡ opened_head words }
{
    let stats = Stats {
        enqueued: 0,
        dequeued: 0,
        expired: 0,
        discarded: 0,
        dispatched: 0,
    };
    Head {
        topic_limit: words[1],
        call_limit: words[2],
        allowance: words[4],
        share: share_of(words[5]),
        calls_used: 0,
        turn: 0,
        idle_since: words[3],
        stats,
        consumers: 0,
        producers: 0,
        audits: 0,
        reserved: 0,
        waiting: 0,
        used: 0,
        events: 0,
        queue: words[0] == 0,
        idle: true,
    }
}

// Opens a destination, where the words are those of an open.
fn open(head: &mut [u64], c: Call) -> Outcome
    ensures value { result ≡ (whether open_words c.words then outcome 0 0 0 else outcome 3 0 0) }
    ensures head_after { head.new ≡ (whether open_words c.words then stored_head (opened_head c.words) head.old else head.old) }
{
    if !c.opens() {
        return Outcome::refused_for(Refusal::Arguments);
    }
    let w = c.words;
    let d = opened(w);
    state::store(head, d);
    Outcome {
        refusal: 0,
        answer: 0,
        events: 0,
    }
}

// Stores what a call leaves, with one call more used; a refused one stores nothing.
pub fn conclude(head: &mut [u64], a: Answer) -> Outcome
    ensures value { result ≡ finished a }
    ensures head_after { head.new ≡ stored_after a head.old }
{
    match a {
        Err(refusal) => Outcome::refused_for(refusal),
        Ok(done) => {
            let d = done.head;
            state::store(head, d.counted());
            Outcome {
                refusal: 0,
                answer: done.answer,
                events: d.events,
            }
        }
    }
}

// `conclude` of a refusal by its number, also one that has no name here.
pub fn finish(head: &mut [u64], a: Reply) -> Outcome
    ensures value { result ≡ finished_by a }
    ensures head_after { head.new ≡ (whether eqb a.refusal 0 then stored_head (counted a.head) head.old else head.old) }
{
    if a.refusal != 0 {
        return Outcome::refused(a.refusal);
    }
    conclude(
        head,
        Ok(Answered {
            answer: a.answer,
            head: a.head,
        }),
    )
}

// A call on sound buffers, whose arguments are in range.
fn run(
    head: &mut [u64],
    subs: &mut [SubRow],
    rows: &mut [Row],
    events: &mut [Event],
    c: Call,
) -> Outcome
    requires { (short (lengths_of (lent head.old subs.old rows.old) (length events.old)) ≡ false) × (sound_buffers (lent head.old subs.old rows.old) ≡ true) × (0 < c.code) × (is_some (decode c.code c.words) ≡ true) }
    ensures { Called (buffer_step (lent head.old subs.old rows.old) (length events.old) c.code c.words) (lent head.old subs.old rows.old) (lent head.new subs.new rows.new) events.old events.new result }
{
    let d = state::load(head, subs);
    if d.calls_used == d.call_limit {
        return Outcome::refused_for(Refusal::CallsUsedUp);
    }
    if (c.code < Call::ADD_PRODUCER) | (c.code == Call::RELEASE) {
        let a = perform::perform(subs, rows, events, d, c);
        return conclude(head, a);
    }
    let a = perform::perform_head(head, d, c);
    conclude(head, a)
}

// A call on sound buffers: what follows the tests of the state.
fn step(
    head: &mut [u64],
    subs: &mut [SubRow],
    rows: &mut [Row],
    events: &mut [Event],
    c: Call,
) -> Outcome
    requires { (short (lengths_of (lent head.old subs.old rows.old) (length events.old)) ≡ false) × (sound_buffers (lent head.old subs.old rows.old) ≡ true) }
    ensures { Called (buffer_step (lent head.old subs.old rows.old) (length events.old) c.code c.words) (lent head.old subs.old rows.old) (lent head.new subs.new rows.new) events.old events.new result }
{
    if c.code == Call::OPEN {
        return open(head, c);
    }
    if !c.in_range() {
        return Outcome::refused_for(Refusal::Arguments);
    }
    run(head, subs, rows, events, c)
}

// A call of document 01, by its code and its eight words, on a lent state and a lent event list: its refusal (0: accepted), its answer,
// and how many events it has written. A refused call changes nothing.
pub fn call(
    head: &mut [u64],
    subs: &mut [SubRow],
    rows: &mut [Row],
    events: &mut [Event],
    c: Call,
) -> Outcome
    ensures { Called (buffer_step (lent head.old subs.old rows.old) (length events.old) c.code c.words) (lent head.old subs.old rows.old) (lent head.new subs.new rows.new) events.old events.new result }
{
    if !sound::whole(head, subs, rows) {
        return Outcome::refused_for(Refusal::Short);
    }
    if events.len() < state::EVENTS {
        return Outcome::refused_for(Refusal::Short);
    }
    if c.code == Call::OPEN {
        return open(head, c);
    }
    if !sound::sound(head, subs, rows) {
        return Outcome::refused_for(Refusal::NotSound);
    }
    step(head, subs, rows, events, c)
}
