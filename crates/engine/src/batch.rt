// Many calls on one lent state, with one test of whether it is sound.
ghost use Rattle.std.specs.Prelude.{◌≡◌, true, false, ◌≤◌, ◌-◌, length, take, drop};
ghost use Rattle.definition.specs.Calls.{state_short, short};
ghost use Rattle.definition.specs.Words.{at};
ghost use Rattle.definition.specs.Layout.{view, sound_buffers, lengths_of, buffer_step, lent};
ghost use Rattle.calls.specs.Calls.{new_call};
ghost use Rattle.engine.specs.Called.{Called};
ghost use Rattle.engine.specs.Batch.{eight_words, batch, buffer_batch, Batched};

use crate::Outcome;
use calls::Call;
use consumers::SubRow;
use entry::Row;
use state::Event;

// How many calls were done, and how many events they have written: C's struct (include/destination.h).
#[repr(C)]
#[derive(Clone, Copy)]
pub struct Done {
    pub calls: usize,
    pub events: usize,
}

// A call in nine words: its code, and the eight after it. Not a From: a station reads nine words otherwise.
fn call_of(w: [u64; 9]) -> Call
    ensures { result ≡ new_call (at 0 w) (eight_words w) }
{
    Call::new(w[0], [w[1], w[2], w[3], w[4], w[5], w[6], w[7], w[8]])
}

// A call on sound buffers that is lent the event list from a place on.
fn step_from(
    head: &mut [u64],
    subs: &mut [SubRow],
    rows: &mut [Row],
    events: &mut [Event],
    from: usize,
    c: Call,
) -> Outcome
    requires { (from ≤ length events.old) × (short (lengths_of (lent head.old subs.old rows.old) (length events.old - from)) ≡ false) × (sound_buffers (lent head.old subs.old rows.old) ≡ true) }
    ensures called { Called (buffer_step (lent head.old subs.old rows.old) (length events.old - from) c.code c.words) (lent head.old subs.old rows.old) (lent head.new subs.new rows.new) (drop from events.old) (drop from events.new) result }
    ensures events_unchanged { take from events.new ≡ take from events.old }
{
    crate::step(head, subs, rows, &mut events[from..], c)
}

// The calls on sound buffers, each lent what is left of the event list.
fn run_each(
    head: &mut [u64],
    subs: &mut [SubRow],
    rows: &mut [Row],
    events: &mut [Event],
    words: &[[u64; 9]],
    outcomes: &mut [[u64; 3]],
) -> Done
    requires { (state_short (lengths_of (lent head.old subs.old rows.old) 0) ≡ false) × (sound_buffers (lent head.old subs.old rows.old) ≡ true) }
    ensures { Batched (batch (lengths_of (lent head.old subs.old rows.old) (length events.old)) (length outcomes.old) words.now (view (lent head.old subs.old rows.old))) (lent head.old subs.old rows.old) (lent head.new subs.new rows.new) events.old events.new outcomes.old outcomes.new result }
{
    let mut from = 0;
    for i in 0..words.len() {
        if outcomes.len() <= i {
            return Done {
                calls: i,
                events: from,
            };
        }
        if events.len() - from < state::EVENTS {
            return Done {
                calls: i,
                events: from,
            };
        }
        let c = call_of(words[i]);
        let r = step_from(head, subs, rows, events, from, c);
        outcomes[i] = [r.refusal, r.answer, r.events as u64];
        from += r.events;
    }
    Done {
        calls: words.len(),
        events: from,
    }
}

// The calls of a list, nine words each (a code and its eight words), one after another, as `call` would do each on what is left of the event
// list. An outcome is a refusal, an answer and how many events; the events of all calls stand one after another. It ends with the last call,
// with the last place for an outcome, or where fewer than 545 places for events are left. With a short state buffer, or a state that is not
// sound (as before an open), none is done: `call` then says why.
pub fn calls(
    head: &mut [u64],
    subs: &mut [SubRow],
    rows: &mut [Row],
    events: &mut [Event],
    words: &[[u64; 9]],
    outcomes: &mut [[u64; 3]],
) -> Done
    ensures { Batched (buffer_batch (lent head.old subs.old rows.old) (length events.old) (length outcomes.old) words.now) (lent head.old subs.old rows.old) (lent head.new subs.new rows.new) events.old events.new outcomes.old outcomes.new result }
{
    if !sound::sound(head, subs, rows) {
        return Done {
            calls: 0,
            events: 0,
        };
    }
    run_each(head, subs, rows, events, words, outcomes)
}
