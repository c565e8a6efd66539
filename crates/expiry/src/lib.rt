// Entries that are deleted: `sweep_expired` and `clear` of destination.rs.
#![tactic(auto)]

ghost use Rattle.std.specs.Prelude.{◌≡◌, ◌&&◌, map, ◌≤◌, ◌^◌, leb, length, drop};
ghost use Rattle.std.proofs.Math.Seq.{slice};
ghost use Rattle.entry.specs.Entry.{entry_of};
ghost use Rattle.definition.specs.Destination.{soonest, sweep_expired, clear, is_sooner};
ghost use Rattle.consumers.specs.Consumers.{with_held};
ghost use Rattle.state.specs.Answers.{told};
ghost use Rattle.state.specs.State.{done_as, with_waiting, with_used};
ghost use Rattle.state.specs.Fits.{fits};
ghost use Rattle.state.specs.Leaves.{LeavesIf, Room};
ghost use Rattle.expiry.specs.Expiry.{emptied_head, clear_out, sweep_out, sweep_finished, SweepAnswers};
ghost use Rattle.expiry.specs.Sweep.{next_of, SweepFine, Shorter, StaysStrict, sweep_listed, swept, swept_unless, Able, SubsSwept};

use consumers::{Sub, SubRow};
use entry::{Entry, Row};
use model::Refusal;
use state::{Answer, Answered, Event, Head};

// What sweeping a list leaves: the rows in use, the list's length, how many went.
#[derive(Clone, Copy)]
struct Swept {
    used: usize,
    length: usize,
    gone: usize,
}

// By expiration, and then by sequence number.
fn is_sooner(e: Entry, f: Entry) -> bool
    ensures { result ≡ is_sooner e f }
{
    let a = e.expiration;
    let b = f.expiration;
    (a < b) | ((a <= b) & (e.seq < f.seq))
}

// The soonest of the expired rows of from..to, looked for from the last row on.
fn soonest(rows: &[Row], from: usize, to: usize, by: u64) -> Option<Entry>
    requires { (from ≤ to) × (to ≤ length rows.now) × (by ≤ 2 ^ 62) }
    ensures { next_of result ≡ soonest by (map entry_of (slice from to rows.now)) }
{
    let mut best: Option<Entry> = None;
    for i in (from..to).rev() {
        let row = rows[i];
        let until = row[1];
        if (0 < until) & (until <= by) {
            let e = entry::entry_of(row);
            if best.is_none_or(|f| is_sooner(e, f)) {
                best = Some(e);
            }
        }
    }
    best
}

// Of the list at from at most so many expired rows go, soonest first.
fn sweep_list(rows: &mut [Row], from: usize, start: Swept, most: usize, by: u64) -> Swept
    requires { SweepFine (length rows.old) from start most by }
    ensures rows_after { sweep_listed from result rows.new ≡ swept most by (sweep_listed from start rows.old) }
    ensures shorter { Shorter most start result }
    ensures rows_unchanged { drop start.used rows.new ≡ drop start.used rows.old }
    ensures stays_strict { StaysStrict from start result rows.old rows.new }
{
    let mut w = start;
    // A while: the list and the budget change as rows go.
    while w.gone < most {
        let to = from + w.length;
        let Some(e) = soonest(rows, from, to, by) else {
            return w;
        };
        let k = table::remove_seq(rows, from, to, w.used, e.seq);
        w.used = w.used - k;
        w.length = w.length - k;
        w.gone = w.gone + 1;
    }
    w
}

// What a consumer holds is swept, where it is no snapshot of a queue. The list begins at from.
fn sweep_held(
    rows: &mut [Row],
    from: usize,
    start: Swept,
    snapshot: bool,
    most: usize,
    by: u64,
) -> Swept
    requires { SweepFine (length rows.old) from start most by }
    ensures rows_after { sweep_listed from result rows.new ≡ swept_unless snapshot most by (sweep_listed from start rows.old) }
    ensures shorter { Shorter most start result }
    ensures rows_unchanged { drop start.used rows.new ≡ drop start.used rows.old }
    ensures stays_strict { StaysStrict from start result rows.old rows.new }
{
    if snapshot {
        return start;
    }
    sweep_list(rows, from, start, most, by)
}

// A consumer that holds so many.
fn with_held(s: Sub, held: usize) -> Sub
    ensures { result ≡ with_held held s }
{
    Sub { held, ..s }
}

// Each consumer in turn; base is where its rows begin. So many went before.
fn sweep_subs(
    subs: &mut [SubRow],
    rows: &mut [Row],
    d: Head,
    gone: usize,
    most: usize,
    by: u64,
) -> Swept
    requires { Able subs.old d (length rows.old) gone most by }
    ensures { SubsSwept most by d gone subs.old rows.old subs.new rows.new result }
{
    let mut w = Swept {
        used: d.used,
        length: 0,
        gone,
    };
    let mut base = 0;
    for i in 0..d.consumers {
        let s = consumers::load(subs, i);
        let from = base + s.inflight;
        let start = Swept {
            length: s.held,
            ..w
        };
        w = sweep_held(rows, from, start, d.queue & s.browser, most, by);
        let held = w.length;
        base = from + held;
        consumers::store(subs, i, with_held(s, held));
    }
    w
}

// With so many rows in use and waiting.
fn shorter(d: Head, used: usize, waiting: usize) -> Head
    ensures { result ≡ with_used used (with_waiting waiting d) }
{
    Head { used, waiting, ..d }
}

// How many went, counted, and the idle mark.
fn finished(d: Head, gone: usize, clock: u64) -> Answered
    ensures { done_as result.answer result.head ≡ sweep_finished gone clock d }
{
    if 0 < gone {
        let counted = d.count_expired(gone as u64);
        return Answered {
            answer: gone as u64,
            head: counted.touch_idle(clock),
        };
    }
    Answered { answer: 0, head: d }
}

// Deletes expired entries, at most so many, and answers how many: those that wait first, then those that each consumer holds, browsers'
// snapshots apart. Where the numbers do not fit the tables, with a clock above 2^62 or a budget above 512, refused with 2.
pub fn sweep(
    subs: &mut [SubRow],
    rows: &mut [Row],
    events: &[Event],
    d: Head,
    most: usize,
    clock: u64,
) -> Answer
    ensures leaves_if { LeavesIf (fits subs.old d (length rows.old) (length events.now) && (leb clock (2 ^ 62) && leb most 512)) (Room d (told d result).head) (sweep_out clock most) d (told d result).head subs.old rows.old events.now subs.new rows.new events.now }
    ensures sweep_answers { SweepAnswers (fits subs.old d (length rows.old) (length events.now) && (leb clock (2 ^ 62) && leb most 512)) (sweep_expired clock most) d subs.old rows.old (told d result) }
{
    let by = d.due(clock);
    if !state::fits(subs, d, rows.len(), events.len()) {
        return Err(Refusal::NotSound);
    }
    if entry::CLOCK_MOST < clock {
        return Err(Refusal::NotSound);
    }
    if state::ROWS < most {
        return Err(Refusal::NotSound);
    }
    let start = Swept {
        used: d.used,
        length: d.waiting,
        gone: 0,
    };
    let w = sweep_list(rows, d.first_waiting(), start, most, by);
    let left = shorter(d, w.used, w.length);
    let r = sweep_subs(subs, rows, left, w.gone, most, by);
    Ok(finished(shorter(left, r.used, left.waiting), r.gone, clock))
}

// With no row in use.
fn emptied(d: Head) -> Head
    ensures { result ≡ emptied_head d }
{
    Head {
        waiting: 0,
        reserved: 0,
        used: 0,
        ..d
    }
}

// Drops every entry, and answers how many, browsers' snapshots apart. Where the numbers do not fit the tables, refused with 2.
pub fn clear(subs: &mut [SubRow], rows: &[Row], events: &[Event], d: Head) -> Answer
    ensures leaves_if { LeavesIf (fits subs.old d (length rows.now) (length events.now)) (Room d (told d result).head) clear_out d (told d result).head subs.old rows.now events.now subs.new rows.now events.now }
    ensures sweep_answers { SweepAnswers (fits subs.old d (length rows.now) (length events.now)) clear d subs.old rows.now (told d result) }
{
    if !state::fits(subs, d, rows.len(), events.len()) {
        return Err(Refusal::NotSound);
    }
    let held = consumers::held_rows(subs, d.consumers, d.queue);
    let total = d.waiting + d.reserved + held;
    consumers::clear(subs, d.consumers);
    Ok(Answered {
        answer: total as u64,
        head: emptied(d),
    })
}
