// The destination's own numbers by value (`State` of destination.rs), their words in the head, and the events that a call sends.
#![tactic(auto)]

ghost use Rattle.std.specs.Prelude.{◌≡◌, ◌+◌, ◌-◌, min, length, set};
ghost use Rattle.model.specs.Model.{id_of};
ghost use Rattle.stats.specs.Counted.{more, with_enqueued, with_dequeued_by, with_expired_by, with_discarded_by, with_dispatched};
ghost use Rattle.definition.specs.Types.{letter, message, null};
ghost use Rattle.definition.specs.Layout.{event_words};
ghost use Rattle.state.specs.State.{kind_word, loaded, stored_head, pushed, touched, not_idle, due_by, with_used_calls, with_counters, first_waiting, first_reserved, rows_free};
ghost use Rattle.state.specs.Fits.{tables_fit, numbers_fit, counters_fit, fits};

use consumers::SubRow;
use model::Refusal;
use stats::Stats;

// The most rows: a table of them stands beside those of consumers and events.
pub use entry::ROWS;

// The head's words.
pub const HEAD_WORDS: usize = 8347;

// The last two of them: the allowance for slow clocks, and the share of each producer connection.
const ALLOWANCE: usize = 8345;

const SHARE: usize = 8346;

// The tables of consumers and events.
pub const CONSUMERS: usize = 32;

pub const EVENTS: usize = 545;

// No counter of a sound state is above 65,536 * 2^40 + 1; up to 2^62 they can be counted on.
const COUNTER_MOST: u64 = 4611686018427387904;

pub type Event = [u64; 6];

// An event's kinds.
const LETTER: u64 = 1;

const MESSAGE: u64 = 2;

const NULL: u64 = 3;

// What a call carries: the head's first words and its last two, the rows in use, and the events sent so far.
// `idle` and `idle_since` are two fields, no Option, as `stored_head` writes both words.
#[derive(Clone, Copy)]
pub struct Head {
    pub topic_limit: u64,
    pub call_limit: u64,
    pub allowance: u64,
    pub share: u64,
    pub calls_used: u64,
    pub turn: usize,
    pub idle_since: u64,
    pub stats: Stats,
    pub consumers: usize,
    pub producers: usize,
    pub audits: usize,
    pub reserved: usize,
    pub waiting: usize,
    pub used: usize,
    pub events: usize,
    pub queue: bool,
    pub idle: bool,
}

impl Head {
    // What a short head is taken for.
    pub const NONE: Head = Head {
        topic_limit: 0,
        call_limit: 0,
        allowance: 0,
        share: 0,
        calls_used: 0,
        turn: 0,
        idle_since: 0,
        stats: Stats {
            enqueued: 0,
            dequeued: 0,
            expired: 0,
            discarded: 0,
            dispatched: 0,
        },
        consumers: 0,
        producers: 0,
        audits: 0,
        reserved: 0,
        waiting: 0,
        used: 0,
        events: 0,
        queue: true,
        idle: false,
    };

    // `touch_idle`: the mark is set where nothing is left and none is set; else it goes.
    pub fn touch_idle(self, now: u64) -> Head
        ensures { result ≡ touched now self }
    {
        if self.waiting != 0 || self.consumers != 0 || self.producers != 0 {
            return self.not_idle();
        }
        if self.idle {
            return self;
        }
        Head {
            idle: true,
            idle_since: now,
            ..self
        }
    }

    // `idle_since = None`.
    pub fn not_idle(self) -> Head
        ensures { result ≡ not_idle self }
    {
        Head {
            idle: false,
            idle_since: 0,
            ..self
        }
    }

    // The clock that entries expire by: less the allowance, or 0 where that is below 0.
    pub fn due(self, clock: u64) -> u64
        ensures { result ≡ due_by clock self }
    {
        clock.saturating_sub(self.allowance)
    }

    // One call more.
    pub fn counted(self) -> Head
        ensures { result ≡ with_used_calls (more self.calls_used) self }
    {
        Head {
            calls_used: stats::more_of(self.calls_used),
            ..self
        }
    }

    // A function for each counter, as `Stats` has a method for each.
    pub fn count_enqueued(mut self) -> Head
        ensures { result ≡ with_counters (with_enqueued self.stats) self }
    {
        self.stats.count_enqueued();
        self
    }

    pub fn count_dequeued(mut self, k: u64) -> Head
        ensures { result ≡ with_counters (with_dequeued_by self.stats k) self }
    {
        self.stats.count_dequeued_by(k);
        self
    }

    pub fn count_expired(mut self, k: u64) -> Head
        ensures { result ≡ with_counters (with_expired_by self.stats k) self }
    {
        self.stats.count_expired_by(k);
        self
    }

    pub fn count_discarded(mut self, k: u64) -> Head
        ensures { result ≡ with_counters (with_discarded_by self.stats k) self }
    {
        self.stats.count_discarded_by(k);
        self
    }

    pub fn count_dispatched(mut self) -> Head
        ensures { result ≡ with_counters (with_dispatched self.stats) self }
    {
        self.stats.count_dispatched();
        self
    }

    // Where the waiting rows begin.
    pub fn first_waiting(self) -> usize
        ensures { result ≡ first_waiting self }
    {
        self.used.saturating_sub(self.waiting)
    }

    // Where the reserved rows begin.
    pub fn first_reserved(self) -> usize
        ensures { result ≡ first_reserved self }
    {
        self.first_waiting().saturating_sub(self.reserved)
    }

    pub fn free_rows(self) -> usize
        ensures { result ≡ rows_free self }
    {
        ROWS.saturating_sub(self.used)
    }
}

// 0 for a queue, 1 for a topic.
fn kind_word(queue: bool) -> u64
    ensures { result ≡ kind_word queue }
{
    if queue { 0 } else { 1 }
}

// What a call that is done leaves: its answer, and the numbers.
#[derive(Clone, Copy)]
pub struct Answered {
    pub answer: u64,
    pub head: Head,
}

// What a call leaves: a refused one nothing but why.
pub type Answer = Result<Answered, Refusal>;

// ---- the head

// The rows in use, or 513 for more than 512.
fn used_of(base: usize, reserved: u64, waiting: u64) -> usize
    ensures { result ≡ min 513 (base + (reserved + waiting)) }
{
    let used = (base as u64)
        .saturating_add(reserved)
        .saturating_add(waiting);
    used.min(ROWS as u64 + 1) as usize
}

// The numbers of a head and a table of consumers.
pub fn load(head: &[u64], subs: &[SubRow]) -> Head
    ensures { result ≡ loaded head.now subs.now }
{
    if head.len() < HEAD_WORDS {
        return Head::NONE;
    }
    let n = head[12] as usize;
    let base = consumers::base_of(subs, n);
    let used = used_of(base, head[15], head[16]);
    let stats = Stats {
        enqueued: head[7],
        dequeued: head[8],
        expired: head[9],
        discarded: head[10],
        dispatched: head[11],
    };
    Head {
        topic_limit: head[1],
        call_limit: head[2],
        allowance: head[ALLOWANCE],
        share: head[SHARE],
        calls_used: head[3],
        turn: head[4] as usize,
        idle_since: head[6],
        stats,
        consumers: n,
        producers: head[13] as usize,
        audits: head[14] as usize,
        reserved: head[15] as usize,
        waiting: head[16] as usize,
        used,
        events: 0,
        queue: head[0] == 0,
        idle: head[5] != 0,
    }
}

// Writes the numbers to the head; to a short one, nothing.
pub fn store(head: &mut [u64], d: Head)
    ensures { head.new ≡ stored_head d head.old }
{
    if head.len() < HEAD_WORDS {
        return;
    }
    let first = [
        kind_word(d.queue),
        d.topic_limit,
        d.call_limit,
        d.calls_used,
        d.turn as u64,
        d.idle as u64,
        d.idle_since,
        d.stats.enqueued,
        d.stats.dequeued,
        d.stats.expired,
        d.stats.discarded,
        d.stats.dispatched,
        d.consumers as u64,
        d.producers as u64,
        d.audits as u64,
        d.reserved as u64,
        d.waiting as u64,
    ];
    head[..17].copy_from_slice(&first);
    head[ALLOWANCE] = d.allowance;
    head[SHARE] = d.share;
}

// ---- events

// Appends an event; to a full list, nothing.
fn push(events: &mut [Event], mut d: Head, e: Event) -> Head
    ensures { (result ≡ pushed d (length events.old)) × (events.new ≡ set events.old d.events e) }
{
    let at = d.events;
    if at < events.len() {
        events[at] = e;
        d.events = at + 1;
    }
    d
}

// A dead letter; the cause is the client's, or the default.
pub fn push_letter(events: &mut [Event], d: Head, seq: u64, redelivery: i32, cause: bool) -> Head
    ensures { (result ≡ pushed d (length events.old)) × (events.new ≡ set events.old d.events (event_words (letter seq redelivery cause))) }
{
    let r = words::word_of_int(redelivery);
    push(events, d, [LETTER, seq, r, cause as u64, 0, 0])
}

// A message for the consumer whose identifier has these words: three parameters, as a row and an event hold three words.
pub fn push_message(
    events: &mut [Event],
    d: Head,
    conn: u64,
    session: u64,
    value: u64,
    seq: u64,
    redelivery: i32,
) -> Head
    ensures { (result ≡ pushed d (length events.old)) × (events.new ≡ set events.old d.events (event_words (message (id_of conn session value) seq redelivery))) }
{
    let r = words::word_of_int(redelivery);
    push(events, d, [MESSAGE, conn, session, value, seq, r])
}

// A null for the consumer whose identifier has these words.
pub fn push_null(events: &mut [Event], d: Head, conn: u64, session: u64, value: u64) -> Head
    ensures { (result ≡ pushed d (length events.old)) × (events.new ≡ set events.old d.events (event_words (null (id_of conn session value)))) }
{
    push(events, d, [NULL, conn, session, value, 0, 0])
}

// ---- what every index of a call goes by

// The tables are long enough.
fn tables_fit(subs: usize, rows: usize, events: usize) -> bool
    ensures { result ≡ tables_fit subs rows events }
{
    CONSUMERS <= subs && ROWS <= rows && EVENTS <= events
}

// The counts are within the tables.
fn numbers_fit(d: Head) -> bool
    ensures { result ≡ numbers_fit d }
{
    d.consumers <= CONSUMERS
        && d.turn <= CONSUMERS
        && d.reserved <= ROWS
        && d.waiting <= ROWS
        && d.used <= ROWS
        && d.events <= ROWS - d.used
        && d.calls_used <= COUNTER_MOST
}

// The counters can rise.
fn counters_fit(s: Stats) -> bool
    ensures { result ≡ counters_fit s }
{
    s.enqueued <= COUNTER_MOST
        && s.dequeued <= COUNTER_MOST
        && s.expired <= COUNTER_MOST
        && s.discarded <= COUNTER_MOST
        && s.dispatched <= COUNTER_MOST
}

// Whether the numbers fit the tables and the event list.
pub fn fits(subs: &[SubRow], d: Head, rows: usize, events: usize) -> bool
    ensures { result ≡ fits subs.now d rows events }
{
    if !tables_fit(subs.len(), rows, events) {
        return false;
    }
    if !numbers_fit(d) {
        return false;
    }
    let s = d.stats;
    if !counters_fit(s) {
        return false;
    }
    let base = consumers::base_of(subs, d.consumers);
    if used_of(base, d.reserved as u64, d.waiting as u64) != d.used {
        return false;
    }
    consumers::fit(subs, d.consumers)
}
