// The public calls and queries for programs in C or Rust. Nothing checks include/destination.h against these: examples/destination does.
ghost use Rattle.std.specs.Prelude.{◌≡◌, length};
ghost use Rattle.definition.specs.Calls.{discarding, missing};
ghost use Rattle.definition.specs.Queries.{of_kind, consumers, expirations, messages, bytes, idle, sequence};
ghost use Rattle.definition.specs.Layout.{buffer_step, buffer_call, buffer_query, buffer_counters, buffer_page, lent};
ghost use Rattle.queries.specs.Answers.{as_asked, as_counted};
ghost use Rattle.queries.specs.Pages.{as_paged, written};
ghost use Rattle.engine.specs.Called.{Called};
ghost use Rattle.engine.specs.Batch.{buffer_batch, Batched};
ghost use Rattle.report.specs.Report.{noted_step, NotedCall};
ghost use Rattle.destination.specs.Exported.{as_counters};

use calls::Call;
use consumers::SubRow;
use engine::{Done, Outcome};
use entry::Row;
use queries::{Asked, PageLine, Paged};
use report::{Block, Noted};
use state::Event;

// ---- how much each buffer must hold

#[unsafe(no_mangle)]
pub extern "C" fn destination_head_words() -> usize
    ensures { result ≡ 8347 }
{
    state::HEAD_WORDS
}

#[unsafe(no_mangle)]
pub extern "C" fn destination_consumers() -> usize
    ensures { result ≡ 32 }
{
    state::CONSUMERS
}

#[unsafe(no_mangle)]
pub extern "C" fn destination_rows() -> usize
    ensures { result ≡ 512 }
{
    state::ROWS
}

#[unsafe(no_mangle)]
pub extern "C" fn destination_events() -> usize
    ensures { result ≡ 545 }
{
    state::EVENTS
}

#[unsafe(no_mangle)]
pub extern "C" fn destination_page_lines() -> usize
    ensures { result ≡ 50 }
{
    queries::PAGE_MAX
}

#[unsafe(no_mangle)]
pub extern "C" fn destination_held_blocks() -> usize
    ensures { result ≡ 512 }
{
    report::HELD_MOST
}

#[unsafe(no_mangle)]
pub extern "C" fn destination_left_blocks() -> usize
    ensures { result ≡ 513 }
{
    report::LEFT_MOST
}

// ---- calls

// A call of document 01, by its code and its eight words.
#[unsafe(no_mangle)]
pub extern "C" fn destination_call(
    head: &mut [u64],
    subs: &mut [SubRow],
    rows: &mut [Row],
    events: &mut [Event],
    c: Call,
) -> Outcome
    ensures { Called (buffer_step (lent head.old subs.old rows.old) (length events.old) c.code c.words) (lent head.old subs.old rows.old) (lent head.new subs.new rows.new) events.old events.new result }
{
    engine::call(head, subs, rows, events, c)
}

// A call with the account of a queue's blocks: held has the n that the destination holds, left gets those that leave.
#[unsafe(no_mangle)]
pub extern "C" fn destination_call_noted(
    head: &mut [u64],
    subs: &mut [SubRow],
    rows: &mut [Row],
    events: &mut [Event],
    held: &mut [Block],
    n: usize,
    left: &mut [Block],
    c: Call,
) -> Noted
    ensures { NotedCall (noted_step (lent head.old subs.old rows.old) (length events.old) n (length held.old) (length left.old) c) c n (lent head.old subs.old rows.old) (lent head.new subs.new rows.new) events.old events.new held.old held.new left.old left.new result }
{
    report::call(head, subs, rows, events, held, n, left, c)
}

// `Dest::add_discarded`.
#[unsafe(no_mangle)]
pub extern "C" fn destination_add_discarded(
    head: &mut [u64],
    subs: &mut [SubRow],
    rows: &mut [Row],
    events: &mut [Event],
) -> Outcome
    ensures { Called (buffer_call (lent head.old subs.old rows.old) (length events.old) discarding) (lent head.old subs.old rows.old) (lent head.new subs.new rows.new) events.old events.new result }
{
    uncoded::add_discarded(head, subs, rows, events)
}

// `Dest::expired_before_storing`.
#[unsafe(no_mangle)]
pub extern "C" fn destination_expired_before_storing(
    head: &mut [u64],
    subs: &mut [SubRow],
    rows: &mut [Row],
    events: &mut [Event],
) -> Outcome
    ensures { Called (buffer_call (lent head.old subs.old rows.old) (length events.old) missing) (lent head.old subs.old rows.old) (lent head.new subs.new rows.new) events.old events.new result }
{
    uncoded::expired_before_storing(head, subs, rows, events)
}

// Many calls, nine words each, one after another, with one test of the state.
#[unsafe(no_mangle)]
pub extern "C" fn destination_calls(
    head: &mut [u64],
    subs: &mut [SubRow],
    rows: &mut [Row],
    events: &mut [Event],
    words: &[[u64; 9]],
    outcomes: &mut [[u64; 3]],
) -> Done
    ensures { Batched (buffer_batch (lent head.old subs.old rows.old) (length events.old) (length outcomes.old) words.now) (lent head.old subs.old rows.old) (lent head.new subs.new rows.new) events.old events.new outcomes.old outcomes.new result }
{
    engine::calls(head, subs, rows, events, words, outcomes)
}

// ---- queries

// 1 for a queue, 0 for a topic.
#[unsafe(no_mangle)]
pub extern "C" fn destination_is_queue(head: &[u64], subs: &[SubRow], rows: &[Row]) -> Asked
    ensures { result ≡ as_asked (buffer_query (lent head.now subs.now rows.now) of_kind) }
{
    queries::is_queue(head, subs, rows)
}

// 1 if there are consumers.
#[unsafe(no_mangle)]
pub extern "C" fn destination_has_consumers(head: &[u64], subs: &[SubRow], rows: &[Row]) -> Asked
    ensures { result ≡ as_asked (buffer_query (lent head.now subs.now rows.now) consumers) }
{
    queries::has_consumers(head, subs, rows)
}

// 1 if an entry that waits, on the queue or for a consumer, has an expiration.
#[unsafe(no_mangle)]
pub extern "C" fn destination_has_expiring(head: &[u64], subs: &[SubRow], rows: &[Row]) -> Asked
    ensures { result ≡ as_asked (buffer_query (lent head.now subs.now rows.now) expirations) }
{
    queries::has_expiring(head, subs, rows)
}

// Entries that wait or are in flight.
#[unsafe(no_mangle)]
pub extern "C" fn destination_message_count(head: &[u64], subs: &[SubRow], rows: &[Row]) -> Asked
    ensures { result ≡ as_asked (buffer_query (lent head.now subs.now rows.now) messages) }
{
    queries::message_count(head, subs, rows)
}

// The bytes held: each entry once, from its enqueue until its last copy goes (document 02 §3).
#[unsafe(no_mangle)]
pub extern "C" fn destination_bytes_held(head: &[u64], subs: &[SubRow], rows: &[Row]) -> Asked
    ensures { result ≡ as_asked (buffer_query (lent head.now subs.now rows.now) bytes) }
{
    queries::bytes_held(head, subs, rows)
}

// 1 if the destination has been empty and unused for at least so many seconds.
#[unsafe(no_mangle)]
pub extern "C" fn destination_idle_for(
    head: &[u64],
    subs: &[SubRow],
    rows: &[Row],
    clock: u64,
    secs: u64,
) -> Asked
    ensures { result ≡ as_asked (buffer_query (lent head.now subs.now rows.now) (idle clock secs)) }
{
    queries::idle_for(head, subs, rows, clock, secs)
}

// The sequence number of the waiting entry at a place, 0 for none.
#[unsafe(no_mangle)]
pub extern "C" fn destination_seq_at(
    head: &[u64],
    subs: &[SubRow],
    rows: &[Row],
    index: u64,
) -> Asked
    ensures { result ≡ as_asked (buffer_query (lent head.now subs.now rows.now) (sequence index)) }
{
    queries::seq_at(head, subs, rows, index)
}

// The refusal (0: answered) and the five counters.
#[repr(C)]
#[derive(Clone, Copy)]
pub struct Counters {
    pub refusal: u64,
    pub enqueued: u64,
    pub dequeued: u64,
    pub expired: u64,
    pub discarded: u64,
    pub dispatched: u64,
}

#[unsafe(no_mangle)]
pub extern "C" fn destination_counters(head: &[u64], subs: &[SubRow], rows: &[Row]) -> Counters
    ensures { result ≡ as_counters (as_counted (buffer_counters (lent head.now subs.now rows.now))) }
{
    let c = queries::counters(head, subs, rows);
    let s = c.stats;
    Counters {
        refusal: c.refusal,
        enqueued: s.enqueued,
        dequeued: s.dequeued,
        expired: s.expired,
        discarded: s.discarded,
        dispatched: s.dispatched,
    }
}

// A page of the entries that wait, into a lent list: how many wait, and how many lines were written. The lines past them stay, and beside a refusal
// nothing is written. `queries::plan` says which rows are listed, `queries::line_at` makes a line of a row.
#[unsafe(no_mangle)]
pub extern "C" fn destination_page(
    head: &[u64],
    subs: &[SubRow],
    rows: &[Row],
    lines: &mut [PageLine],
    offset: u64,
    limit: u64,
) -> Paged
    ensures { (result ≡ as_paged (buffer_page (lent head.now subs.now rows.now) (length lines.old) offset limit))
        × (lines.new ≡ written (buffer_page (lent head.now subs.now rows.now) (length lines.old) offset limit).lines lines.old) }
{
    let p = queries::plan(head, subs, rows, lines.len(), offset, limit);
    for i in 0..p.count {
        lines[i] = queries::line_at(rows, p.from, i);
    }
    Paged {
        refusal: p.refusal,
        total: p.total,
        count: p.count,
    }
}
