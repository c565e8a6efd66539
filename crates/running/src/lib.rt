// What a run of a call file prints: the calls of its blocks on a lent state, each with its line and those of its events, and at the end the counters. The
// file comes in pieces, cut anywhere; reading and writing are the caller's.
#![tactic(auto)]

ghost use Rattle.std.specs.Prelude.{◌≡◌, ◌&&◌, ◌+◌, ◌≤◌, eqb, ltb, leb, length, get_or};
ghost use Rattle.definition.specs.Layout.{stats_at, lengths_of, buffer_step, lent};
ghost use Rattle.engine.specs.Called.{Called};
ghost use Rattle.callfile.specs.Placed.{Puts, PutLine};
ghost use Rattle.running.specs.Running.{call_lines, outcome_of, lent_by, block_calls, each_call, each_of_block, run_call, Runs};
ghost use Rattle.running.specs.Files.{TakesPiece, unread_as, begun_as, is_unfinished, rest_line, last_lines};

use callfile::{Reading, Took};
use calls::Call;
use consumers::SubRow;
use entry::Row;
use state::Event;
use stats::Stats;

// The bytes that no block's lines exceed: 7 calls, each with its line and 545 of events, 128 bytes a line.
pub const TEXT: usize = 489216;

// And the last lines, two of them.
const LAST: usize = 256;

// The index of the next call, how many bytes of lines were written, and whether reading goes on.
#[derive(Clone, Copy)]
pub struct Ran {
    pub index: u64,
    pub written: usize,
    pub goes_on: bool,
}

// A call, and its lines from `at` on; the place after them.
fn run_call(
    head: &mut [u64],
    subs: &mut [SubRow],
    rows: &mut [Row],
    events: &mut [Event],
    c: Call,
    index: u64,
    out: &mut [u8],
    at: usize,
) -> usize
    requires { at + 69888 ≤ length out.old }
    ensures called { Called (buffer_step (lent head.old subs.old rows.old) (length events.old) c.code c.words) (lent head.old subs.old rows.old) (lent head.new subs.new rows.new) events.old events.new (outcome_of (buffer_step (lent head.old subs.old rows.old) (length events.old) c.code c.words)) }
    ensures puts { Puts (call_lines index (buffer_step (lent head.old subs.old rows.old) (length events.old) c.code c.words)) at out.old result out.new }
{
    let r = engine::call(head, subs, rows, events, c);
    let next = callfile::put_call(out, at, index, r.refusal, r.answer);
    callfile::put_events(out, next, events, r.events)
}

// The calls of a block, and their lines.
fn run_calls(
    head: &mut [u64],
    subs: &mut [SubRow],
    rows: &mut [Row],
    events: &mut [Event],
    block: &[u8],
    count: usize,
    from: u64,
    out: &mut [u8],
) -> Ran
    requires { (count ≤ 7) × (489216 ≤ length out.old) }
    ensures { Runs (each_call (run_call (lengths_of (lent head.old subs.old rows.old) (length events.old))) (block_calls 0 count block.now) from (lent_by (lent head.old subs.old rows.old) events.old)) (lent head.old subs.old rows.old) (lent head.new subs.new rows.new) events.old events.new out.old out.new result }
{
    let mut index = from;
    let mut at = 0;
    for k in 0..count {
        let c = callfile::call_at(block, k);
        at = run_call(head, subs, rows, events, c, index, out, at);
        index = stats::more_of(index);
    }
    Ran {
        index,
        written: at,
        goes_on: true,
    }
}

// Runs the calls of a block, and leaves their lines in `out`; `index` is the first call's, and `number` the block's. A bad block has its line alone,
// and ends the reading.
fn run_block(
    head: &mut [u64],
    subs: &mut [SubRow],
    rows: &mut [Row],
    events: &mut [Event],
    block: &[u8],
    index: u64,
    number: u64,
    out: &mut [u8],
) -> Ran
    requires { 489216 ≤ length out.old }
    ensures { Runs (each_of_block (run_call (lengths_of (lent head.old subs.old rows.old) (length events.old))) block.now index number (lent_by (lent head.old subs.old rows.old) events.old)) (lent head.old subs.old rows.old) (lent head.new subs.new rows.new) events.old events.new out.old out.new result }
{
    let count = callfile::calls_in(block, block.len());
    if count == 0 {
        let written = callfile::put_bad(out, 0, number);
        return Ran {
            index,
            written,
            goes_on: false,
        };
    }
    run_calls(head, subs, rows, events, block, count, index, out)
}

// ---- a file in pieces

// Whether a block has its 512 places and is not whole yet, and the lines of one, at most so many bytes, do not lack room.
pub fn roomy(at: Reading, block: usize, most: usize, out: usize) -> bool
    ensures { result ≡ (eqb block 512 && (ltb at.have 512 && leb most out)) }
{
    if block != callfile::BLOCK {
        return false;
    }
    if callfile::BLOCK <= at.have {
        return false;
    }
    most <= out
}

// Nothing of a piece is taken, and reading has ended.
pub fn unread(at: Reading, from: usize, len: usize) -> Took
    ensures { result ≡ unread_as at from len }
{
    Took {
        reading: Reading {
            goes_on: false,
            ..at
        },
        next: from.max(len),
        written: 0,
    }
}

// A block has so many bytes now, and is not whole yet.
pub fn begun(at: Reading, have: usize, next: usize) -> Took
    ensures { result ≡ begun_as at have next }
{
    Took {
        reading: Reading {
            have,
            goes_on: true,
            ..at
        },
        next,
        written: 0,
    }
}

// Takes bytes of a piece, from a place of it on, into the block, and runs it once it is whole, with its lines in `out`; where that place is the
// piece's end, the piece is used up. In a block that has not 512 places or a text shorter than `TEXT` nothing happens, and reading ends.
pub fn run_piece(
    head: &mut [u64],
    subs: &mut [SubRow],
    rows: &mut [Row],
    events: &mut [Event],
    block: &mut [u8],
    at: Reading,
    piece: &[u8],
    from: usize,
    out: &mut [u8],
) -> Took
    ensures { TakesPiece at piece.now from (lent head.old subs.old rows.old) (lent head.new subs.new rows.new) events.old events.new block.old block.new out.old out.new result }
{
    if !roomy(at, block.len(), TEXT, out.len()) {
        return unread(at, from, piece.len());
    }
    if !at.goes_on {
        return unread(at, from, piece.len());
    }
    let n = callfile::fill(block, at.have, piece, from);
    let have = at.have + n;
    let next = from + n;
    if have < callfile::BLOCK {
        return begun(at, have, next);
    }
    let ran = run_block(head, subs, rows, events, block, at.index, at.number, out);
    let reading = Reading {
        have: 0,
        number: stats::more_of(at.number),
        index: ran.index,
        goes_on: ran.goes_on,
    };
    Took {
        reading,
        next,
        written: ran.written,
    }
}

// A word of the head; 0 past its end.
pub fn word(head: &[u64], k: usize) -> u64
    ensures { result ≡ get_or head.now k 0 }
{
    match head.get(k) {
        Some(w) => *w,
        None => 0,
    }
}

// The counters.
pub fn counters(head: &[u64]) -> Stats
    ensures { result ≡ stats_at head.now }
{
    Stats {
        enqueued: word(head, 7),
        dequeued: word(head, 8),
        expired: word(head, 9),
        discarded: word(head, 10),
        dispatched: word(head, 11),
    }
}

// Whether a block was begun, or could not be read, at the end.
pub fn unfinished(at: Reading, failed: bool) -> bool
    ensures { result ≡ is_unfinished at failed }
{
    if !at.goes_on {
        return false;
    }
    if failed {
        return true;
    }
    at.have != 0
}

// Its line, at the beginning.
pub fn rest_line(at: Reading, failed: bool, out: &mut [u8]) -> usize
    ensures { PutLine 128 (rest_line at failed) 0 out.old result out.new }
{
    if !unfinished(at, failed) {
        return 0;
    }
    callfile::put_bad(out, 0, at.number)
}

// The last lines, once no piece is left, a read has failed or reading has ended: that of a block that is not whole, and the counters. In a text
// shorter than both nothing is written.
pub fn run_end(head: &[u64], at: Reading, failed: bool, out: &mut [u8]) -> usize
    ensures { PutLine 256 (last_lines at failed (stats_at head.now)) 0 out.old result out.new }
{
    if out.len() < LAST {
        return 0;
    }
    let from = rest_line(at, failed, out);
    let s = counters(head);
    callfile::put_counters(out, from, s)
}
