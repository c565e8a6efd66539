// What a report of a call file prints: the calls of its blocks on a lent state, each with its line, what it brought, what it sent and the blocks that left, and at the end the blocks
// that are held, the totals and the counters. The file comes in pieces, cut anywhere; reading and writing are the caller's.
#![tactic(auto)]

ghost use Rattle.std.specs.Prelude.{◌≡◌, ◌&&◌, ◌+◌, ◌≤◌, eqb, ltb, leb, length, take};
ghost use Rattle.definition.specs.Layout.{stats_at, lengths_of, buffer_step, lent};
ghost use Rattle.callfile.specs.Placed.{Puts, PutLine};
ghost use Rattle.running.specs.Running.{block_calls, each_call, each_of_block};
ghost use Rattle.reporting.specs.Reporting.{ways_of, turn_text, report_call, noting_by, CallTold, Tells};
ghost use Rattle.reporting.specs.ReportFiles.{ReportsPiece, tail_lines, last_report};

use callfile::{Reading, Took};
use calls::Call;
use consumers::SubRow;
use entry::Row;
use report::{Block, Noted};
use reportlines::{Gone, Ways};
use running::Ran;
use state::Event;
use stats::Stats;

// The bytes that no block's lines exceed: 7 calls, each with its line, one of what it brought, 545 of events and 513 of blocks, 128 bytes a line.
pub const TEXT: usize = 949760;

// And the last lines.
pub const LAST: usize = 33280;

// How many places of the list of blocks are in use, and how many blocks are gone since the latest accepted open.
#[derive(Clone, Copy)]
pub struct Kept {
    pub count: usize,
    pub gone: Gone,
}

// The place after a call's lines, and what is kept.
#[derive(Clone, Copy)]
struct Noticed {
    next: usize,
    kept: Kept,
}

// What ran, and what is kept.
#[derive(Clone, Copy)]
struct Reported {
    ran: Ran,
    kept: Kept,
}

// After a step on a piece: what was taken, and what is kept.
#[derive(Clone, Copy)]
pub struct Heard {
    pub took: Took,
    pub kept: Kept,
}

// ---- a call

// How many of the first n blocks are held in each way.
pub fn ways(held: &[Block], n: usize) -> Ways
    ensures { result ≡ ways_of (take n held.now) }
{
    Ways {
        waiting: report::total(held, n, report::WAITING) as u64,
        flying: report::total(held, n, report::IN_FLIGHT) as u64,
        reserved: report::total(held, n, report::RESERVED) as u64,
    }
}

// The lines of a call from `at` on: its own, what it brought, what it sent, what left.
fn put_lines(
    out: &mut [u8],
    at: usize,
    queue: bool,
    events: &[Event],
    held: &[Block],
    left: &[Block],
    index: u64,
    c: Call,
    r: Noted,
) -> usize
    requires { (at + 135680 ≤ length out.old) × (r.events ≤ 545) × (r.left ≤ 513) }
    ensures { Puts (turn_text index c r.refusal queue (take r.held held.now) (take r.events events.now) (take r.left left.now)) at out.old result out.new × (result ≤ at + 102848) }
{
    let words = c.words;
    let w = ways(held, r.held);
    let a = reportlines::put_turn(out, at, index, c.code, r.refusal, w);
    let b = reportlines::put_brought(out, a, r.refusal, c.code, words, queue);
    let d = callfile::put_events(out, b, events, r.events);
    reportlines::put_blocks(out, d, left, r.left)
}

// A call, its lines from `at` on, and what is kept.
fn report_call(
    head: &mut [u64],
    subs: &mut [SubRow],
    rows: &mut [Row],
    events: &mut [Event],
    held: &mut [Block],
    left: &mut [Block],
    kept: Kept,
    c: Call,
    index: u64,
    out: &mut [u8],
    at: usize,
) -> Noticed
    requires { (at + 135680 ≤ length out.old) × (512 ≤ length held.old) × (513 ≤ length left.old) × (kept.count ≤ 512) }
    ensures { CallTold (buffer_step (lent head.old subs.old rows.old) (length events.old) c.code c.words) index c (lent head.old subs.old rows.old) (lent head.new subs.new rows.new) events.old events.new held.old held.new kept at out.old out.new result }
{
    let r = report::call(head, subs, rows, events, held, kept.count, left, c);
    let queue = running::word(head, 0) == 0;
    let next = put_lines(out, at, queue, events, held, left, index, c, r);
    let anew = (c.code == Call::OPEN) & (r.refusal == 0);
    let gone = reportlines::gone_after(kept.gone, left, r.left, anew);
    let kept = Kept {
        count: r.held,
        gone,
    };
    Noticed { next, kept }
}

// The calls of a block, and their lines.
fn report_calls(
    head: &mut [u64],
    subs: &mut [SubRow],
    rows: &mut [Row],
    events: &mut [Event],
    held: &mut [Block],
    left: &mut [Block],
    start: Kept,
    block: &[u8],
    count: usize,
    from: u64,
    out: &mut [u8],
) -> Reported
    requires { (count ≤ 7) × (949760 ≤ length out.old) × (512 ≤ length held.old) × (513 ≤ length left.old) × (start.count ≤ 512) }
    ensures { Tells (each_call (report_call (lengths_of (lent head.old subs.old rows.old) (length events.old))) (block_calls 0 count block.now) from (noting_by (lent head.old subs.old rows.old) events.old held.old start)) (lent head.old subs.old rows.old) (lent head.new subs.new rows.new) events.old events.new held.old held.new out.old out.new result }
{
    let mut kept = start;
    let mut index = from;
    let mut at = 0;
    for k in 0..count {
        let c = callfile::call_at(block, k);
        let t = report_call(
            head, subs, rows, events, held, left, kept, c, index, out, at,
        );
        kept = t.kept;
        at = t.next;
        index = stats::more_of(index);
    }
    let ran = Ran {
        index,
        written: at,
        goes_on: true,
    };
    Reported { ran, kept }
}

// Runs the calls of a block, and leaves their lines in `out`. A bad block has its line alone, and ends the reading.
fn report_block(
    head: &mut [u64],
    subs: &mut [SubRow],
    rows: &mut [Row],
    events: &mut [Event],
    held: &mut [Block],
    kept: Kept,
    block: &[u8],
    index: u64,
    number: u64,
    out: &mut [u8],
) -> Reported
    requires { (949760 ≤ length out.old) × (512 ≤ length held.old) × (kept.count ≤ 512) }
    ensures { Tells (each_of_block (report_call (lengths_of (lent head.old subs.old rows.old) (length events.old))) block.now index number (noting_by (lent head.old subs.old rows.old) events.old held.old kept)) (lent head.old subs.old rows.old) (lent head.new subs.new rows.new) events.old events.new held.old held.new out.old out.new result }
{
    let count = callfile::calls_in(block, block.len());
    if count == 0 {
        let written = callfile::put_bad(out, 0, number);
        let ran = Ran {
            index,
            written,
            goes_on: false,
        };
        return Reported { ran, kept };
    }
    let mut left = [[0u64; 3]; 513];
    report_calls(
        head, subs, rows, events, held, &mut left, kept, block, count, index, out,
    )
}

// ---- a file in pieces

// Whether `running::roomy` says so, and a list of so many places has 512, of which at most 512 are in use.
fn roomy(at: Reading, block: usize, out: usize, held: usize, count: usize) -> bool
    ensures { result ≡ ((eqb block 512 && (ltb at.have 512 && leb 949760 out)) && (leb 512 held && leb count 512)) }
{
    if !running::roomy(at, block, TEXT, out) {
        return false;
    }
    if held < report::HELD_MOST {
        return false;
    }
    count <= report::HELD_MOST
}

// Takes bytes of a piece, from a place of it on, into the block, and runs it once it is whole, with its lines in `out`; where that place is the piece's end, the piece is used up. In a
// block that has not 512 places, a text shorter than `TEXT`, a list of blocks under 512 or with more in use nothing happens, and reading ends.
pub fn report_piece(
    head: &mut [u64],
    subs: &mut [SubRow],
    rows: &mut [Row],
    events: &mut [Event],
    held: &mut [Block],
    kept: Kept,
    block: &mut [u8],
    at: Reading,
    piece: &[u8],
    from: usize,
    out: &mut [u8],
) -> Heard
    ensures { ReportsPiece at piece.now from (lent head.old subs.old rows.old) (lent head.new subs.new rows.new) events.old events.new held.old held.new kept block.old block.new out.old out.new result }
{
    if !roomy(at, block.len(), out.len(), held.len(), kept.count) {
        let took = running::unread(at, from, piece.len());
        return Heard { took, kept };
    }
    if !at.goes_on {
        let took = running::unread(at, from, piece.len());
        return Heard { took, kept };
    }
    let n = callfile::fill(block, at.have, piece, from);
    let have = at.have + n;
    let next = from + n;
    if have < callfile::BLOCK {
        let took = running::begun(at, have, next);
        return Heard { took, kept };
    }
    let told = report_block(
        head, subs, rows, events, held, kept, block, at.index, at.number, out,
    );
    let ran = told.ran;
    let reading = Reading {
        have: 0,
        number: stats::more_of(at.number),
        index: ran.index,
        goes_on: ran.goes_on,
    };
    let took = Took {
        reading,
        next,
        written: ran.written,
    };
    let kept = told.kept;
    Heard { took, kept }
}

// ---- the end

// The blocks that are held, the totals of the eight places and the counters, from `at` on.
fn put_tail(out: &mut [u8], at: usize, held: &[Block], kept: Kept, s: Stats) -> usize
    requires { (at + 33152 ≤ length out.old) × (kept.count ≤ 512) }
    ensures { Puts (tail_lines held.now kept s) at out.old result out.new × (result ≤ at + 33152) }
{
    let w = ways(held, kept.count);
    let a = reportlines::put_blocks(out, at, held, kept.count);
    let b = reportlines::put_totals(out, a, w, kept.gone);
    callfile::put_counters(out, b, s)
}

// The last lines, once no piece is left, a read has failed or reading has ended: that of a block that is not whole, the blocks that are held, the totals and the counters. In a text
// shorter than `LAST`, or where more than 512 blocks are said to be held, nothing is written.
pub fn report_end(
    head: &[u64],
    held: &[Block],
    kept: Kept,
    at: Reading,
    failed: bool,
    out: &mut [u8],
) -> usize
    ensures { PutLine 33280 (last_report at failed held.now kept (stats_at head.now)) 0 out.old result out.new }
{
    if out.len() < LAST {
        return 0;
    }
    if report::HELD_MOST < kept.count {
        return 0;
    }
    let from = running::rest_line(at, failed, out);
    let s = running::counters(head);
    put_tail(out, from, held, kept, s)
}
