// The lines of a report of a station's blocks. Where there is no room nothing is put.
#![tactic(auto)]

ghost use Rattle.std.specs.Prelude.{[], ◌∷◌, ◌+◌, ◌*◌, ◌≤◌, length, take};
ghost use Rattle.words.specs.Words.{signed};
ghost use Rattle.callfile.specs.Lines.{field, signed_field};
ghost use Rattle.callfile.specs.Placed.{Puts, PutLine};
ghost use Rattle.reportlines.specs.ReportLines.{ways_fields, join_line, enqueue_line, place_name, gone_fields};
ghost use Rattle.stationlines.specs.StationLines.{numbered_line};
ghost use Rattle.stationreportlines.specs.StationReportLines.{station_turn_line, ways_line, brought_line_on, told_line, told_text, block_line_on, blocks_text_on, totals_line_on};

use calls::Call;
use reportlines::{Gone, Ways};

// ---- parts

// Where there is room, as callers here have tested. Each crate of lines has its own: a public one would have to promise something without room.

fn put_letter(out: &mut [u8], at: usize, b: u8) -> usize
    requires { at + 1 ≤ length out.old }
    ensures { Puts (b ∷ []) at out.old result out.new }
{
    callfile::put_byte(out, at, b)
}

fn put_number(out: &mut [u8], at: usize, n: u64) -> usize
    requires { at + 128 ≤ length out.old }
    ensures { Puts (field n) at out.old result out.new × (result ≤ at + 21) }
{
    callfile::put_word(out, at, n, false)
}

fn put_signed(out: &mut [u8], at: usize, w: u64) -> usize
    requires { at + 128 ≤ length out.old }
    ensures { Puts (signed_field (signed w)) at out.old result out.new × (result ≤ at + 22) }
{
    callfile::put_word(out, at, w, true)
}

fn put_ways(out: &mut [u8], at: usize, w: Ways) -> usize
    requires { at + 170 ≤ length out.old }
    ensures { Puts (ways_fields w) at out.old result out.new × (result ≤ at + 63) }
{
    let a = put_number(out, at, w.waiting);
    let b = put_number(out, a, w.flying);
    put_number(out, b, w.reserved)
}

fn put_gone(out: &mut [u8], at: usize, g: Gone) -> usize
    requires { at + 212 ≤ length out.old }
    ensures { Puts (gone_fields g) at out.old result out.new × (result ≤ at + 105) }
{
    let a = put_number(out, at, g.dequeued);
    let b = put_number(out, a, g.expired);
    let c = put_number(out, b, g.discarded);
    let d = put_number(out, c, g.dead_lettered);
    put_number(out, d, g.cleared)
}

fn put_place(out: &mut [u8], at: usize, place: u64) -> usize
    requires { at + 14 ≤ length out.old }
    ensures { Puts (place_name place) at out.old result out.new × (result ≤ at + 14) }
{
    reportlines::put_name(out, at, place)
}

// ---- of a call

// The refusal is the number that a call line prints, here and in what follows.

fn turn_line(
    out: &mut [u8],
    at: usize,
    index: u64,
    d: u64,
    code: u64,
    refusal: u64,
    w: Ways,
) -> usize
    requires { at + 384 ≤ length out.old }
    ensures { Puts (station_turn_line index d code refusal w) at out.old result out.new × (result ≤ at + 256) }
{
    let a = put_letter(out, at, b'c');
    let b = put_number(out, a, index);
    let c = put_number(out, b, d);
    let e = put_number(out, c, code);
    let f = put_number(out, e, refusal);
    let g = put_ways(out, f, w);
    put_letter(out, g, b'\n')
}

// A call's line: its index, destination, code and refusal, and how many blocks that destination holds in each way after it.
pub fn put_turn(
    out: &mut [u8],
    at: usize,
    index: u64,
    d: u64,
    code: u64,
    refusal: u64,
    w: Ways,
) -> usize
    ensures { PutLine 384 (station_turn_line index d code refusal w) at out.old result out.new }
{
    if !callfile::lines_fit(out.len(), at, 3) {
        return at;
    }
    turn_line(out, at, index, d, code, refusal, w)
}

fn ways_line(out: &mut [u8], at: usize, e: u64, w: Ways) -> usize
    requires { at + 256 ≤ length out.old }
    ensures { Puts (ways_line e w) at out.old result out.new × (result ≤ at + 128) }
{
    let a = put_letter(out, at, b'w');
    let b = put_number(out, a, e);
    let c = put_ways(out, b, w);
    put_letter(out, c, b'\n')
}

// How many blocks another queue holds in each way.
pub fn put_others(out: &mut [u8], at: usize, e: u64, w: Ways) -> usize
    ensures { PutLine 256 (ways_line e w) at out.old result out.new }
{
    if !callfile::lines_fit(out.len(), at, 2) {
        return at;
    }
    ways_line(out, at, e, w)
}

// A join's consumer and flags.
fn join_line(out: &mut [u8], at: usize, d: u64, words: [u64; 8]) -> usize
    requires { at + 256 ≤ length out.old }
    ensures { Puts (numbered_line d (join_line words)) at out.old result out.new × (result ≤ at + 128) }
{
    let a = put_letter(out, at, b'j');
    let b = put_number(out, a, d);
    let c = put_number(out, b, words[0]);
    let e = put_signed(out, c, words[1]);
    let f = put_signed(out, e, words[2]);
    let g = put_number(out, f, words[5]);
    put_letter(out, g, b'\n')
}

// An enqueue's number, and whether its block is persistent.
fn enqueue_line(out: &mut [u8], at: usize, d: u64, words: [u64; 8]) -> usize
    requires { at + 256 ≤ length out.old }
    ensures { Puts (numbered_line d (enqueue_line words)) at out.old result out.new × (result ≤ at + 128) }
{
    let a = put_letter(out, at, b'e');
    let b = put_number(out, a, d);
    let c = put_number(out, b, words[0]);
    let e = put_number(out, c, words[2]);
    put_letter(out, e, b'\n')
}

fn brought_line(
    out: &mut [u8],
    at: usize,
    d: u64,
    refusal: u64,
    code: u64,
    words: [u64; 8],
    queue: bool,
) -> usize
    requires { at + 256 ≤ length out.old }
    ensures { Puts (brought_line_on d refusal code words queue) at out.old result out.new × (result ≤ at + 128) }
{
    if refusal != 0 {
        return at;
    }
    match code {
        Call::JOIN => join_line(out, at, d, words),
        Call::ENQUEUE if queue => enqueue_line(out, at, d, words),
        _ => at,
    }
}

// What an accepted call on a destination brought; a refused one nothing: a join its consumer, an enqueue on a queue its block. Word 0 of an enqueue is the number
// that the station gave it.
pub fn put_brought(
    out: &mut [u8],
    at: usize,
    d: u64,
    refusal: u64,
    code: u64,
    words: [u64; 8],
    queue: bool,
) -> usize
    ensures { PutLine 256 (brought_line_on d refusal code words queue) at out.old result out.new }
{
    if !callfile::lines_fit(out.len(), at, 2) {
        return at;
    }
    brought_line(out, at, d, refusal, code, words, queue)
}

// ---- of rows

// A dead letter's line: the number that it had, the one that it got, the destination that stored it.
fn told_line(out: &mut [u8], at: usize, d: u64, row: [u64; 3]) -> usize
    requires { at + 256 ≤ length out.old }
    ensures { Puts (told_line d row) at out.old result out.new × (result ≤ at + 128) }
{
    let a = put_letter(out, at, b'l');
    let b = put_number(out, a, d);
    let c = put_number(out, b, row[0]);
    let e = put_number(out, c, row[1]);
    let f = put_number(out, e, row[2]);
    put_letter(out, f, b'\n')
}

fn each_told(out: &mut [u8], from: usize, d: u64, rows: &[[u64; 3]]) -> usize
    requires { from + (128 + 128 * length rows.now) ≤ length out.old }
    ensures { Puts (told_text d rows.now) from out.old result out.new × (result ≤ from + (128 + 128 * length rows.now)) }
{
    let mut at = from;
    for row in rows {
        at = told_line(out, at, d, *row);
    }
    at
}

// The lines of the first n dead letters of a call on a destination.
pub fn put_told(out: &mut [u8], from: usize, d: u64, rows: &[[u64; 3]], n: usize) -> usize
    ensures { PutLine (128 + 128 * n) (told_text d (take n rows.now)) from out.old result out.new }
{
    if !stationlines::rows_fit(out.len(), from, n) {
        return from;
    }
    each_told(out, from, d, &rows[..n.min(rows.len())])
}

// A block's line: its sequence number, its place, and whether it is persistent.
fn block_line(out: &mut [u8], at: usize, d: u64, b: [u64; 3]) -> usize
    requires { at + 256 ≤ length out.old }
    ensures { Puts (block_line_on d b) at out.old result out.new × (result ≤ at + 128) }
{
    let first = put_letter(out, at, b'f');
    let second = put_number(out, first, d);
    let third = put_number(out, second, b[0]);
    let fourth = put_place(out, third, b[1]);
    let fifth = put_number(out, fourth, b[2]);
    put_letter(out, fifth, b'\n')
}

fn each_block(out: &mut [u8], from: usize, d: u64, blocks: &[[u64; 3]]) -> usize
    requires { from + (128 + 128 * length blocks.now) ≤ length out.old }
    ensures { Puts (blocks_text_on d blocks.now) from out.old result out.new × (result ≤ from + (128 + 128 * length blocks.now)) }
{
    let mut at = from;
    for b in blocks {
        at = block_line(out, at, d, *b);
    }
    at
}

// The lines of the first n blocks of a destination.
pub fn put_blocks(out: &mut [u8], from: usize, d: u64, blocks: &[[u64; 3]], n: usize) -> usize
    ensures { PutLine (128 + 128 * n) (blocks_text_on d (take n blocks.now)) from out.old result out.new }
{
    if !stationlines::rows_fit(out.len(), from, n) {
        return from;
    }
    each_block(out, from, d, &blocks[..n.min(blocks.len())])
}

// ---- the last lines

fn totals_line(out: &mut [u8], at: usize, d: u64, w: Ways, g: Gone) -> usize
    requires { at + 384 ≤ length out.old }
    ensures { Puts (totals_line_on d w g) at out.old result out.new × (result ≤ at + 256) }
{
    let a = put_letter(out, at, b't');
    let b = put_number(out, a, d);
    let c = put_ways(out, b, w);
    let e = put_gone(out, c, g);
    put_letter(out, e, b'\n')
}

// How many blocks of a destination are in each of the eight places.
pub fn put_totals(out: &mut [u8], at: usize, d: u64, w: Ways, g: Gone) -> usize
    ensures { PutLine 384 (totals_line_on d w g) at out.old result out.new }
{
    if !callfile::lines_fit(out.len(), at, 3) {
        return at;
    }
    totals_line(out, at, d, w, g)
}
