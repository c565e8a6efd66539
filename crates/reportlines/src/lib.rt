// The lines of a report of a queue's blocks, and the counts of those that are gone. Where there is no room nothing is put.
#![tactic(auto)]

ghost use Rattle.std.specs.Prelude.{◌≡◌, [], ◌∷◌, ◌+◌, ◌*◌, ◌≤◌, leb, length, take};
ghost use Rattle.words.specs.Words.{signed};
ghost use Rattle.callfile.specs.Lines.{field, signed_field};
ghost use Rattle.callfile.specs.Placed.{Puts, PutLine};
ghost use Rattle.reportlines.specs.ReportLines.{ways_fields, turn_line, join_line, enqueue_line, brought_line, place_name, block_line, blocks_text, one_gone, gone_after, gone_fields, totals_line};

use calls::Call;

// How many blocks wait, are in flight and are reserved.
#[derive(Clone, Copy)]
pub struct Ways {
    pub waiting: u64,
    pub flying: u64,
    pub reserved: u64,
}

// How many are gone, up to the largest word: to each of five places.
#[derive(Clone, Copy)]
pub struct Gone {
    pub dequeued: u64,
    pub expired: u64,
    pub discarded: u64,
    pub dead_lettered: u64,
    pub cleared: u64,
}

impl Gone {
    const NONE: Gone = Gone {
        dequeued: 0,
        expired: 0,
        discarded: 0,
        dead_lettered: 0,
        cleared: 0,
    };
}

// ---- parts

// Where there is room, as callers here have tested. Each crate of lines has its own: a public one would have to promise something without room.

fn put_letter(out: &mut [u8], at: usize, b: u8) -> usize
    requires { at + 1 ≤ length out.old }
    ensures { Puts (b ∷ []) at out.old result out.new }
{
    callfile::put_byte(out, at, b)
}

fn put_number(out: &mut [u8], at: usize, n: u64) -> usize
    requires { at + 128 ≤ length out.old }
    ensures { Puts (field n) at out.old result out.new × (result ≤ at + 21) }
{
    callfile::put_word(out, at, n, false)
}

fn put_signed(out: &mut [u8], at: usize, w: u64) -> usize
    requires { at + 128 ≤ length out.old }
    ensures { Puts (signed_field (signed w)) at out.old result out.new × (result ≤ at + 22) }
{
    callfile::put_word(out, at, w, true)
}

// ---- of a call

fn put_ways(out: &mut [u8], at: usize, w: Ways) -> usize
    requires { at + 170 ≤ length out.old }
    ensures { Puts (ways_fields w) at out.old result out.new × (result ≤ at + 63) }
{
    let a = put_number(out, at, w.waiting);
    let b = put_number(out, a, w.flying);
    put_number(out, b, w.reserved)
}

fn turn_line(out: &mut [u8], at: usize, index: u64, code: u64, refusal: u64, w: Ways) -> usize
    requires { at + 256 ≤ length out.old }
    ensures { Puts (turn_line index code refusal w) at out.old result out.new × (result ≤ at + 128) }
{
    let a = put_letter(out, at, b'c');
    let b = put_number(out, a, index);
    let c = put_number(out, b, code);
    let d = put_number(out, c, refusal);
    let e = put_ways(out, d, w);
    put_letter(out, e, b'\n')
}

// A call's line: its index, code and refusal, and how many blocks are held in each way after it.
pub fn put_turn(out: &mut [u8], at: usize, index: u64, code: u64, refusal: u64, w: Ways) -> usize
    ensures { PutLine 256 (turn_line index code refusal w) at out.old result out.new }
{
    if !callfile::lines_fit(out.len(), at, 2) {
        return at;
    }
    turn_line(out, at, index, code, refusal, w)
}

// A join's consumer and flags.
fn join_line(out: &mut [u8], at: usize, words: [u64; 8]) -> usize
    requires { at + 256 ≤ length out.old }
    ensures { Puts (join_line words) at out.old result out.new × (result ≤ at + 128) }
{
    let a = put_letter(out, at, b'j');
    let b = put_number(out, a, words[0]);
    let c = put_signed(out, b, words[1]);
    let d = put_signed(out, c, words[2]);
    let e = put_number(out, d, words[5]);
    put_letter(out, e, b'\n')
}

// An enqueue's number, and whether its block is persistent.
fn enqueue_line(out: &mut [u8], at: usize, words: [u64; 8]) -> usize
    requires { at + 256 ≤ length out.old }
    ensures { Puts (enqueue_line words) at out.old result out.new × (result ≤ at + 128) }
{
    let a = put_letter(out, at, b'e');
    let b = put_number(out, a, words[0]);
    let c = put_number(out, b, words[2]);
    put_letter(out, c, b'\n')
}

// The refusal is the number that a call line prints, here and in what follows.
fn brought_line(
    out: &mut [u8],
    at: usize,
    refusal: u64,
    code: u64,
    words: [u64; 8],
    queue: bool,
) -> usize
    requires { at + 256 ≤ length out.old }
    ensures { Puts (brought_line refusal code words queue) at out.old result out.new × (result ≤ at + 128) }
{
    if refusal != 0 {
        return at;
    }
    match code {
        Call::JOIN => join_line(out, at, words),
        Call::ENQUEUE if queue => enqueue_line(out, at, words),
        _ => at,
    }
}

// What an accepted call brought; a refused one nothing: a join its consumer, an enqueue on a queue its block.
pub fn put_brought(
    out: &mut [u8],
    at: usize,
    refusal: u64,
    code: u64,
    words: [u64; 8],
    queue: bool,
) -> usize
    ensures { PutLine 256 (brought_line refusal code words queue) at out.old result out.new }
{
    if !callfile::lines_fit(out.len(), at, 2) {
        return at;
    }
    brought_line(out, at, refusal, code, words, queue)
}

// ---- of blocks

// A place by its name.
fn put_place(out: &mut [u8], at: usize, place: u64) -> usize
    requires { at + 14 ≤ length out.old }
    ensures { Puts (place_name place) at out.old result out.new × (result ≤ at + 14) }
{
    match place {
        0 => callfile::put_all(out, at, b" waiting"),
        1 => callfile::put_all(out, at, b" in-flight"),
        2 => callfile::put_all(out, at, b" reserved"),
        3 => callfile::put_all(out, at, b" dequeued"),
        4 => callfile::put_all(out, at, b" expired"),
        5 => callfile::put_all(out, at, b" discarded"),
        6 => callfile::put_all(out, at, b" dead-lettered"),
        _ => callfile::put_all(out, at, b" cleared"),
    }
}

// A place's name.
pub fn put_name(out: &mut [u8], at: usize, place: u64) -> usize
    ensures { PutLine 14 (place_name place) at out.old result out.new }
{
    if out.len() < 14 || out.len() - 14 < at {
        return at;
    }
    put_place(out, at, place)
}

// A block's line: its sequence number, its place, and whether it is persistent.
fn block_line(out: &mut [u8], at: usize, b: [u64; 3]) -> usize
    requires { at + 192 ≤ length out.old }
    ensures { Puts (block_line b) at out.old result out.new × (result ≤ at + 64) }
{
    let first = put_letter(out, at, b'f');
    let second = put_number(out, first, b[0]);
    let third = put_place(out, second, b[1]);
    let fourth = put_number(out, third, b[2]);
    put_letter(out, fourth, b'\n')
}

// Whether there is room for one of the longest lines and n of 64 bytes.
fn blocks_fit(len: usize, at: usize, n: usize) -> bool
    ensures { result ≡ leb (at + (128 + 64 * n)) len }
{
    if len < callfile::LINE {
        return false;
    }
    let room = len - callfile::LINE;
    n <= room / 64 && at <= room - 64 * n
}

fn each_block(out: &mut [u8], from: usize, blocks: &[[u64; 3]]) -> usize
    requires { from + (128 + 64 * length blocks.now) ≤ length out.old }
    ensures { Puts (blocks_text blocks.now) from out.old result out.new × (result ≤ from + (128 + 64 * length blocks.now)) }
{
    let mut at = from;
    for b in blocks {
        at = block_line(out, at, *b);
    }
    at
}

// The lines of the first n blocks.
pub fn put_blocks(out: &mut [u8], from: usize, blocks: &[[u64; 3]], n: usize) -> usize
    ensures { PutLine (128 + 64 * n) (blocks_text (take n blocks.now)) from out.old result out.new }
{
    if !blocks_fit(out.len(), from, n) {
        return from;
    }
    each_block(out, from, &blocks[..n.min(blocks.len())])
}

// ---- what is gone

// One more is gone to a place.
fn one_gone(place: u64, g: Gone) -> Gone
    ensures { result ≡ one_gone place g }
{
    match place {
        3 => Gone {
            dequeued: stats::more_of(g.dequeued),
            ..g
        },
        4 => Gone {
            expired: stats::more_of(g.expired),
            ..g
        },
        5 => Gone {
            discarded: stats::more_of(g.discarded),
            ..g
        },
        6 => Gone {
            dead_lettered: stats::more_of(g.dead_lettered),
            ..g
        },
        7 => Gone {
            cleared: stats::more_of(g.cleared),
            ..g
        },
        _ => g,
    }
}

// What is gone after a call: n blocks more, or only these where an account begins anew.
pub fn gone_after(g: Gone, left: &[[u64; 3]], n: usize, anew: bool) -> Gone
    ensures { result ≡ gone_after anew (take n left.now) g }
{
    let start = if anew { Gone::NONE } else { g };
    left.iter().take(n).fold(start, |g, b| one_gone(b[1], g))
}

fn put_gone(out: &mut [u8], at: usize, g: Gone) -> usize
    requires { at + 212 ≤ length out.old }
    ensures { Puts (gone_fields g) at out.old result out.new × (result ≤ at + 105) }
{
    let a = put_number(out, at, g.dequeued);
    let b = put_number(out, a, g.expired);
    let c = put_number(out, b, g.discarded);
    let d = put_number(out, c, g.dead_lettered);
    put_number(out, d, g.cleared)
}

fn totals_line(out: &mut [u8], at: usize, w: Ways, g: Gone) -> usize
    requires { at + 384 ≤ length out.old }
    ensures { Puts (totals_line w g) at out.old result out.new × (result ≤ at + 256) }
{
    let a = put_letter(out, at, b't');
    let b = put_ways(out, a, w);
    let c = put_gone(out, b, g);
    put_letter(out, c, b'\n')
}

// How many blocks are in each of the eight places.
pub fn put_totals(out: &mut [u8], at: usize, w: Ways, g: Gone) -> usize
    ensures { PutLine 384 (totals_line w g) at out.old result out.new }
{
    if !callfile::lines_fit(out.len(), at, 3) {
        return at;
    }
    totals_line(out, at, w, g)
}
