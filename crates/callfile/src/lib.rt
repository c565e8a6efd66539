// The call file: blocks of 512 bytes, and the lines that a run prints.
#![tactic(auto)]

ghost use Rattle.std.specs.Prelude.{◌≡◌, [], ◌∷◌, ◌+◌, ◌*◌, ◌≤◌, ◌<◌, ◌^◌, leb, length, take, drop};
ghost use Rattle.words.specs.Words.{signed};
ghost use Rattle.model.specs.Model.{id_of};
ghost use Rattle.callfile.specs.Blocks.{byte_at, number_at, word_at, check, check_in, calls_in, call_at};
ghost use Rattle.callfile.specs.Lines.{decimal, field, signed_field, word_field, id_fields, call_line, event_line, letter_at, message_at, null_at, words_line, event_rows_text, bad_line, counters_line};
ghost use Rattle.callfile.specs.Placed.{Puts, PutLine};
ghost use Rattle.callfile.specs.Cutting.{Filled};

use calls::Call;
use stats::Stats;

pub const BLOCK: usize = 512;

// The bytes of a call, and those that no line exceeds.
pub const CALL_BYTES: usize = 72;

pub const LINE: usize = 128;

// The code of no call.
const UNKNOWN: u64 = 18446744073709551615;

// How far a file is read: how many bytes of the next block are there, that block's number, the next call's index, and whether reading goes on.
#[derive(Clone, Copy)]
pub struct Reading {
    pub have: usize,
    pub number: u64,
    pub index: u64,
    pub goes_on: bool,
}

// After a step on a piece: how far the file is read, the place in the piece, and how many bytes of lines were written.
#[derive(Clone, Copy)]
pub struct Took {
    pub reading: Reading,
    pub next: usize,
    pub written: usize,
}

// ---- blocks

fn byte_at(block: &[u8], i: usize) -> u64
    requires { i < length block.now }
    ensures { (result ≡ byte_at i block.now) × (result < 256) }
{
    words::wide(block[i])
}

// The number of 4 bytes from a place on, little-endian.
fn number_at(block: &[u8], at: usize) -> u64
    requires { at + 4 ≤ length block.now }
    ensures { (result ≡ number_at at block.now) × (result < 2 ^ 32) }
{
    let low = byte_at(block, at) + 256 * byte_at(block, at + 1);
    low + 65536 * byte_at(block, at + 2) + 16777216 * byte_at(block, at + 3)
}

// The word of 8.
fn word_at(block: &[u8], at: usize) -> u64
    requires { at + 8 ≤ length block.now }
    ensures { result ≡ word_at at block.now }
{
    number_at(block, at) + 4294967296 * number_at(block, at + 4)
}

// The sum over bytes 0 to 507 of (position + 1) * byte.
fn check_of(block: &[u8]) -> u64
    requires { 512 ≤ length block.now }
    ensures { result ≡ check block.now }
{
    let mut sum: u64 = 0;
    for i in 0..508 {
        sum += (i as u64 + 1) * byte_at(block, i);
    }
    sum
}

// The check that a block should have; 0 for a short one.
pub fn block_check(block: &[u8]) -> u64
    ensures { result ≡ check_in block.now }
{
    if block.len() < BLOCK {
        return 0;
    }
    check_of(block)
}

// How many calls a block has, of which so many bytes were read: 1 to 7, or 0 where it is short or has a wrong count or check.
pub fn calls_in(block: &[u8], got: usize) -> usize
    ensures { result ≡ calls_in block.now got }
{
    if block.len() < BLOCK {
        return 0;
    }
    if got != BLOCK {
        return 0;
    }
    let count = number_at(block, 504);
    if 7 < count {
        return 0;
    }
    if number_at(block, 508) != check_of(block) {
        return 0;
    }
    count as usize
}

// Call k of a block, from 0 to 6; else a call of an unknown code.
pub fn call_at(block: &[u8], k: usize) -> Call
    ensures { result ≡ call_at k block.now }
{
    if block.len() < BLOCK {
        return Call::new(UNKNOWN, [0; 8]);
    }
    if 6 < k {
        return Call::new(UNKNOWN, [0; 8]);
    }
    let at = k * CALL_BYTES;
    let words = [
        word_at(block, at + 8),
        word_at(block, at + 16),
        word_at(block, at + 24),
        word_at(block, at + 32),
        word_at(block, at + 40),
        word_at(block, at + 48),
        word_at(block, at + 56),
        word_at(block, at + 64),
    ];
    Call::new(word_at(block, at), words)
}

// ---- lines

fn put(out: &mut [u8], at: usize, b: u8) -> usize
    requires { at < (length out.old) }
    ensures { Puts (b ∷ []) at out.old result out.new }
{
    out[at] = b;
    at + 1
}

// A number's decimal digits.
fn put_digits(out: &mut [u8], at: usize, n: u64) -> usize
    requires { at + length (decimal n) ≤ (length out.old) }
    ensures { Puts (decimal n) at out.old result out.new }
{
    if n < 10 {
        return put(out, at, (48 + n) as u8);
    }
    let next = put_digits(out, at, n / 10);
    put(out, next, (48 + n % 10) as u8)
}

// A space and an unsigned number.
fn put_field(out: &mut [u8], at: usize, n: u64) -> usize
    requires { at + 21 ≤ (length out.old) }
    ensures { Puts (field n) at out.old result out.new × (result ≤ at + 21) }
{
    let next = put(out, at, b' ');
    put_digits(out, next, n)
}

// A space and the signed number of a word.
fn put_signed(out: &mut [u8], at: usize, w: u64) -> usize
    requires { at + 21 ≤ (length out.old) }
    ensures { Puts (signed_field (signed w)) at out.old result out.new × (result ≤ at + 21) }
{
    if w < words::NEGATIVE {
        return put_field(out, at, w);
    }
    let space = put(out, at, b' ');
    let sign = put(out, space, b'-');
    put_digits(out, sign, words::MINUS_ONE - w + 1)
}

// An identifier in three words: connection unsigned, session and value signed.
fn put_id(out: &mut [u8], at: usize, conn: u64, session: u64, value: u64) -> usize
    requires { at + 63 ≤ (length out.old) }
    ensures { Puts (id_fields (id_of conn session value)) at out.old result out.new × (result ≤ at + 63) }
{
    let a = put_field(out, at, conn);
    let b = put_signed(out, a, session);
    put_signed(out, b, value)
}

// Whether there is room for so many bytes.
fn room(len: usize, at: usize, most: usize) -> bool
    ensures { result ≡ leb (at + most) len }
{
    most <= len && at <= len - most
}

// Whether there is room for n of the longest lines.
pub fn lines_fit(len: usize, at: usize, n: usize) -> bool
    ensures { result ≡ leb (at + 128 * n) len }
{
    n <= len / LINE && room(len, at, LINE * n)
}

// A byte. Without room for it, nothing is put.
pub fn put_byte(out: &mut [u8], at: usize, b: u8) -> usize
    ensures { PutLine 1 (b ∷ []) at out.old result out.new }
{
    if !room(out.len(), at, 1) {
        return at;
    }
    put(out, at, b)
}

fn put_each(out: &mut [u8], at: usize, part: &[u8]) -> usize
    requires { at + length part.now ≤ length out.old }
    ensures { Puts part.now at out.old result out.new }
{
    let end = at + part.len();
    out[at..end].copy_from_slice(part);
    end
}

// Bytes, one after the other. Without room for all, nothing is put.
pub fn put_all(out: &mut [u8], at: usize, part: &[u8]) -> usize
    ensures { PutLine (length part.now) part.now at out.old result out.new }
{
    if !room(out.len(), at, part.len()) {
        return at;
    }
    put_each(out, at, part)
}

// Takes bytes of a piece, from a place of it on, into a block behind its first `have`: as many as fit. How many there were.
pub fn fill(block: &mut [u8], have: usize, piece: &[u8], from: usize) -> usize
    ensures { Filled have (drop from piece.now) block.old result block.new }
{
    if block.len() <= have || piece.len() <= from {
        return 0;
    }
    let n = (block.len() - have).min(piece.len() - from);
    block[have..have + n].copy_from_slice(&piece[from..from + n]);
    n
}

fn word_field(out: &mut [u8], at: usize, w: u64, minus: bool) -> usize
    requires { at + 128 ≤ (length out.old) }
    ensures { Puts (word_field minus w) at out.old result out.new × (result ≤ at + 128) }
{
    if minus {
        return put_signed(out, at, w);
    }
    put_field(out, at, w)
}

// A space and a word, as a signed number or not. Without room for the longest line, nothing is put; and so below.
pub fn put_word(out: &mut [u8], at: usize, w: u64, minus: bool) -> usize
    ensures { PutLine 128 (word_field minus w) at out.old result out.new }
{
    if !room(out.len(), at, LINE) {
        return at;
    }
    word_field(out, at, w, minus)
}

fn call_line(out: &mut [u8], at: usize, index: u64, refusal: u64, answer: u64) -> usize
    requires { at + 128 ≤ (length out.old) }
    ensures { Puts (call_line index refusal answer) at out.old result out.new × (result ≤ at + 128) }
{
    let a = put_digits(out, at, index);
    let b = put_field(out, a, refusal);
    let c = put_field(out, b, answer);
    put(out, c, b'\n')
}

// A call's line: index, refusal, answer.
pub fn put_call(out: &mut [u8], at: usize, index: u64, refusal: u64, answer: u64) -> usize
    ensures { PutLine 128 (call_line index refusal answer) at out.old result out.new }
{
    if !room(out.len(), at, LINE) {
        return at;
    }
    call_line(out, at, index, refusal, answer)
}

fn letter_line(out: &mut [u8], at: usize, e: [u64; 6]) -> usize
    requires { at + 128 ≤ (length out.old) }
    ensures { Puts (event_line (letter_at e)) at out.old result out.new × (result ≤ at + 128) }
{
    let cause = e[3] != 0;
    let a = put(out, at, b'x');
    let b = put_field(out, a, e[1]);
    let c = put_signed(out, b, e[2]);
    let d = put_field(out, c, cause as u64);
    put(out, d, b'\n')
}

fn message_line(out: &mut [u8], at: usize, e: [u64; 6]) -> usize
    requires { at + 128 ≤ (length out.old) }
    ensures { Puts (event_line (message_at e)) at out.old result out.new × (result ≤ at + 128) }
{
    let a = put(out, at, b'd');
    let b = put_id(out, a, e[1], e[2], e[3]);
    let c = put_field(out, b, e[4]);
    let d = put_signed(out, c, e[5]);
    put(out, d, b'\n')
}

fn null_line(out: &mut [u8], at: usize, e: [u64; 6]) -> usize
    requires { at + 128 ≤ (length out.old) }
    ensures { Puts (event_line (null_at e)) at out.old result out.new × (result ≤ at + 128) }
{
    let a = put(out, at, b'n');
    let b = put_id(out, a, e[1], e[2], e[3]);
    put(out, b, b'\n')
}

// The line of an event in its six words; words of another kind have none.
pub fn put_event(out: &mut [u8], at: usize, e: [u64; 6]) -> usize
    ensures { PutLine 128 (words_line e) at out.old result out.new }
{
    if !room(out.len(), at, LINE) {
        return at;
    }
    match e[0] {
        1 => letter_line(out, at, e),
        2 => message_line(out, at, e),
        3 => null_line(out, at, e),
        _ => at,
    }
}

fn each_event(out: &mut [u8], from: usize, events: &[[u64; 6]]) -> usize
    requires { from + 128 * length events.now ≤ length out.old }
    ensures { Puts (event_rows_text events.now) from out.old result out.new × (result ≤ from + 128 * length events.now) }
{
    let mut at = from;
    for e in events {
        at = put_event(out, at, *e);
    }
    at
}

// The lines of the first n events (a length beside the list: of fewer events they are all). Without room for so many of the longest, nothing is put.
pub fn put_events(out: &mut [u8], from: usize, events: &[[u64; 6]], n: usize) -> usize
    ensures { PutLine (128 * n) (event_rows_text (take n events.now)) from out.old result out.new }
{
    if !lines_fit(out.len(), from, n) {
        return from;
    }
    each_event(out, from, &events[..n.min(events.len())])
}

fn bad_line(out: &mut [u8], at: usize, block: u64) -> usize
    requires { at + 128 ≤ (length out.old) }
    ensures { Puts (bad_line block) at out.old result out.new × (result ≤ at + 128) }
{
    let a = put(out, at, b'b');
    let b = put_field(out, a, block);
    put(out, b, b'\n')
}

// The line of a block that ends the reading.
pub fn put_bad(out: &mut [u8], at: usize, block: u64) -> usize
    ensures { PutLine 128 (bad_line block) at out.old result out.new }
{
    if !room(out.len(), at, LINE) {
        return at;
    }
    bad_line(out, at, block)
}

fn counters_line(out: &mut [u8], at: usize, s: Stats) -> usize
    requires { at + 128 ≤ (length out.old) }
    ensures { Puts (counters_line s) at out.old result out.new × (result ≤ at + 128) }
{
    let a = put(out, at, b'=');
    let b = put_field(out, a, s.enqueued);
    let c = put_field(out, b, s.dequeued);
    let d = put_field(out, c, s.expired);
    let e = put_field(out, d, s.discarded);
    let f = put_field(out, e, s.dispatched);
    put(out, f, b'\n')
}

// The last line: the five counters.
pub fn put_counters(out: &mut [u8], at: usize, s: Stats) -> usize
    ensures { PutLine 128 (counters_line s) at out.old result out.new }
{
    if !room(out.len(), at, LINE) {
        return at;
    }
    counters_line(out, at, s)
}
