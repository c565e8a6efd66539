// The lines that a run of a station prints. Where there is no room for two of the longest lines nothing is put.
#![tactic(auto)]

ghost use Rattle.std.specs.Prelude.{◌≡◌, [], ◌∷◌, ◌+◌, ◌*◌, ◌≤◌, ◌<◌, leb, length, take};
ghost use Rattle.words.specs.Words.{signed};
ghost use Rattle.callfile.specs.Lines.{field, signed_field, id_fields, event_line, letter_at, message_at, null_at};
ghost use Rattle.model.specs.Model.{id_of};
ghost use Rattle.callfile.specs.Placed.{Puts, PutLine};
ghost use Rattle.stationlines.specs.StationLines.{numbered_line, sent_words_line, sent_rows_text, counted_line, station_line};

use stats::Stats;

// The first words of events are below this: a kind, and 256 times a number of 0 to 7.
const FIRST_END: u64 = 2048;

// ---- parts

// Where there is room, as callers here have tested. Each crate of lines has its own: a public one would have to promise something without room.

fn put_letter(out: &mut [u8], at: usize, b: u8) -> usize
    requires { at + 1 ≤ length out.old }
    ensures { Puts (b ∷ []) at out.old result out.new }
{
    callfile::put_byte(out, at, b)
}

fn put_number(out: &mut [u8], at: usize, n: u64) -> usize
    requires { at + 128 ≤ length out.old }
    ensures { Puts (field n) at out.old result out.new × (result ≤ at + 21) }
{
    callfile::put_word(out, at, n, false)
}

fn put_signed(out: &mut [u8], at: usize, w: u64) -> usize
    requires { at + 128 ≤ length out.old }
    ensures { Puts (signed_field (signed w)) at out.old result out.new × (result ≤ at + 22) }
{
    callfile::put_word(out, at, w, true)
}

// A destination's number.
fn put_place(out: &mut [u8], at: usize, d: u64) -> usize
    requires { (at + 128 ≤ length out.old) × (d < 8) }
    ensures { Puts (field d) at out.old result out.new × (result ≤ at + 2) }
{
    put_number(out, at, d)
}

// An identifier in three words.
fn put_id(out: &mut [u8], at: usize, conn: u64, session: u64, value: u64) -> usize
    requires { at + 180 ≤ length out.old }
    ensures { Puts (id_fields (id_of conn session value)) at out.old result out.new × (result ≤ at + 65) }
{
    let a = put_number(out, at, conn);
    let b = put_signed(out, a, session);
    put_signed(out, b, value)
}

// ---- events

fn letter_line(out: &mut [u8], at: usize, d: u64, e: [u64; 6]) -> usize
    requires { (at + 256 ≤ length out.old) × (d < 8) }
    ensures { Puts (numbered_line d (event_line (letter_at e))) at out.old result out.new × (result ≤ at + 128) }
{
    let cause = e[3] != 0;
    let a = put_letter(out, at, b'x');
    let b = put_place(out, a, d);
    let c = put_number(out, b, e[1]);
    let f = put_signed(out, c, e[2]);
    let g = put_number(out, f, cause as u64);
    put_letter(out, g, b'\n')
}

fn message_line(out: &mut [u8], at: usize, d: u64, e: [u64; 6]) -> usize
    requires { (at + 256 ≤ length out.old) × (d < 8) }
    ensures { Puts (numbered_line d (event_line (message_at e))) at out.old result out.new × (result ≤ at + 128) }
{
    let a = put_letter(out, at, b'd');
    let b = put_place(out, a, d);
    let c = put_id(out, b, e[1], e[2], e[3]);
    let f = put_number(out, c, e[4]);
    let g = put_signed(out, f, e[5]);
    put_letter(out, g, b'\n')
}

fn null_line(out: &mut [u8], at: usize, d: u64, e: [u64; 6]) -> usize
    requires { (at + 256 ≤ length out.old) × (d < 8) }
    ensures { Puts (numbered_line d (event_line (null_at e))) at out.old result out.new × (result ≤ at + 128) }
{
    let a = put_letter(out, at, b'n');
    let b = put_place(out, a, d);
    let c = put_id(out, b, e[1], e[2], e[3]);
    put_letter(out, c, b'\n')
}

// The line of a station's event in its six words; words of another kind or with a number above 7 have none.
pub fn put_sent(out: &mut [u8], at: usize, e: [u64; 6]) -> usize
    ensures { PutLine 256 (sent_words_line e) at out.old result out.new }
{
    if !callfile::lines_fit(out.len(), at, 2) {
        return at;
    }
    let first = e[0];
    if FIRST_END <= first {
        return at;
    }
    let d = first / 256;
    match first % 256 {
        1 => letter_line(out, at, d, e),
        2 => message_line(out, at, d, e),
        3 => null_line(out, at, d, e),
        _ => at,
    }
}

// ---- lines of rows

// Whether there is room for n lines, and for a longest one besides.
pub fn rows_fit(len: usize, at: usize, n: usize) -> bool
    ensures { result ≡ leb (at + (128 + 128 * n)) len }
{
    callfile::LINE <= len && callfile::lines_fit(len - callfile::LINE, at, n)
}

fn each_sent(out: &mut [u8], from: usize, events: &[[u64; 6]]) -> usize
    requires { from + (128 + 128 * length events.now) ≤ length out.old }
    ensures { Puts (sent_rows_text events.now) from out.old result out.new × (result ≤ from + (128 + 128 * length events.now)) }
{
    let mut at = from;
    for e in events {
        at = put_sent(out, at, *e);
    }
    at
}

// The lines of the first n events.
pub fn put_all_sent(out: &mut [u8], from: usize, events: &[[u64; 6]], n: usize) -> usize
    ensures { PutLine (128 + 128 * n) (sent_rows_text (take n events.now)) from out.old result out.new }
{
    if !rows_fit(out.len(), from, n) {
        return from;
    }
    each_sent(out, from, &events[..n.min(events.len())])
}

// ---- the last lines

fn counted_line(out: &mut [u8], at: usize, d: u64, s: Stats) -> usize
    requires { at + 256 ≤ length out.old }
    ensures { Puts (counted_line d s) at out.old result out.new × (result ≤ at + 128) }
{
    let a = put_letter(out, at, b'=');
    let b = put_number(out, a, d);
    let c = put_number(out, b, s.enqueued);
    let e = put_number(out, c, s.dequeued);
    let f = put_number(out, e, s.expired);
    let g = put_number(out, f, s.discarded);
    let h = put_number(out, g, s.dispatched);
    put_letter(out, h, b'\n')
}

// A destination's counters.
pub fn put_counted(out: &mut [u8], at: usize, d: u64, s: Stats) -> usize
    ensures { PutLine 256 (counted_line d s) at out.old result out.new }
{
    if !callfile::lines_fit(out.len(), at, 2) {
        return at;
    }
    counted_line(out, at, d, s)
}

fn station_line(out: &mut [u8], at: usize, next: u64, lost: u64, flag: u64, bytes: u64) -> usize
    requires { at + 256 ≤ length out.old }
    ensures { Puts (station_line next lost flag bytes) at out.old result out.new × (result ≤ at + 128) }
{
    let a = put_letter(out, at, b's');
    let b = put_number(out, a, next);
    let c = put_number(out, b, lost);
    let d = put_number(out, c, flag);
    let e = put_number(out, d, bytes);
    put_letter(out, e, b'\n')
}

// The station's line: the next number, the lost count, the memory's flag, the bytes that are held.
pub fn put_station(out: &mut [u8], at: usize, next: u64, lost: u64, flag: u64, bytes: u64) -> usize
    ensures { PutLine 256 (station_line next lost flag bytes) at out.old result out.new }
{
    if !callfile::lines_fit(out.len(), at, 2) {
        return at;
    }
    station_line(out, at, next, lost, flag, bytes)
}
