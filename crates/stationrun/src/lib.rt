// What a run of a station's call file prints (document 02 §1): the calls of its blocks on a lent station, each with its line and those of its events. The
// file comes in pieces, cut anywhere; reading and writing are the caller's.
#![tactic(auto)]

ghost use Rattle.std.specs.Prelude.{◌≡◌, ◌+◌, ◌≤◌, length, true, false, ◌&&◌, eqb, leb};
ghost use Rattle.definition_station.specs.Layout.{station_lengths_of, slot_at, station_view, sound_station};
ghost use Rattle.definition_station.specs.Called.{StationStarted};
ghost use Rattle.callfile.specs.Placed.{Puts, PutLine};
ghost use Rattle.stationcalls.specs.Parts.{lent_all, Within};
ghost use Rattle.stationrun.specs.StationRuns.{station_by, no_words, start_on, file_call, station_lines, station_call, outcome_from, FileCalled};
ghost use Rattle.stationrun.specs.CallSteps.{next_call, step_due, with_run, next_block, reading_after, ended_as, whole_at};
ghost use Rattle.stationrun.specs.StationFiles.{StationStepped, StationTakesStep, slot_line, counted_lines, slot_bytes, held_bytes, last_station};

use callfile::{Reading, Took};
use calls::Call;
use consumers::SubRow;
use engine::Outcome;
use entry::Row;
use stationcalls::Sent;

// The bytes that no call's lines exceed: its own, 4,872 of events and room for one more, 128 bytes a line.
pub const TEXT: usize = 623872;

// And the last lines, ten of them, with room for one more.
const LAST: usize = 1408;

// The code of a start.
pub const START: u64 = 16;

// How far a file is read, and how many calls of a block that is whole are run.
#[derive(Clone, Copy)]
pub struct StationReading {
    pub reading: Reading,
    pub run: usize,
}

// After a step: the reading, the place in the piece after what is used up, and how many bytes of lines were written.
#[derive(Clone, Copy)]
pub struct StationTook {
    pub reading: StationReading,
    pub next: usize,
    pub written: usize,
}

// ---- a call

fn zeros(w: [u64; 8]) -> bool
    ensures { result ≡ no_words w }
{
    (w[0] == 0)
        & ((w[1] == 0)
            & ((w[2] == 0)
                & ((w[3] == 0) & ((w[4] == 0) & ((w[5] == 0) & ((w[6] == 0) & (w[7] == 0)))))))
}

// A start: its refusal (0: accepted).
pub fn start(
    heads: &[u64],
    subs: &[SubRow],
    rows: &[Row],
    own: &mut [u64],
    events: &[Sent],
    number: u64,
    words: [u64; 8],
) -> u64
    ensures { StationStarted (start_on (station_lengths_of (lent_all heads.now subs.now rows.now own.old) (length events.now)) number words (station_view (lent_all heads.now subs.now rows.now own.old))) (lent_all heads.now subs.now rows.now own.old) (lent_all heads.now subs.now rows.now own.new) events.now events.now result }
{
    if !stationcalls::whole(heads, subs, rows, own, events) {
        return 1;
    }
    if 7 < number {
        return 10;
    }
    if number != 0 {
        return 3;
    }
    if !zeros(words) {
        return 3;
    }
    stationcalls::start(heads, subs, rows, own, events)
}

// A call of a file: a start, or a station call.
fn one_call(
    heads: &mut [u64],
    subs: &mut [SubRow],
    rows: &mut [Row],
    own: &mut [u64],
    events: &mut [Sent],
    c: Call,
) -> Outcome
    ensures { FileCalled (file_call (station_lengths_of (lent_all heads.old subs.old rows.old own.old) (length events.old)) c (station_by (lent_all heads.old subs.old rows.old own.old) events.old)) c (lent_all heads.old subs.old rows.old own.old) (lent_all heads.new subs.new rows.new own.new) events.old events.new × (result ≡ outcome_from (file_call (station_lengths_of (lent_all heads.old subs.old rows.old own.old) (length events.old)) c (station_by (lent_all heads.old subs.old rows.old own.old) events.old))) }
{
    let number = c.code / 256;
    let code = c.code % 256;
    let words = c.words;
    if code == START {
        let refusal = start(heads, subs, rows, own, events, number, words);
        return Outcome {
            refusal,
            answer: 0,
            events: 0,
        };
    }
    let plain = Call::new(code, words);
    stationcalls::call(heads, subs, rows, own, events, number, plain)
}

// A call, and its lines at the beginning of the text; the place after them.
fn run_call(
    heads: &mut [u64],
    subs: &mut [SubRow],
    rows: &mut [Row],
    own: &mut [u64],
    events: &mut [Sent],
    c: Call,
    index: u64,
    out: &mut [u8],
) -> usize
    requires { 623872 ≤ length out.old }
    ensures { FileCalled (file_call (station_lengths_of (lent_all heads.old subs.old rows.old own.old) (length events.old)) c (station_by (lent_all heads.old subs.old rows.old own.old) events.old)) c (lent_all heads.old subs.old rows.old own.old) (lent_all heads.new subs.new rows.new own.new) events.old events.new × Puts (station_lines index (file_call (station_lengths_of (lent_all heads.old subs.old rows.old own.old) (length events.old)) c (station_by (lent_all heads.old subs.old rows.old own.old) events.old))) 0 out.old result out.new }
{
    let r = one_call(heads, subs, rows, own, events, c);
    let next = callfile::put_call(out, 0, index, r.refusal, r.answer);
    stationlines::put_all_sent(out, next, events, r.events)
}

// ---- a step

// Whether a step is to be done: reading goes on, and the block is whole or bytes are left.
pub fn is_due(at: StationReading, from: usize, len: usize) -> bool
    ensures { result ≡ step_due at from len }
{
    if !at.reading.goes_on {
        return false;
    }
    if at.reading.have == callfile::BLOCK {
        return true;
    }
    from < len
}

// Whether there is anything to do: a block has its 512 places and no more bytes, a call's lines, which have at most so many bytes, do not lack room, and
// reading goes on.
pub fn goes(at: Reading, block: usize, most: usize, out: usize) -> bool
    ensures { result ≡ ((eqb block 512 && (leb at.have 512 && leb most out)) && at.goes_on) }
{
    if block != callfile::BLOCK {
        return false;
    }
    if callfile::BLOCK < at.have {
        return false;
    }
    if out < most {
        return false;
    }
    at.goes_on
}

// An answer, with the calls that are run.
pub fn with_run(t: Took, run: usize) -> StationTook
    ensures { result ≡ with_run t run }
{
    let reading = t.reading;
    StationTook {
        reading: StationReading { reading, run },
        next: t.next,
        written: t.written,
    }
}

// The reading at the next block.
fn next_block(at: StationReading, index: u64, on: bool) -> StationReading
    ensures { result ≡ next_block at index on }
{
    StationReading {
        reading: Reading {
            have: 0,
            number: stats::more_of(at.reading.number),
            index,
            goes_on: on,
        },
        run: 0,
    }
}

// The reading after a call of a block of so many.
pub fn after_call(at: StationReading, count: usize) -> StationReading
    ensures { result ≡ reading_after at count }
{
    let index = stats::more_of(at.reading.index);
    if count <= at.run {
        return next_block(at, index, true);
    }
    let run = at.run + 1;
    if run < count {
        let reading = Reading {
            have: callfile::BLOCK,
            number: at.reading.number,
            index,
            goes_on: true,
        };
        return StationReading { reading, run };
    }
    next_block(at, index, true)
}

// Reading ends at a bad block.
pub fn ended(at: StationReading, from: usize, written: usize) -> StationTook
    ensures { result ≡ ended_as at from written }
{
    let reading = next_block(at, at.reading.index, false);
    StationTook {
        reading,
        next: from,
        written,
    }
}

// Runs the next call of a block that is whole, and leaves its lines in `out`. Where there is none, as in a bad one, the block has its line alone, and
// reading ends.
fn run_next(
    heads: &mut [u64],
    subs: &mut [SubRow],
    rows: &mut [Row],
    own: &mut [u64],
    events: &mut [Sent],
    block: &[u8],
    at: StationReading,
    from: usize,
    out: &mut [u8],
) -> StationTook
    requires { (length block.now ≡ 512) × (623872 ≤ length out.old) }
    ensures { StationStepped (next_call (station_call (station_lengths_of (lent_all heads.old subs.old rows.old own.old) (length events.old))) at.run (whole_at at block.now (station_by (lent_all heads.old subs.old rows.old own.old) events.old))) true at from (lent_all heads.old subs.old rows.old own.old) (lent_all heads.new subs.new rows.new own.new) events.old events.new out.old out.new result }
{
    let count = callfile::calls_in(block, block.len());
    if count <= at.run {
        let written = callfile::put_bad(out, 0, at.reading.number);
        return ended(at, from, written);
    }
    let c = callfile::call_at(block, at.run);
    let written = run_call(heads, subs, rows, own, events, c, at.reading.index, out);
    let reading = after_call(at, count);
    StationTook {
        reading,
        next: from,
        written,
    }
}

// A step: where the block is not whole, it takes bytes of a piece, from a place of it on; where it is, its next call is run, with its lines in `out`.
// In a block that has not 512 places or a text shorter than `TEXT`, and once reading has ended, nothing happens: reading ends, and the piece is used up.
pub fn run_station_step(
    heads: &mut [u64],
    subs: &mut [SubRow],
    rows: &mut [Row],
    own: &mut [u64],
    events: &mut [Sent],
    block: &mut [u8],
    at: StationReading,
    piece: &[u8],
    from: usize,
    out: &mut [u8],
) -> StationTook
    ensures { StationTakesStep at piece.now from (lent_all heads.old subs.old rows.old own.old) (lent_all heads.new subs.new rows.new own.new) events.old events.new block.old block.new out.old out.new result }
{
    let reading = at.reading;
    if !goes(reading, block.len(), TEXT, out.len()) {
        let t = running::unread(reading, from, piece.len());
        return with_run(t, at.run);
    }
    if reading.have < callfile::BLOCK {
        let n = callfile::fill(block, reading.have, piece, from);
        let have = reading.have + n;
        let next = from + n;
        let t = running::begun(reading, have, next);
        return with_run(t, 0);
    }
    run_next(heads, subs, rows, own, events, block, at, from, out)
}

// ---- the end

// The line of a place's counters, if it is open.
fn put_place(
    heads: &[u64],
    subs: &[SubRow],
    rows: &[Row],
    own: &[u64],
    k: usize,
    out: &mut [u8],
    at: usize,
) -> usize
    requires { Within k heads.now subs.now rows.now × (20 ≤ length own.now) × (at + 256 ≤ length out.old) }
    ensures { Puts (slot_line k (slot_at (lent_all heads.now subs.now rows.now own.now) k)) at out.old result out.new × (result ≤ at + 128) }
{
    if own[k] == 0 {
        return at;
    }
    let a = k * 8347;
    let b = a + 8347;
    let s = running::counters(&heads[a..b]);
    stationlines::put_counted(out, at, k as u64, s)
}

// Those of all places.
fn put_counts(
    heads: &[u64],
    subs: &[SubRow],
    rows: &[Row],
    own: &[u64],
    out: &mut [u8],
    from: usize,
) -> usize
    requires { Within 0 heads.now subs.now rows.now × (20 ≤ length own.now) × (from + 1152 ≤ length out.old) }
    ensures { Puts (counted_lines 0 (station_view (lent_all heads.now subs.now rows.now own.now)).slots) from out.old result out.new × (result ≤ from + 1024) }
{
    let mut at = from;
    for k in 0..8 {
        at = put_place(heads, subs, rows, own, k, out, at);
    }
    at
}

// The bytes that a place of a sound station holds.
fn place_bytes(heads: &[u64], subs: &[SubRow], rows: &[Row], own: &[u64], k: usize) -> u64
    requires { Within k heads.now subs.now rows.now × (20 ≤ length own.now) × (sound_station (lent_all heads.now subs.now rows.now own.now) ≡ true) }
    ensures { (result ≡ slot_bytes (slot_at (lent_all heads.now subs.now rows.now own.now) k)) × (result ≤ 2199023255552) }
{
    if own[k] == 0 {
        return 0;
    }
    let a = k * 8347;
    let b = a + 8347;
    let c = k * 32;
    let d = c + 32;
    let e = k * 512;
    let f = e + 512;
    let r = queries::bytes_held(&heads[a..b], &subs[c..d], &rows[e..f]);
    r.answer
}

// Those of all places; 0 where the station is not sound, or its buffers are short.
pub fn held_bytes(heads: &[u64], subs: &[SubRow], rows: &[Row], own: &[u64], events: &[Sent]) -> u64
    ensures { result ≡ held_bytes (station_lengths_of (lent_all heads.now subs.now rows.now own.now) (length events.now)) (station_by (lent_all heads.now subs.now rows.now own.now) events.now) }
{
    if !stationcalls::is_sound(heads, subs, rows, own, events) {
        return 0;
    }
    let mut bytes = 0;
    for k in 0..8 {
        bytes += place_bytes(heads, subs, rows, own, k);
    }
    bytes
}

// The last lines, once no piece is left, a read has failed or reading has ended: that of a block that is not whole, the counters of each open destination,
// and the station's own. In a text shorter than `LAST`, or with short buffers, nothing is written.
pub fn run_station_end(
    heads: &[u64],
    subs: &[SubRow],
    rows: &[Row],
    own: &[u64],
    events: &[Sent],
    at: Reading,
    failed: bool,
    out: &mut [u8],
) -> usize
    ensures { PutLine 1408 (last_station (station_lengths_of (lent_all heads.now subs.now rows.now own.now) (length events.now)) at failed (station_by (lent_all heads.now subs.now rows.now own.now) events.now)) 0 out.old result out.new }
{
    if out.len() < LAST {
        return 0;
    }
    if !stationcalls::whole(heads, subs, rows, own, events) {
        return 0;
    }
    let bytes = held_bytes(heads, subs, rows, own, events);
    let next = own[16];
    let lost = own[17];
    let from = running::rest_line(at, failed, out);
    let to = put_counts(heads, subs, rows, own, out, from);
    stationlines::put_station(out, to, next, lost, 0, bytes)
}
