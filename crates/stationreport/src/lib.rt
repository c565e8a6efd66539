// What a report of a station's call file prints (document 02 §7 with §1): the calls of its blocks on a lent station, each with its line, what it brought, what was
// sent, what became of its dead letters and the blocks that left, and at the end of each open destination the blocks that are held, the totals and the counters.
// The file comes in pieces, cut anywhere; reading and writing are the caller's.
#![tactic(auto)]

ghost use Rattle.std.specs.Prelude.{◌≡◌, true, false, ◌&&◌, [], ◌∷◌, ◌+◌, ◌≤◌, eqb, leb, length, get_or, take, drop};
ghost use Rattle.definition.specs.Base.{whether◌then◌else◌};
ghost use Rattle.definition_station.specs.Station.{station_short};
ghost use Rattle.definition_station.specs.Layout.{station_lengths_of, sound_station};
ghost use Rattle.callfile.specs.Placed.{Puts, PutLine};
ghost use Rattle.stationcalls.specs.Parts.{lent_all, Within};
ghost use Rattle.stationrun.specs.StationRuns.{station_by, file_call};
ghost use Rattle.stationrun.specs.CallSteps.{next_call, whole_at};
ghost use Rattle.stationreport.specs.StationReporting.{places_text, gone_by_words, station_report_call, noted_by, StationNotes};
ghost use Rattle.stationreport.specs.Gathering.{CallAndTold, FewHeld, left_from, begins_anew, rest_text, rest_counts};
ghost use Rattle.stationreport.specs.StationReportFiles.{place_tail, ReportStepped, report_fit, ReportTakesStep, last_station_report};

mod blocks;
mod lines;

use callfile::Reading;
use calls::Call;
use consumers::SubRow;
use entry::Row;
use report::Block;
use reportlines::Gone;
use stationcalls::{Sent, Told, ToldOutcome};
use stationrun::{StationReading, StationTook};

// The bytes that no call's lines exceed: its own, those of eight other queues and of what it brought, 4,872 of events, 512 of dead letters, 8 times 1,025 of
// blocks, and room for three more, 128 bytes a line.
pub const TEXT: usize = 1740800;

// And the last lines: of eight places 512 of blocks and four more each, and those of a bad block and of the station.
pub const LAST: usize = 528640;

// ---- a call

// The words of a call as its destination gets them: an enqueue has the number that is next.
fn words_got(code: u64, words: [u64; 8], next: u64) -> [u64; 8]
    ensures { result ≡ (whether eqb code 1 then next ∷ drop 1 words else words) }
{
    if code != Call::ENQUEUE {
        return words;
    }
    let w = words;
    [next, w[1], w[2], w[3], w[4], w[5], w[6], w[7]]
}

// A call of a file, a start or a station call, and what became of its dead letters.
fn call_told(
    heads: &mut [u64],
    subs: &mut [SubRow],
    rows: &mut [Row],
    own: &mut [u64],
    events: &mut [Sent],
    told: &mut [Told],
    c: Call,
) -> ToldOutcome
    requires { length told.old ≡ 512 }
    ensures { CallAndTold (file_call (station_lengths_of (lent_all heads.old subs.old rows.old own.old) (length events.old)) c (station_by (lent_all heads.old subs.old rows.old own.old) events.old)) c (lent_all heads.old subs.old rows.old own.old) (lent_all heads.new subs.new rows.new own.new) events.old events.new told.new result }
{
    let number = c.code / 256;
    let code = c.code % 256;
    let words = c.words;
    if code == stationrun::START {
        let refusal = stationrun::start(heads, subs, rows, own, events, number, words);
        return ToldOutcome {
            refusal,
            answer: 0,
            events: 0,
            letters: 0,
        };
    }
    let plain = Call::new(code, words);
    stationcalls::call_told(heads, subs, rows, own, events, told, number, plain)
}

// The lines of what left, and the counts, after a call that is accepted; where it is an open or a start, accounts begin anew.
fn put_rest(
    heads: &[u64],
    subs: &[SubRow],
    rows: &[Row],
    own: &[u64],
    lists: &[Block],
    counts: &[u64],
    told: &[Told],
    letters: usize,
    number: u64,
    code: u64,
    words: [u64; 8],
    gone: &mut [[u64; 5]],
    out: &mut [u8],
    at: usize,
) -> usize
    requires within { Within 0 heads.now subs.now rows.now × (20 ≤ length own.now) × (begins_anew code ≡ false → sound_station (lent_all heads.now subs.now rows.now own.now) ≡ true) }
    requires few_held { FewHeld lists.now counts.now × (letters ≤ 512) × (letters ≤ length told.now) × (length gone.old ≡ 8) × (at + 1049856 ≤ length out.old) }
    ensures puts { Puts (rest_text code (left_from (lent_all heads.now subs.now rows.now own.now) lists.now counts.now (take letters told.now) number code words)) at out.old result out.new × (result ≤ at + 1049600) }
    ensures gone_after { gone.new ≡ rest_counts code number (left_from (lent_all heads.now subs.now rows.now own.now) lists.now counts.now (take letters told.now) number code words) gone.old }
{
    if code == stationrun::START {
        lines::begin(gone, number, true);
        return at;
    }
    if code == Call::OPEN {
        lines::begin(gone, number, false);
        return at;
    }
    lines::put_left(
        heads, subs, rows, own, lists, counts, told, letters, number, code, words, gone, out, at,
    )
}

// A call, its lines at the beginning of the text, and the counts; the place after the lines.
fn report_call(
    heads: &mut [u64],
    subs: &mut [SubRow],
    rows: &mut [Row],
    own: &mut [u64],
    events: &mut [Sent],
    gone: &mut [[u64; 5]],
    c: Call,
    index: u64,
    out: &mut [u8],
) -> usize
    requires { (station_short (station_lengths_of (lent_all heads.old subs.old rows.old own.old) (length events.old)) ≡ false) × (length gone.old ≡ 8) × (1740800 ≤ length out.old) }
    ensures { StationNotes (file_call (station_lengths_of (lent_all heads.old subs.old rows.old own.old) (length events.old)) c (station_by (lent_all heads.old subs.old rows.old own.old) events.old)) index c (lent_all heads.old subs.old rows.old own.old) (lent_all heads.new subs.new rows.new own.new) events.old events.new gone.old gone.new out.old out.new result × (result ≤ 1740800) }
{
    let number = c.code / 256;
    let code = c.code % 256;
    let given = c.words;
    let words = words_got(code, given, own[16]);
    let mut lists = [[0u64; 3]; 4096];
    let mut counts = [0u64; 8];
    let mut told = [[0u64; 3]; 512];
    blocks::hold_all(heads, subs, rows, own, &mut lists, &mut counts);
    let r = call_told(heads, subs, rows, own, events, &mut told, c);
    let refusal = r.refusal;
    let letters = r.letters;
    let at = lines::put_first(
        heads, subs, rows, own, events, &told, index, number, code, words, r, out,
    );
    if refusal != 0 {
        return at;
    }
    put_rest(
        heads, subs, rows, own, &lists, &counts, &told, letters, number, code, words, gone, out, at,
    )
}

// ---- a step

// Whether there is anything to do: `stationrun::goes`, eight places' counts, and lent buffers that are long enough.
fn roomy(
    heads: &[u64],
    subs: &[SubRow],
    rows: &[Row],
    own: &[u64],
    events: &[Sent],
    at: Reading,
    block: usize,
    out: usize,
    gone: usize,
) -> bool
    ensures { result ≡ ((report_fit (station_lengths_of (lent_all heads.now subs.now rows.now own.now) (length events.now)) gone && (eqb block 512 && (leb at.have 512 && leb 1740800 out))) && at.goes_on) }
{
    if gone != 8 {
        return false;
    }
    if !stationcalls::whole(heads, subs, rows, own, events) {
        return false;
    }
    stationrun::goes(at, block, TEXT, out)
}

// The next call of a block that is whole, with its lines in `out`. Where there is none, as in a bad one, the block has its line alone, and reading ends.
fn report_next(
    heads: &mut [u64],
    subs: &mut [SubRow],
    rows: &mut [Row],
    own: &mut [u64],
    events: &mut [Sent],
    gone: &mut [[u64; 5]],
    block: &[u8],
    at: StationReading,
    from: usize,
    out: &mut [u8],
) -> StationTook
    requires { (length block.now ≡ 512) × (1740800 ≤ length out.old) × (length gone.old ≡ 8) × (station_short (station_lengths_of (lent_all heads.old subs.old rows.old own.old) (length events.old)) ≡ false) }
    ensures { ReportStepped (next_call (station_report_call (station_lengths_of (lent_all heads.old subs.old rows.old own.old) (length events.old))) at.run (whole_at at block.now (noted_by (lent_all heads.old subs.old rows.old own.old) events.old gone.old))) true at from (lent_all heads.old subs.old rows.old own.old) (lent_all heads.new subs.new rows.new own.new) events.old events.new gone.old gone.new out.old out.new result }
{
    let count = callfile::calls_in(block, block.len());
    if count <= at.run {
        let written = callfile::put_bad(out, 0, at.reading.number);
        return stationrun::ended(at, from, written);
    }
    let c = callfile::call_at(block, at.run);
    let written = report_call(
        heads,
        subs,
        rows,
        own,
        events,
        gone,
        c,
        at.reading.index,
        out,
    );
    let reading = stationrun::after_call(at, count);
    StationTook {
        reading,
        next: from,
        written,
    }
}

// A step: where the block is not whole, it takes bytes of a piece, from a place of it on; where it is, its next call is made, with its lines in `out`. `gone` has
// five counts for each place. In a block that has not 512 places, a text shorter than `TEXT`, counts that are not for eight places, short buffers, and once
// reading has ended, nothing happens: reading ends, and the piece is used up.
pub fn report_station_step(
    heads: &mut [u64],
    subs: &mut [SubRow],
    rows: &mut [Row],
    own: &mut [u64],
    events: &mut [Sent],
    gone: &mut [[u64; 5]],
    block: &mut [u8],
    at: StationReading,
    piece: &[u8],
    from: usize,
    out: &mut [u8],
) -> StationTook
    ensures { ReportTakesStep at piece.now from (lent_all heads.old subs.old rows.old own.old) (lent_all heads.new subs.new rows.new own.new) events.old events.new gone.old gone.new block.old block.new out.old out.new result }
{
    let reading = at.reading;
    if !roomy(
        heads,
        subs,
        rows,
        own,
        events,
        reading,
        block.len(),
        out.len(),
        gone.len(),
    ) {
        let t = running::unread(reading, from, piece.len());
        return stationrun::with_run(t, at.run);
    }
    if reading.have < callfile::BLOCK {
        let n = callfile::fill(block, reading.have, piece, from);
        let have = reading.have + n;
        let next = from + n;
        let t = running::begun(reading, have, next);
        return stationrun::with_run(t, 0);
    }
    report_next(heads, subs, rows, own, events, gone, block, at, from, out)
}

// ---- the end

// The counts of a place; none past the end of the list.
fn counts_at(gone: &[[u64; 5]], k: usize) -> Gone
    ensures { result ≡ gone_by_words (get_or gone.now k []) }
{
    if gone.len() <= k {
        return lines::gone_of([0; 5]);
    }
    lines::gone_of(gone[k])
}

// The last lines of a place, if it is open: the blocks that it holds, the totals and the counters.
fn put_tail(
    heads: &[u64],
    subs: &[SubRow],
    rows: &[Row],
    own: &[u64],
    gone: &[[u64; 5]],
    k: usize,
    out: &mut [u8],
    at: usize,
) -> usize
    requires { Within k heads.now subs.now rows.now × (20 ≤ length own.now) × (at + 66304 ≤ length out.old) }
    ensures { Puts (place_tail (noted_by (lent_all heads.now subs.now rows.now own.now) [] gone.now) k) at out.old result out.new × (result ≤ at + 65920) }
{
    if own[k] == 0 {
        return at;
    }
    let mut list = [[0u64; 3]; 512];
    let n = blocks::shown_at(heads, subs, rows, own, k, &mut list);
    let w = reporting::ways(&list, n);
    let g = counts_at(gone, k);
    let a = stationreportlines::put_blocks(out, at, k as u64, &list, n);
    let b = stationreportlines::put_totals(out, a, k as u64, w, g);
    let from = k * 8347;
    let to = from + 8347;
    let s = running::counters(&heads[from..to]);
    stationlines::put_counted(out, b, k as u64, s)
}

// Those of all places.
fn put_tails(
    heads: &[u64],
    subs: &[SubRow],
    rows: &[Row],
    own: &[u64],
    gone: &[[u64; 5]],
    out: &mut [u8],
    from: usize,
) -> usize
    requires { Within 0 heads.now subs.now rows.now × (20 ≤ length own.now) × (from + 527744 ≤ length out.old) }
    ensures { Puts (places_text (place_tail (noted_by (lent_all heads.now subs.now rows.now own.now) [] gone.now)) 0 8) from out.old result out.new × (result ≤ from + 527360) }
{
    let mut at = from;
    for k in 0..8 {
        at = put_tail(heads, subs, rows, own, gone, k, out, at);
    }
    at
}

// The last lines, once no piece is left, a read has failed or reading has ended: that of a block that is not whole, those of each open destination, and the
// station's own. In a text shorter than `LAST`, or with short buffers, nothing is written.
pub fn report_station_end(
    heads: &[u64],
    subs: &[SubRow],
    rows: &[Row],
    own: &[u64],
    events: &[Sent],
    gone: &[[u64; 5]],
    at: Reading,
    failed: bool,
    out: &mut [u8],
) -> usize
    ensures { PutLine 528640 (last_station_report (station_lengths_of (lent_all heads.now subs.now rows.now own.now) (length events.now)) at failed (noted_by (lent_all heads.now subs.now rows.now own.now) events.now gone.now)) 0 out.old result out.new }
{
    if out.len() < LAST {
        return 0;
    }
    if !stationcalls::whole(heads, subs, rows, own, events) {
        return 0;
    }
    let bytes = stationrun::held_bytes(heads, subs, rows, own, events);
    let next = own[16];
    let lost = own[17];
    let from = running::rest_line(at, failed, out);
    let to = put_tails(heads, subs, rows, own, gone, out, from);
    stationlines::put_station(out, to, next, lost, 0, bytes)
}
