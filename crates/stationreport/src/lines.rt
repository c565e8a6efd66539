// The lines of a call on a lent station, and the counts of the blocks that are gone.
ghost use Rattle.std.specs.Prelude.{◌≡◌, true, false, [], map, ◌+◌, ◌≤◌, length, get_or, set, take};
ghost use Rattle.definition.specs.Base.{member};
ghost use Rattle.definition.specs.Words.{at};
ghost use Rattle.definition_station.specs.Layout.{sound_station};
ghost use Rattle.callfile.specs.Placed.{Puts};
ghost use Rattle.reportlines.specs.ReportLines.{gone_after};
ghost use Rattle.stationreportlines.specs.StationReportLines.{blocks_text_on};
ghost use Rattle.stationcalls.specs.Parts.{lent_all, Within};
ghost use Rattle.stationrun.specs.StationRuns.{station_by};
ghost use Rattle.stationreport.specs.StationReporting.{places_text, gone_row, gone_by_words, other_line, head_text, left_text};
ghost use Rattle.stationreport.specs.Gathering.{FewHeld, left_from, counts_by, counts_anew};

use crate::blocks;
use consumers::SubRow;
use entry::Row;
use report::Block;
use reportlines::Gone;
use stationcalls::{Sent, Told, ToldOutcome};

// ---- counts

// The counts of a place, from their five words.
pub(crate) fn gone_of(w: [u64; 5]) -> Gone
    ensures { result ≡ gone_by_words w }
{
    Gone {
        dequeued: w[0],
        expired: w[1],
        discarded: w[2],
        dead_lettered: w[3],
        cleared: w[4],
    }
}

fn gone_words(g: Gone) -> [u64; 5]
    ensures { result ≡ gone_row g }
{
    [
        g.dequeued,
        g.expired,
        g.discarded,
        g.dead_lettered,
        g.cleared,
    ]
}

// Five words: nothing is done, this is said for the proofs.
fn sized(w: [u64; 5])
    ensures { length w ≡ 5 }
{}

// An account begins anew: that of the place of a number, or all.
pub(crate) fn begin(gone: &mut [[u64; 5]], number: u64, all: bool)
    requires { length gone.old ≡ 8 }
    ensures { gone.new ≡ counts_anew number all 0 gone.old }
{
    for j in 0..8 {
        if all | (j as u64 == number) {
            gone[j] = [0; 5];
        } else {
            let kept = gone[j];
            sized(kept);
        }
    }
}

// ---- first lines

// Whether one of the first n rows of what is told names this place.
fn names(told: &[Told], n: usize, j: u64) -> bool
    requires { n ≤ length told.now }
    ensures { result ≡ member j (map (at 2) (take n told.now)) }
{
    told.iter().take(n).any(|t| t[2] == j)
}

// The line of another queue at which letters were stored.
fn put_other(
    heads: &[u64],
    subs: &[SubRow],
    rows: &[Row],
    own: &[u64],
    told: &[Told],
    n: usize,
    number: u64,
    j: u64,
    out: &mut [u8],
    at: usize,
) -> usize
    requires { Within 0 heads.now subs.now rows.now × (20 ≤ length own.now) × (n ≤ length told.now) × (at + 256 ≤ length out.old) }
    ensures { Puts (other_line number (take n told.now) (station_by (lent_all heads.now subs.now rows.now own.now) []) j) at out.old result out.new × (result ≤ at + 128) }
{
    if j == number {
        return at;
    }
    if !names(told, n, j) {
        return at;
    }
    if !blocks::is_queue(heads, subs, rows, own, j) {
        return at;
    }
    let w = blocks::ways_at(heads, subs, rows, own, j);
    stationreportlines::put_others(out, at, j, w)
}

// Those of all places.
fn put_others(
    heads: &[u64],
    subs: &[SubRow],
    rows: &[Row],
    own: &[u64],
    told: &[Told],
    n: usize,
    number: u64,
    out: &mut [u8],
    from: usize,
) -> usize
    requires { Within 0 heads.now subs.now rows.now × (20 ≤ length own.now) × (n ≤ length told.now) × (from + 1280 ≤ length out.old) }
    ensures { Puts (places_text (other_line number (take n told.now) (station_by (lent_all heads.now subs.now rows.now own.now) [])) 0 8) from out.old result out.new × (result ≤ from + 1024) }
{
    let mut at = from;
    for j in 0..8 {
        at = put_other(heads, subs, rows, own, told, n, number, j, out, at);
    }
    at
}

// A call's own line, the other queues, what it brought, what was sent, and what became of its dead letters.
pub(crate) fn put_first(
    heads: &[u64],
    subs: &[SubRow],
    rows: &[Row],
    own: &[u64],
    events: &[Sent],
    told: &[Told],
    index: u64,
    number: u64,
    code: u64,
    words: [u64; 8],
    r: ToldOutcome,
    out: &mut [u8],
) -> usize
    requires within { Within 0 heads.now subs.now rows.now × (20 ≤ length own.now) × (1740800 ≤ length out.old) }
    requires events_bound { (r.events ≤ 4872) × (r.events ≤ length events.now) × (r.letters ≤ 512) × (r.letters ≤ length told.now) }
    ensures { Puts (head_text index number code words r.refusal (station_by (lent_all heads.now subs.now rows.now own.now) []) (take r.events events.now) (take r.letters told.now)) 0 out.old result out.new × (result ≤ 690688) }
{
    let w = blocks::ways_at(heads, subs, rows, own, number);
    let queue = blocks::is_queue(heads, subs, rows, own, number);
    let a = stationreportlines::put_turn(out, 0, index, number, code, r.refusal, w);
    let b = put_others(heads, subs, rows, own, told, r.letters, number, out, a);
    let c = stationreportlines::put_brought(out, b, number, r.refusal, code, words, queue);
    let d = stationlines::put_all_sent(out, c, events, r.events);
    stationreportlines::put_told(out, d, number, told, r.letters)
}

// ---- what left

// The lines of what left a place; and its counts.
fn put_place_left(
    heads: &[u64],
    subs: &[SubRow],
    rows: &[Row],
    own: &[u64],
    lists: &[Block],
    counts: &[u64],
    told: &[Told],
    n: usize,
    number: u64,
    code: u64,
    words: [u64; 8],
    j: usize,
    gone: &mut [[u64; 5]],
    out: &mut [u8],
    at: usize,
) -> usize
    requires within { Within j heads.now subs.now rows.now × (20 ≤ length own.now) × (sound_station (lent_all heads.now subs.now rows.now own.now) ≡ true) }
    requires few_held { FewHeld lists.now counts.now × (n ≤ 512) × (n ≤ length told.now) × (length gone.old ≡ 8) × (at + 131456 ≤ length out.old) }
    ensures puts { Puts (blocks_text_on j (left_from (lent_all heads.now subs.now rows.now own.now) lists.now counts.now (take n told.now) number code words j)) at out.old result out.new × (result ≤ at + 131200) }
    ensures gone_after { gone.new ≡ set gone.old j (gone_row (gone_after false (left_from (lent_all heads.now subs.now rows.now own.now) lists.now counts.now (take n told.now) number code words j) (gone_by_words (get_or gone.old j [])))) }
{
    let mut came = [[0u64; 3]; 513];
    let mut left = [[0u64; 3]; 1025];
    let m = blocks::came_at(told, n, j as u64, number, code, words, &mut came);
    let a = j * 512;
    let b = a + 512;
    let had = counts[j] as usize;
    let k = blocks::leave_at(
        heads,
        subs,
        rows,
        own,
        j,
        &lists[a..b],
        had,
        &came,
        m,
        code,
        words,
        &mut left,
    );
    let g = reportlines::gone_after(gone_of(gone[j]), &left, k, false);
    gone[j] = gone_words(g);
    stationreportlines::put_blocks(out, at, j as u64, &left, k)
}

// Those of all places.
pub(crate) fn put_left(
    heads: &[u64],
    subs: &[SubRow],
    rows: &[Row],
    own: &[u64],
    lists: &[Block],
    counts: &[u64],
    told: &[Told],
    n: usize,
    number: u64,
    code: u64,
    words: [u64; 8],
    gone: &mut [[u64; 5]],
    out: &mut [u8],
    from: usize,
) -> usize
    requires within { Within 0 heads.now subs.now rows.now × (20 ≤ length own.now) × (sound_station (lent_all heads.now subs.now rows.now own.now) ≡ true) }
    requires few_held { FewHeld lists.now counts.now × (n ≤ 512) × (n ≤ length told.now) × (length gone.old ≡ 8) × (from + 1049856 ≤ length out.old) }
    ensures puts { Puts (left_text (left_from (lent_all heads.now subs.now rows.now own.now) lists.now counts.now (take n told.now) number code words)) from out.old result out.new × (result ≤ from + 1049600) }
    ensures gone_after { gone.new ≡ counts_by (left_from (lent_all heads.now subs.now rows.now own.now) lists.now counts.now (take n told.now) number code words) 0 gone.old }
{
    let mut at = from;
    for j in 0..8 {
        at = put_place_left(
            heads, subs, rows, own, lists, counts, told, n, number, code, words, j, gone, out, at,
        );
    }
    at
}
