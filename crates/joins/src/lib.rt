// A consumer that joins (`add_sub` of destination.rs), before the dispatch.
#![tactic(auto)]

ghost use Rattle.std.specs.Prelude.{◌≡◌, true, ◌&&◌, ◌+◌, ◌≤◌, ◌<◌, ◌^◌, leb, length, set};
ghost use Rattle.std.proofs.Math.Seq.{slice};
ghost use Rattle.definition.specs.Base.{tally};
ghost use Rattle.definition.specs.Destination.{joined};
ghost use Rattle.table.specs.Table.{compacted};
ghost use Rattle.consumers.specs.Consumers.{sub_words};
ghost use Rattle.state.specs.Answers.{refusal_of};
ghost use Rattle.state.specs.Fits.{fits};
ghost use Rattle.state.specs.Leaves.{silent, LeavesIf};
ghost use Rattle.joins.specs.Joins.{spec_of, new_of, gone_at, shown_by, snapped, snapshot_of, copied_from, join_refusal, Refused, joins_when, browsed_head, browsed_rows, joined_head, joined_rows, Browses};

use consumers::{Sub, SubRow};
use entry::Row;
use model::{Id, Refusal};
use state::{Event, Head};

// What a consumer asks for. The identifier is kept as its three words, as a consumer's row has them.
#[derive(Clone, Copy)]
pub struct SubSpec {
    pub conn: u64,
    pub session: u64,
    pub value: u64,
    pub prefetch: i32,
    pub selector: u64,
    pub no_local: bool,
    pub browser: bool,
}

// Whether the entry of a row has expired.
fn is_gone(row: Row, by: u64) -> bool
    requires { by ≤ 2 ^ 62 }
    ensures { result ≡ gone_at by row }
{
    entry::entry_of(row).expired(words::signed_of(by))
}

// Whether a selector takes the entry of a row.
fn is_shown(row: Row, selector: u64) -> bool
    ensures { result ≡ shown_by selector row }
{
    let e = entry::entry_of(row);
    entry::selects(e.match_word, selector)
}

// How many of the rows from..to a snapshot gets.
fn count_snapped(rows: &[Row], from: usize, to: usize, selector: u64, by: u64) -> usize
    requires { (from ≤ to) × (to ≤ length rows.now) × (by ≤ 2 ^ 62) }
    ensures { result ≡ tally (snapped by selector) (slice from to rows.now) }
{
    let mut count = 0;
    for row in &rows[from..to] {
        if !is_gone(*row, by) && is_shown(*row, selector) {
            count += 1;
        }
    }
    count
}

// How many rows its snapshot gets.
fn snapshot_rows(rows: &[Row], d: Head, spec: SubSpec, by: u64) -> usize
    requires { (d.waiting ≤ d.used) × (d.used ≤ length rows.now) × (by ≤ 2 ^ 62) }
    ensures { result ≡ snapshot_of by spec d rows.now }
{
    if !spec.browser {
        return 0;
    }
    count_snapped(rows, d.first_waiting(), d.used, spec.selector, by)
}

// Moves together the rows of from..to that have not expired, and says how many are gone.
fn purge(rows: &mut [Row], from: usize, to: usize, by: u64) -> usize
    requires { (from ≤ to) × (to ≤ length rows.old) × (by ≤ 2 ^ 62) }
    ensures value { result ≡ tally (gone_at by) (slice from to rows.old) }
    ensures rows_after { rows.new ≡ compacted (gone_at by) from to rows.old }
{
    table::remove_expired(rows, from, to, to, by)
}

// Copies of the rows of from..to that a selector takes stand from a place on.
fn copy_shown(rows: &mut [Row], from: usize, to: usize, at: usize, selector: u64)
    requires { (at + tally (shown_by selector) (slice from to rows.old) ≤ from) × (from ≤ to) × (to ≤ length rows.old) }
    ensures { rows.new ≡ copied_from at from to selector rows.old }
{
    let mut j = at;
    for i in from..to {
        let row = rows[i];
        if is_shown(row, selector) {
            rows[j] = row;
            j += 1;
        }
    }
}

// A browser's part: the expired waiting rows go, and its snapshot of k rows stands before the reserved ones.
fn browse(rows: &mut [Row], mut d: Head, selector: u64, by: u64, k: usize) -> Head
    requires { Browses by selector k d rows.old }
    ensures { (result ≡ browsed_head by k d rows.old) × (rows.new ≡ browsed_rows by selector k d rows.old) }
{
    let gone = purge(rows, d.first_waiting(), d.used, by);
    d.used = d.used - gone;
    d.waiting = d.waiting - gone;
    d = d.count_expired(gone as u64);
    let at = d.first_reserved();
    table::open_gap(rows, at, k, d.used);
    d.used = d.used + k;
    copy_shown(rows, d.first_waiting(), d.used, at, selector);
    d
}

// `Sub::new`, with so many rows in its snapshot.
fn new_sub(spec: SubSpec, held: usize) -> Sub
    ensures { result ≡ new_of spec held }
{
    Sub {
        conn: spec.conn,
        session: spec.session,
        value: spec.value,
        prefetch: pulls::room(spec.prefetch),
        selector: spec.selector,
        next_dseq: 1,
        cursor: 0,
        pull: 0,
        generation: 0,
        freed: 0,
        inflight: 0,
        held,
        no_local: spec.no_local,
        browser: spec.browser,
        finished: false,
        pulling: false,
    }
}

// The consumer joins, with a snapshot of k rows.
fn admit(
    subs: &mut [SubRow],
    rows: &mut [Row],
    mut d: Head,
    spec: SubSpec,
    by: u64,
    k: usize,
) -> Head
    requires { (d.consumers < 32) × (spec.browser ≡ true → Browses by spec.selector k d rows.old) }
    ensures value { (result ≡ joined_head by spec k d rows.old) × (rows.new ≡ joined_rows by spec k d rows.old) }
    ensures subs_after { subs.new ≡ set subs.old d.consumers (sub_words (new_of spec k)) }
{
    consumers::store(subs, d.consumers, new_sub(spec, k));
    d.consumers = d.consumers + 1;
    d = d.not_idle();
    if spec.browser {
        browse(rows, d, spec.selector, by, k)
    } else {
        d
    }
}

// Whether a consumer may join with so many rows for its snapshot.
fn refusal_of(subs: &[SubRow], d: Head, spec: SubSpec, k: usize) -> Result<(), Refusal>
    ensures { refusal_of result ≡ join_refusal spec subs.now d k }
{
    let id = Id::of_words(spec.conn, spec.session, spec.value);
    match consumers::position(subs, d.consumers, id) {
        Some(_) => Err(Refusal::ConsumerHere),
        None => {
            if state::CONSUMERS <= d.consumers {
                return Err(Refusal::ConsumersFull);
            }
            if d.free_rows() < k {
                return Err(Refusal::RowsFull);
            }
            Ok(())
        }
    }
}

// Whether a consumer may join: refused where it is there, where 32 are there, and for too few free rows. Where the numbers do not fit
// the tables, or the clock is above 2^62, not sound.
pub fn refusal(
    subs: &[SubRow],
    rows: &[Row],
    d: Head,
    spec: SubSpec,
    clock: u64,
) -> Result<(), Refusal>
    ensures { Refused (fits subs.now d (length rows.now) 545 && leb clock (2 ^ 62)) clock spec d subs.now rows.now (refusal_of result) }
{
    let by = d.due(clock);
    if entry::CLOCK_MOST < clock {
        return Err(Refusal::NotSound);
    }
    if !state::fits(subs, d, rows.len(), state::EVENTS) {
        return Err(Refusal::NotSound);
    }
    let k = snapshot_rows(rows, d, spec, by);
    refusal_of(subs, d, spec, k)
}

// A consumer joins; a browser of a queue with its snapshot. Where it may not join, something waits on a topic, the events and the
// snapshot have no room, the numbers do not fit the tables, or the clock is above 2^62, nothing happens.
pub fn join(
    subs: &mut [SubRow],
    rows: &mut [Row],
    events: &[Event],
    d: Head,
    spec: SubSpec,
    clock: u64,
) -> Head
    ensures { LeavesIf (joins_when clock spec subs.old d rows.old (length events.now)) ((result.events + result.used ≤ 512) × (d.stats.expired + d.waiting ≤ 2 ^ 62 → fits subs.new result (length rows.old) (length events.now) ≡ true)) (silent (joined clock (spec_of spec))) d result subs.old rows.old events.now subs.new rows.new events.now }
{
    let by = d.due(clock);
    if entry::CLOCK_MOST < clock {
        return d;
    }
    if !state::fits(subs, d, rows.len(), events.len()) {
        return d;
    }
    let k = snapshot_rows(rows, d, spec, by);
    if refusal_of(subs, d, spec, k).is_err() {
        return d;
    }
    if !(d.queue | (d.waiting == 0)) {
        return d;
    }
    if state::ROWS - d.used - d.events < k {
        return d;
    }
    admit(subs, rows, d, spec, by, k)
}
