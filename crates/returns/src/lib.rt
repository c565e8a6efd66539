// Entries that return to the queue (`remove_sub`, `release_reserved` and `reinsert` of destination.rs, before the dispatch).
#![tactic(auto)]

ghost use Rattle.std.specs.Prelude.{◌≡◌, List, [], ◌∷◌, ◌+◌, ◌-◌, ◌≤◌, ◌<◌, ◌^◌, true, not, ◌&&◌, eqb, ltb, length, take, get_or, Some};
ghost use Rattle.model.specs.Model.{id_of, same_id};
ghost use Rattle.model.specs.declared.Id as Model;
ghost use Rattle.entry.specs.Entry.{entry_of, redelivered};
ghost use Rattle.definition.specs.Base.{whether◌then◌else◌, is_some};
ghost use Rattle.definition.specs.Types.{Audit};
ghost use Rattle.definition.specs.Destination.{sub_of, was_delivered, reinsert, unmarked};
ghost use Rattle.definition.specs.Layout.{held_at, inflight_at, entry_strict};
ghost use Rattle.definition.specs.Layout as Layout;
ghost use Rattle.table.specs.Table.{close_gap, map_rows, unmark_row};
ghost use Rattle.consumers.specs.Table.{position_from};
ghost use Rattle.state.specs.State.{head_view, with_reserved_count, with_used};
ghost use Rattle.state.specs.Fits.{fits, Fits};
ghost use Rattle.state.specs.Leaves.{silent, Leaves, LeavesIf};
ghost use Rattle.returns.specs.Returns.{held_for, given_back, reserves, gives, departed, dropped_head, freed, in_bounds};
ghost use Rattle.returns.specs.Gaps.{Open, Placed, Moves, Gap, GaveBack};

use consumers::{Sub, SubRow};
use entry::{Entry, Row};
use model::Id;
use state::{Event, Head};

// ---- one row

// The row of an entry that waits.
fn waiting_row(e: Entry) -> Row
    ensures { (entry_of result ≡ e) × (entry_strict result ≡ true) }
{
    entry::held_row(e)
}

// The row of an entry that is reserved for a consumer.
fn reserved_row(e: Entry, s: Sub) -> Row
    ensures { (held_at result ≡ held_for (id_of s.conn s.session s.value) e) × (entry_strict result ≡ true) }
{
    entry::reserved_row(e, s.conn, s.session, s.value)
}

// Whether the row at a place is a waiting one with that number.
fn waits_at(rows: &[Row], place: usize, used: usize, seq: u64) -> bool
    requires { used ≤ length rows.now }
    ensures { result ≡ (ltb place used && eqb (get_or (get_or rows.now place []) 0 0) seq) }
{
    place < used && rows[place][0] == seq
}

// The row at a place before the waiting ones goes to its number's place among them; one that waits with the same number is replaced.
fn put_row(rows: &mut [Row], from: usize, mut d: Head, e: Entry) -> Head
    requires { Open from d (length rows.old) }
    ensures { Placed from e d result rows.old rows.new }
{
    let row = waiting_row(e);
    let place = table::place_of(rows, d.first_waiting(), d.used, e.seq);
    if waits_at(rows, place, d.used, e.seq) {
        rows[place] = row;
        table::close_gap(rows, from, 1, d.used);
        d.used = d.used - 1;
        return d;
    }
    table::close_gap(rows, from, 1, place);
    rows[place - 1] = row;
    d.waiting = d.waiting + 1;
    d
}

// `reinsert` of an entry whose row stands at a place before the waiting ones.
fn put_back(
    subs: &mut [SubRow],
    rows: &mut [Row],
    from: usize,
    mut d: Head,
    e: Entry,
    clock: u64,
) -> Head
    requires { Open from d (length rows.old) × (clock ≤ 2 ^ 62) }
    ensures moves { Moves from (reinsert clock (e ∷ [])) d result subs.old rows.old subs.new rows.new }
    ensures reserved_value { result.reserved ≡ d.reserved }
{
    let by = d.due(clock);
    if entry::expired_by(e, by) {
        table::close_gap(rows, from, 1, d.used);
        d.used = d.used - 1;
        return d.count_expired(1);
    }
    consumers::hold_back(subs, d.consumers, e.seq);
    put_row(rows, from, d, e)
}

// The row at a place goes to the end of the reserved ones.
fn reserve(rows: &mut [Row], from: usize, mut d: Head, e: Entry, s: Sub) -> Head
    requires { Open from d (length rows.old) × (d.reserved < 2 ^ 63) }
    ensures { (subs : List Layout.Row) → Moves from (reserves (held_for (id_of s.conn s.session s.value) e)) d result subs rows.old subs rows.new }
{
    let end = d.first_waiting();
    table::close_gap(rows, from, 1, end);
    rows[end - 1] = reserved_row(e, s);
    d.reserved = d.reserved + 1;
    d
}

// last_delivered < 0 || e.seq <= last_delivered
fn was_delivered(last: i64, e: Entry) -> bool
    ensures { result ≡ was_delivered last e }
{
    last < 0 || e.seq <= last as u64
}

// An entry as it goes back to the queue.
fn given_back(last: i64, e: Entry) -> Entry
    ensures { result ≡ given_back last e }
{
    if was_delivered(last, e) {
        return e.redelivered();
    }
    e
}

// ---- a consumer leaves

// One row that the leaving consumer had in flight: reserved for its transaction, or back on the queue.
fn give_one(
    subs: &mut [SubRow],
    rows: &mut [Row],
    base: usize,
    s: Sub,
    d: Head,
    last: i64,
    clock: u64,
) -> Head
    requires { Open base d (length rows.old) × (d.reserved < 2 ^ 63) × (clock ≤ 2 ^ 62) }
    ensures { Moves base (gives clock last (id_of s.conn s.session s.value) (inflight_at (get_or rows.old base []))) d result subs.old rows.old subs.new rows.new }
{
    let row = rows[base];
    let e = entry::entry_of(row);
    if row[entry::TX] != 0 {
        return reserve(rows, base, d, e, s);
    }
    put_back(subs, rows, base, d, given_back(last, e), clock)
}

// All that it had in flight, from base on.
fn give_back(
    subs: &mut [SubRow],
    rows: &mut [Row],
    base: usize,
    s: Sub,
    before: Head,
    last: i64,
    clock: u64,
) -> Head
    requires { Gap base s.inflight before subs.old rows.old × (clock ≤ 2 ^ 62) }
    ensures { GaveBack clock last (id_of s.conn s.session s.value) base s.inflight before result subs.old rows.old subs.new rows.new }
{
    let mut d = before;
    for _ in 0..s.inflight {
        d = give_one(subs, rows, base, s, d, last, clock);
    }
    d
}

// Rows go.
fn forget(rows: &mut [Row], at: usize, k: usize, mut d: Head) -> Head
    requires { k ≤ d.used }
    ensures value { result ≡ with_used (d.used - k) d }
    ensures rows_after { rows.new ≡ close_gap at k d.used rows.old }
{
    table::close_gap(rows, at, k, d.used);
    d.used = d.used - k;
    d
}

// One consumer less, and the turn is below the number left, or 0.
fn dropped(mut d: Head) -> Head
    requires { 0 < d.consumers }
    ensures { result ≡ dropped_head d }
{
    d.consumers = d.consumers - 1;
    if d.consumers <= d.turn {
        d.turn = 0;
        return d;
    }
    d
}

// Whether what a consumer had in flight returns: of a queue's that is no browser.
fn returning(queue: bool, browser: bool) -> bool
    ensures { result ≡ (queue && not browser) }
{
    queue && !browser
}

// The consumer at a place goes, and what it held; of a queue's that is no browser, what was in flight returns.
fn leave_at(
    subs: &mut [SubRow],
    rows: &mut [Row],
    before: Head,
    i: usize,
    last: i64,
    clock: u64,
) -> Head
    requires { Fits subs.old before (length rows.old) 545 × (i < before.consumers) × (clock ≤ 2 ^ 62) }
    ensures { ((id : Model.Id) (events : List Layout.Row) → position_from 0 id (take before.consumers subs.old) ≡ Some i → Leaves (silent (departed clock id last)) before result subs.old rows.old events subs.new rows.new events) × (result.events + result.used ≤ 512) }
{
    let base = consumers::base_of(subs, i);
    let s = consumers::load(subs, i);
    consumers::remove(subs, i, before.consumers);
    let d = dropped(before);
    if !returning(d.queue, s.browser) {
        return forget(rows, base, s.inflight + s.held, d);
    }
    let g = forget(rows, base + s.inflight, s.held, d);
    give_back(subs, rows, base, s, g, last, clock)
}

// Whether a consumer is there.
pub fn is_present(subs: &[SubRow], d: Head, id: Id) -> bool
    ensures { (rows : List Layout.Row) (producers : List Model.Id) (audits : List Audit) → result ≡ is_some (sub_of id (head_view d subs.now rows producers audits)) }
{
    let found = consumers::position(subs, d.consumers, id);
    match found {
        Some(_) => true,
        None => false,
    }
}

// A consumer leaves, where it is there: `remove_sub` before `touch_idle` and the dispatch. Of numbers that do not fit the tables, or with
// a clock above 2^62, nothing happens.
pub fn leave(
    subs: &mut [SubRow],
    rows: &mut [Row],
    events: &[Event],
    d: Head,
    id: Id,
    last: i64,
    clock: u64,
) -> Head
    ensures { LeavesIf (in_bounds clock subs.old d (length rows.old) (length events.now)) (result.events + result.used ≤ 512) (silent (departed clock id last)) d result subs.old rows.old events.now subs.new rows.new events.now }
{
    if entry::CLOCK_MOST < clock {
        return d;
    }
    if !state::fits(subs, d, rows.len(), events.len()) {
        return d;
    }
    let found = consumers::position(subs, d.consumers, id);
    match found {
        Some(i) => leave_at(subs, rows, d, i, last, clock),
        None => d,
    }
}

// ---- the marks of a transaction go

// The transaction is over for a consumer whose rows begin at base, if it has that identifier.
fn unmark_one(rows: &mut [Row], base: usize, s: Sub, id: Id)
    requires { base + s.inflight ≤ 512 }
    ensures { rows.new ≡ (whether same_id (id_of s.conn s.session s.value) id then map_rows unmark_row base (base + s.inflight) rows.old else rows.old) }
{
    if s.id() == id {
        table::unmark(rows, base, base + s.inflight);
    }
}

// And for all consumers with it.
fn unmark_all(subs: &[SubRow], rows: &mut [Row], d: Head, id: Id)
    requires { Fits subs.now d (length rows.old) 545 }
    ensures { (events : List Layout.Row) → Leaves (silent (unmarked id)) d d subs.now rows.old events subs.now rows.new events }
{
    let mut base = 0;
    for i in 0..d.consumers {
        let s = consumers::load(subs, i);
        unmark_one(rows, base, s, id);
        base += s.inflight + s.held;
    }
}

// The transaction marks of a present consumer go: the first half of `release_reserved`. Of numbers that do not fit the tables, nothing
// happens.
pub fn unmark(subs: &[SubRow], rows: &mut [Row], events: &[Event], d: Head, id: Id)
    ensures { LeavesIf (fits subs.now d (length rows.old) (length events.now)) (Unit {0}) (silent (unmarked id)) d d subs.now rows.old events.now subs.now rows.new events.now }
{
    if !state::fits(subs, d, rows.len(), events.len()) {
        return;
    }
    unmark_all(subs, rows, d, id);
}

// ---- what was reserved is released

// A reserved row returns to the queue.
fn release_row(subs: &mut [SubRow], rows: &mut [Row], at: usize, mut d: Head, clock: u64) -> Head
    requires { Open at d (length rows.old) × (0 < d.reserved) × (clock ≤ 2 ^ 62) }
    ensures moves { Moves at (reinsert clock (redelivered (entry_of (get_or rows.old at [])) ∷ [])) (with_reserved_count (d.reserved - 1) d) result subs.old rows.old subs.new rows.new }
    ensures reserved_value { result.reserved ≡ d.reserved - 1 }
{
    let e = entry::entry_of(rows[at]).redelivered();
    d.reserved = d.reserved - 1;
    put_back(subs, rows, at, d, e, clock)
}

// All rows that are reserved for a consumer return.
fn release_rows(subs: &mut [SubRow], rows: &mut [Row], before: Head, id: Id, clock: u64) -> Head
    requires { Fits subs.old before (length rows.old) 545 × (clock ≤ 2 ^ 62) }
    ensures { ((events : List Layout.Row) → Leaves (silent (freed clock id)) before result subs.old rows.old events subs.new rows.new events) × (result.events + result.used ≤ 512) }
{
    let mut d = before;
    let mut i = before.first_reserved();
    for _ in 0..before.reserved {
        if consumers::is_for(rows[i], id) {
            d = release_row(subs, rows, i, d, clock);
        } else {
            i += 1;
        }
    }
    d
}

// What was reserved for a consumer returns to the queue: the second half of `release_reserved`, before the dispatch. Of numbers that do
// not fit the tables, or with a clock above 2^62, nothing happens.
pub fn release(
    subs: &mut [SubRow],
    rows: &mut [Row],
    events: &[Event],
    d: Head,
    id: Id,
    clock: u64,
) -> Head
    ensures { LeavesIf (in_bounds clock subs.old d (length rows.old) (length events.now)) (result.events + result.used ≤ 512) (silent (freed clock id)) d result subs.old rows.old events.now subs.new rows.new events.now }
{
    if entry::CLOCK_MOST < clock {
        return d;
    }
    if !state::fits(subs, d, rows.len(), events.len()) {
        return d;
    }
    release_rows(subs, rows, d, id, clock)
}
