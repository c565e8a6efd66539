// The entries that are reserved for a consumer that has left, and their acknowledgement (`ack_reserved` of destination.rs).
#![tactic(auto)]

ghost use Rattle.std.specs.Prelude.{◌≡◌, false, List, ◌≤◌, length};
ghost use Rattle.std.proofs.Math.Seq.{slice};
ghost use Rattle.definition.specs.Base.{keep, tally};
ghost use Rattle.definition.specs.Consumer.{add_discarded};
ghost use Rattle.definition.specs.Destination.{ack_reserved};
ghost use Rattle.definition.specs.Layout.{Row};
ghost use Rattle.table.specs.Table.{remove_rows};
ghost use Rattle.state.specs.Fits.{fits, Fits};
ghost use Rattle.state.specs.Leaves.{Leaves, LeavesIf, Room};
ghost use Rattle.acks.specs.Acks.{maybe_number, ack_of};
ghost use Rattle.acks.specs.Parts.{Dying, Told, row_letters, row_discards};
ghost use Rattle.reserved.specs.Reserved.{has_reserved, wants_row, wanted_of, told_counts, told_events, counted_head, taking, Holding};

use acks::{Ack, Span};
use consumers::SubRow;
use entry::Row;
use model::{AckCount, AckRange, AckRule, Id};
use state::{Event, Head};

// Whether a row is reserved for that consumer, and has a number of the span.
pub fn wanted(row: Row, id: Id, p: Span) -> bool
    ensures { result ≡ wants_row id p row }
{
    consumers::is_for(row, id) && p.has(row[0])
}

// Whether a consumer has reserved entries; no, where the counts do not lie within the rows.
pub fn has_reserved(rows: &[Row], d: Head, id: Id) -> bool
    ensures { result ≡ has_reserved d id rows.now }
{
    let to = d.first_waiting();
    if rows.len() < to {
        return false;
    }
    rows[d.first_reserved()..to]
        .iter()
        .any(|row| consumers::is_for(*row, id))
}

// ---- an acknowledgement

// The sequence numbers that an ack means, by its first number, where it has one, and its last.
pub fn numbers(range: AckRange, first: Option<u64>, last: u64) -> Span
    ensures { result ≡ wanted_of range (maybe_number first) last }
{
    match range {
        AckRange::Empty => Span::none(),
        AckRange::Between => Span {
            first: first.unwrap_or(0),
            last,
        },
        AckRange::Cumulative => Span { first: 0, last },
        AckRange::Last => Span { first: last, last },
    }
}

// The dead letters of the rows from..to, in their order. The cause is not the client's.
fn letters(
    rows: &[Row],
    events: &mut [Event],
    from: usize,
    to: usize,
    before: Head,
    id: Id,
    p: Span,
) -> Head
    requires { Dying (length rows.now) (length events.old) from to before }
    ensures { Told (add_discarded (row_discards (wants_row id p) (slice from to rows.now))) (row_letters false (keep (wants_row id p) (slice from to rows.now))) (tally (wants_row id p) (slice from to rows.now)) before result events.old events.new }
{
    let mut d = before;
    for row in &rows[from..to] {
        if wanted(*row, id, p) {
            d = acks::dead(events, d, entry::entry_of(*row), false);
        }
    }
    d
}

// What is told before the rows go: dead letters, where they are that.
fn tell(
    rows: &[Row],
    events: &mut [Event],
    from: usize,
    to: usize,
    d: Head,
    id: Id,
    p: Span,
    counts: AckCount,
) -> Head
    requires { Dying (length rows.now) (length events.old) from to d }
    ensures { Told (told_counts counts (wants_row id p) (slice from to rows.now)) (told_events counts (keep (wants_row id p) (slice from to rows.now))) (tally (wants_row id p) (slice from to rows.now)) d result events.old events.new }
{
    match counts {
        AckCount::Uncounted | AckCount::Dequeue | AckCount::Expiry => d,
        AckCount::DeadLetter => letters(rows, events, from, to, d, id, p),
    }
}

// Takes them out of the n used rows.
fn remove(rows: &mut [Row], from: usize, to: usize, n: usize, id: Id, p: Span) -> usize
    requires { (from ≤ to) × (to ≤ n) × (n ≤ length rows.old) }
    ensures value { result ≡ tally (wants_row id p) (slice from to rows.old) }
    ensures rows_after { rows.new ≡ remove_rows (wants_row id p) from to n rows.old }
{
    table::remove_where(rows, from, to, n, |row| wanted(*row, id, p))
}

// What so many count as when they have gone; dead letters are told.
fn counted(d: Head, counts: AckCount, gone: usize) -> Head
    ensures { result ≡ counted_head counts gone d }
{
    match counts {
        AckCount::Uncounted | AckCount::DeadLetter => d,
        AckCount::Dequeue => d.count_dequeued(gone as u64),
        AckCount::Expiry => d.count_expired(gone as u64),
    }
}

// The reserved entries of that consumer with a number of the span go.
fn take_out(
    rows: &mut [Row],
    events: &mut [Event],
    d: Head,
    id: Id,
    p: Span,
    counts: AckCount,
) -> Head
    requires { Holding (length rows.old) (length events.old) d }
    ensures { (subs : List Row) → Fits subs d (length rows.old) (length events.old) → Leaves (taking id counts p) d result subs rows.old events.old subs rows.new events.new × Room d result }
{
    let from = d.first_reserved();
    let to = d.first_waiting();
    let mut r = tell(rows, events, from, to, d, id, p, counts);
    let gone = remove(rows, from, to, d.used, id, p);
    r.reserved = r.reserved - gone;
    r.used = r.used - gone;
    counted(r, counts, gone)
}

// An ack of a consumer's reserved entries. Without a last number, or where the numbers do not fit the tables, nothing happens.
pub fn ack_reserved(
    subs: &[SubRow],
    rows: &mut [Row],
    events: &mut [Event],
    d: Head,
    id: Id,
    a: Ack,
) -> Head
    ensures { LeavesIf (fits subs.now d (length rows.old) (length events.old)) (Room d result) (λ t. ack_reserved id (ack_of a) t (ack_of a).last) d result subs.now rows.old events.old subs.now rows.new events.new }
{
    if !state::fits(subs, d, rows.len(), events.len()) {
        return d;
    }
    let Some(last) = a.last else {
        return d;
    };
    let rule = AckRule::of(a.kind);
    let p = numbers(rule.reserved, a.first, last);
    take_out(rows, events, d, id, p, rule.counts)
}
