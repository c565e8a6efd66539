// The persistent entries that an acknowledgement rejects, read before it is made: document 02 §1 makes them its dead letters.
#![tactic(auto)]

ghost use Rattle.std.specs.Prelude.{◌≡◌, [], map, ◌≤◌, length, take, Some};
ghost use Rattle.std.proofs.Math.Option.{none};
ghost use Rattle.std.proofs.Math.Seq.{slice};
ghost use Rattle.entry.specs.Entry.{entry_of};
ghost use Rattle.definition.specs.Base.{whether◌then◌else◌, keep};
ghost use Rattle.definition.specs.Types as Def;
ghost use Rattle.definition.specs.Layout.{held_at, view, lent};
ghost use Rattle.definition_station.specs.Letters.{rejected_of};
ghost use Rattle.consumers.specs.Table.{position_from};
ghost use Rattle.state.specs.State.{first_reserved, first_waiting};
ghost use Rattle.state.specs.Fits.{Fits};
ghost use Rattle.acks.specs.Acks.{ack_of};
ghost use Rattle.rejects.specs.Rejects.{rejecting, letters_fit, buffer_rejected, ack_rejected, head_rejected, letter_row, Copied};

use acks::{Ack, Span};
use calls::Call;
use consumers::SubRow;
use entry::{DSEQ, Row};
use model::{AckRange, AckRule, AckType, Id};
use state::Head;

// The mark that an entry is persistent, in a row.
const PERSISTENT: usize = 2;

// ---- which rows

// Whether a row is a dead letter: persistent, and reserved for that consumer with a sequence number of the span; or, of one that is present, with a
// delivery number of it.
fn dies(row: Row, gone: bool, id: Id, p: Span) -> bool
    ensures { result ≡ letter_row gone id p row }
{
    if row[PERSISTENT] == 0 {
        return false;
    }
    if gone {
        return reserved::wanted(row, id, p);
    }
    p.has(row[DSEQ])
}

// Copies those of rows[from..to] to the front of a list, and says how many they are.
fn copy(rows: &[Row], from: usize, to: usize, gone: bool, id: Id, p: Span, out: &mut [Row]) -> usize
    requires { (from ≤ to) × (to ≤ length rows.now) × (to ≤ length out.old) }
    ensures { Copied (map entry_of (keep (letter_row gone id p) (slice from to rows.now))) result out.old out.new }
{
    let mut n = 0;
    for row in &rows[from..to] {
        if dies(*row, gone, id, p) {
            out[n] = *row;
            n += 1;
        }
    }
    n
}

// ---- of an acknowledgement

// Those of the consumer at a place; a browser has none.
fn of_present(
    subs: &[SubRow],
    rows: &[Row],
    d: Head,
    i: usize,
    id: Id,
    a: Ack,
    out: &mut [Row],
) -> usize
    requires { Fits subs.now d (length rows.now) 545 × (512 ≤ length out.old) × (position_from 0 id (take d.consumers subs.now) ≡ Some i) }
    ensures { Copied (head_rejected id (ack_of a) d subs.now rows.now) result out.old out.new }
{
    let s = consumers::load(subs, i);
    if s.browser {
        return 0;
    }
    let base = consumers::base_of(subs, i);
    let end = base + s.inflight;
    let p = acks::span_of(rows, base, end, a, AckRange::Between);
    copy(rows, base, end, false, id, p, out)
}

// Those that are reserved for a consumer that has left; without a last number, none.
fn of_absent(rows: &[Row], d: Head, id: Id, a: Ack, out: &mut [Row]) -> usize
    requires { (first_waiting d ≤ length rows.now) × (first_waiting d ≤ length out.old) }
    ensures { (t : Def.Dest) → t.reserved ≡ map held_at (slice (first_reserved d) (first_waiting d) rows.now) → Copied (rejected_of id (ack_of a) t none) result out.old out.new }
{
    let Some(last) = a.last else {
        return 0;
    };
    let rule = AckRule::of(a.kind);
    let p = reserved::numbers(rule.reserved, a.first, last);
    let from = d.first_reserved();
    let to = d.first_waiting();
    copy(rows, from, to, true, id, p, out)
}

// Those of either.
fn of_ack(subs: &[SubRow], rows: &[Row], d: Head, id: Id, a: Ack, out: &mut [Row]) -> usize
    requires { Fits subs.now d (length rows.now) 545 × (512 ≤ length out.old) }
    ensures { Copied (head_rejected id (ack_of a) d subs.now rows.now) result out.old out.new }
{
    match consumers::position(subs, d.consumers, id) {
        Some(i) => of_present(subs, rows, d, i, id, a, out),
        None => of_absent(rows, d, id, a, out),
    }
}

// Those of lent buffers; none where the numbers do not fit the tables, or the list is short.
fn of_buffers(head: &[u64], subs: &[SubRow], rows: &[Row], id: Id, a: Ack, out: &mut [Row]) -> usize
    ensures { Copied (whether letters_fit (lent head.now subs.now rows.now) (length out.old) then ack_rejected id (ack_of a) (view (lent head.now subs.now rows.now)) else []) result out.old out.new }
{
    if head.len() < state::HEAD_WORDS {
        return 0;
    }
    if out.len() < state::ROWS {
        return 0;
    }
    let d = state::load(head, subs);
    if !state::fits(subs, d, rows.len(), state::EVENTS) {
        return 0;
    }
    of_ack(subs, rows, d, id, a, out)
}

// ---- of a call

// Whether a call is an acknowledgement that rejects: POISON, outside a transaction.
pub fn rejects(c: Call) -> bool
    ensures { result ≡ rejecting c.code c.words }
{
    if c.code != Call::ACK {
        return false;
    }
    let w = c.words;
    let a = acks::ack_of(w);
    if a.transacted {
        return false;
    }
    a.kind == AckType::POISON
}

// Copies the persistent entries that a call would reject, in the order of their `x` events, to the front of a list, and says how many they are: none for
// any other call, where the words are not its arguments, where the numbers do not fit the tables, or where the list has less than 512 rows.
pub fn rejected(head: &[u64], subs: &[SubRow], rows: &[Row], c: Call, out: &mut [Row]) -> usize
    ensures { Copied (buffer_rejected (lent head.now subs.now rows.now) (length out.old) c.code c.words) result out.old out.new }
{
    if !rejects(c) {
        return 0;
    }
    if !c.in_range() {
        return 0;
    }
    let w = c.words;
    let a = acks::ack_of(w);
    of_buffers(head, subs, rows, c.id_of(), a, out)
}
