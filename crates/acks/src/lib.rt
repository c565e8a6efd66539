// An acknowledgement by value, which rows in flight it means, and the dead letters that it leaves (`ack` of destination.rs).
#![tactic(auto)]

ghost use Rattle.std.specs.Prelude.{◌≡◌, length};
ghost use Rattle.std.proofs.Math.Option.{some};
ghost use Rattle.definition.specs.Types.{letter};
ghost use Rattle.definition.specs.Words.{ack_in};
ghost use Rattle.acks.specs.Acks.{maybe_number, ack_of};
ghost use Rattle.acks.specs.Rules.{span_of, number_in, rows_in, span_in};
ghost use Rattle.acks.specs.Parts.{dead_head, dead_events};

use entry::{DSEQ, Entry, Row};
use model::AckRange;
use state::{Event, Head};
pub use table::Span;

// MessageAck: the type's byte, the first and the last number where they are given, whether a cause came with it.
#[derive(Clone, Copy)]
pub struct Ack {
    pub kind: u8,
    pub transacted: bool,
    pub first: Option<u64>,
    pub last: Option<u64>,
    pub cause: bool,
}

// The ack in a call's words. Not a From: eight words are those of any call.
pub fn ack_of(w: [u64; 8]) -> Ack
    ensures { ack_of result ≡ ack_in w }
{
    let flags = w[3];
    let kind = calls::kind_of(flags);
    let transacted = calls::flag_of(flags, 8);
    let has_first = calls::flag_of(flags, 9);
    let has_last = calls::flag_of(flags, 10);
    let cause = calls::flag_of(flags, 11);
    Ack {
        kind,
        transacted,
        first: has_first.then_some(w[4]),
        last: has_last.then_some(w[5]),
        cause,
    }
}

// ---- which rows an ack means

// The delivery number of the row with a sequence number, among the rows from..to in flight.
fn number_of(rows: &[Row], from: usize, to: usize, seq: Option<u64>) -> Option<u64>
    ensures { maybe_number result ≡ number_in (rows_in from to rows.now) (maybe_number seq) }
{
    let i = table::find_seq(rows, from, to, seq?)?;
    Some(rows[i][DSEQ])
}

fn ranged(range: AckRange, first: u64, last: u64) -> Span
    ensures { result ≡ span_of range first (some last) }
{
    match range {
        AckRange::Empty => Span::none(),
        AckRange::Between => Span {
            first: first.min(last),
            last,
        },
        AckRange::Cumulative => Span { first: 0, last },
        AckRange::Last => Span { first: last, last },
    }
}

// `ack_range`, or the last one alone: the delivery numbers that an ack means, among the rows from..to in flight. Outside the table there are none.
pub fn span_of(rows: &[Row], from: usize, to: usize, a: Ack, range: AckRange) -> Span
    ensures { result ≡ span_in range (ack_of a) (rows_in from to rows.now) }
{
    let Some(last) = number_of(rows, from, to, a.last) else {
        return Span::none();
    };
    let first = number_of(rows, from, to, a.first).unwrap_or(0);
    ranged(range, first, last)
}

// ---- what becomes of them

// A dead letter; one that is not persistent is discarded.
pub fn dead(events: &mut [Event], d: Head, e: Entry, cause: bool) -> Head
    ensures { (result ≡ dead_head e.persistent d (length events.old)) × (events.new ≡ dead_events e.persistent d.events (letter e.seq e.redelivery cause) events.old) }
{
    if e.persistent {
        return state::push_letter(events, d, e.seq, e.redelivery, cause);
    }
    d.count_discarded(1)
}
