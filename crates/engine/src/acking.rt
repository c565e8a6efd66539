// An acknowledgement of a consumer that is present (`ack` of destination.rs, before the dispatch).
ghost use Rattle.std.specs.Prelude.{◌≡◌, true, false, List, map, ◌+◌, ◌<◌, ◌≤◌, length, take, Some};
ghost use Rattle.std.proofs.Math.Seq.{slice};
ghost use Rattle.model.specs.declared.Id.{Id};
ghost use Rattle.model.specs.declared.AckEffect.TheVariants.{Removes};
ghost use Rattle.model.specs.declared.AckCount.TheVariants.{DeadLetter};
ghost use Rattle.definition.specs.Base.{whether◌then◌else◌, all, tally};
ghost use Rattle.definition.specs.Consumer.{free, redeliver, ack_sub};
ghost use Rattle.definition.specs.Layout.{Row, inflight_at};
ghost use Rattle.consumers.specs.Table.{position_from};
ghost use Rattle.state.specs.State.{kind_by};
ghost use Rattle.state.specs.Fits.{Fits};
ghost use Rattle.state.specs.Leaves.{Leaves, Room};
ghost use Rattle.acks.specs.Acks.{ack_of, acked};
ghost use Rattle.acks.specs.Rules.{in_span, silently, acts, removed_counts, removed_events};
ghost use Rattle.acks.specs.Parts.{full_row, Own, Dying, Told, Acted};

use acks::{Ack, Span};
use consumers::{Sub, SubRow};
use entry::{DSEQ, Row};
use model::{AckCount, AckEffect, AckRange, AckRule};
use state::{Event, Head};

// What an ack leaves of its consumer and of the destination.
#[derive(Clone, Copy)]
struct Acked {
    sub: Sub,
    head: Head,
}

// ---- what becomes of them

fn sized(row: Row)
    ensures { full_row row ≡ true }
{}

// Each row of from..to has all its words: nothing is done, this is said for the proofs.
fn full_rows(rows: &[Row], from: usize, to: usize)
    requires { (from ≤ to) × (to ≤ length rows.now) }
    ensures { all full_row (slice from to rows.now) ≡ true }
{
    for i in from..to {
        sized(rows[i]);
    }
}

// Those rows are freed, with tx as acknowledged in a transaction.
fn mark(rows: &mut [Row], base: usize, mut s: Sub, d: Head, p: Span, tx: bool) -> Acked
    requires { Own (length rows.old) base s d }
    ensures { (events : List Row) → Acted (silently (free (in_span p) tx)) (kind_by d.queue) base s result.sub d result.head rows.old events rows.new events }
{
    let end = base + s.inflight;
    full_rows(rows, base, end);
    let fresh = table::mark_range(rows, base, end, p, tx);
    s.freed = s.freed + fresh;
    Acked { sub: s, head: d }
}

// The redelivery counters of those rows rise.
fn raise(rows: &mut [Row], base: usize, s: Sub, d: Head, p: Span) -> Acked
    requires { Own (length rows.old) base s d }
    ensures { (events : List Row) → Acted (silently (redeliver (in_span p))) (kind_by d.queue) base s result.sub d result.head rows.old events rows.new events }
{
    let end = base + s.inflight;
    full_rows(rows, base, end);
    table::redeliver_range(rows, base, end, p);
    Acked { sub: s, head: d }
}

// The dead letters of the rows from..to, in their order.
fn letters(
    rows: &[Row],
    events: &mut [Event],
    from: usize,
    to: usize,
    before: Head,
    p: Span,
    cause: bool,
) -> Head
    requires { Dying (length rows.now) (length events.old) from to before }
    ensures { Told (removed_counts DeadLetter false (in_span p) (map inflight_at (slice from to rows.now))) (removed_events DeadLetter false cause (in_span p) (map inflight_at (slice from to rows.now))) (tally (in_span p) (map inflight_at (slice from to rows.now))) before result events.old events.new }
{
    let mut d = before;
    for i in from..to {
        let row = rows[i];
        if p.has(row[DSEQ]) {
            d = acks::dead(events, d, entry::entry_of(row), cause);
        }
    }
    d
}

// What those rows count as when they are removed. A browser's count as nothing.
fn count(
    rows: &[Row],
    events: &mut [Event],
    base: usize,
    s: Sub,
    d: Head,
    p: Span,
    counts: AckCount,
    cause: bool,
) -> Head
    requires { Own (length rows.now) base s d × (545 ≤ length events.old) }
    ensures { Told (removed_counts counts s.browser (in_span p) (map inflight_at (slice base (base + s.inflight) rows.now))) (removed_events counts s.browser cause (in_span p) (map inflight_at (slice base (base + s.inflight) rows.now))) (tally (in_span p) (map inflight_at (slice base (base + s.inflight) rows.now))) d result events.old events.new }
{
    if s.browser {
        return d;
    }
    let end = base + s.inflight;
    match counts {
        AckCount::Uncounted => d,
        AckCount::Dequeue => {
            let k = table::count_range(rows, base, end, p);
            d.count_dequeued(k as u64)
        }
        AckCount::Expiry => {
            let k = table::count_range(rows, base, end, p);
            d.count_expired(k as u64)
        }
        AckCount::DeadLetter => letters(rows, events, base, end, d, p, cause),
    }
}

// `remove_inflight` of those rows, counted.
fn remove(
    rows: &mut [Row],
    events: &mut [Event],
    base: usize,
    mut s: Sub,
    d: Head,
    p: Span,
    counts: AckCount,
    cause: bool,
) -> Acked
    requires { Own (length rows.old) base s d × (545 ≤ length events.old) }
    ensures { Acted (acts Removes counts cause (in_span p)) (kind_by d.queue) base s result.sub d result.head rows.old events.old rows.new events.new }
{
    let mut r = count(rows, events, base, s, d, p, counts, cause);
    let end = base + s.inflight;
    let out = table::remove_range(rows, base, end, d.used, p);
    s.inflight = s.inflight - out.rows;
    s.freed = s.freed.saturating_sub(out.freed);
    r.used = r.used - out.rows;
    Acked { sub: s, head: r }
}

// The effect of an ack on the rows of its span.
fn act(
    rows: &mut [Row],
    events: &mut [Event],
    base: usize,
    s: Sub,
    d: Head,
    p: Span,
    effect: AckEffect,
    counts: AckCount,
    cause: bool,
) -> Acked
    requires { Own (length rows.old) base s d × (545 ≤ length events.old) }
    ensures { Acted (acts effect counts cause (in_span p)) (kind_by d.queue) base s result.sub d result.head rows.old events.old rows.new events.new }
{
    match effect {
        AckEffect::Stays => Acked { sub: s, head: d },
        AckEffect::Frees => mark(rows, base, s, d, p, false),
        AckEffect::Marks => mark(rows, base, s, d, p, true),
        AckEffect::Removes => remove(rows, events, base, s, d, p, counts, cause),
        AckEffect::Redelivers => raise(rows, base, s, d, p),
    }
}

// ---- the ack

// Which entries an ack's type means, outside a transaction or in one.
fn range_of(rule: AckRule, transacted: bool) -> AckRange
    ensures { result ≡ (whether transacted then rule.tx_range else rule.range) }
{
    if transacted {
        return rule.tx_range;
    }
    rule.range
}

// And what it does to them.
fn effect_of(rule: AckRule, transacted: bool) -> AckEffect
    ensures { result ≡ (whether transacted then rule.tx_effect else rule.effect) }
{
    if transacted {
        return rule.tx_effect;
    }
    rule.effect
}

// An ack of one consumer, whose rows begin at base: what its type says, outside a transaction or in one.
fn ack_one(rows: &mut [Row], events: &mut [Event], base: usize, s: Sub, d: Head, a: Ack) -> Acked
    requires { Own (length rows.old) base s d × (545 ≤ length events.old) }
    ensures { Acted (ack_sub (ack_of a)) (kind_by d.queue) base s result.sub d result.head rows.old events.old rows.new events.new }
{
    let rule = AckRule::of(a.kind);
    let end = base + s.inflight;
    let counts = rule.counts;
    let range = range_of(rule, a.transacted);
    let effect = effect_of(rule, a.transacted);
    let p = acks::span_of(rows, base, end, a, range);
    act(rows, events, base, s, d, p, effect, counts, a.cause)
}

// An ack of the consumer at a place.
pub(crate) fn ack_at(
    subs: &mut [SubRow],
    rows: &mut [Row],
    events: &mut [Event],
    d: Head,
    i: usize,
    a: Ack,
) -> Head
    requires { Fits subs.old d (length rows.old) (length events.old) × (i < d.consumers) }
    ensures { (id : Id) → position_from 0 id (take d.consumers subs.old) ≡ Some i → Leaves (acked id (ack_of a)) d result subs.old rows.old events.old subs.new rows.new events.new × Room d result }
{
    let base = consumers::base_of(subs, i);
    let s = consumers::load(subs, i);
    let r = ack_one(rows, events, base, s, d, a);
    let t = r.sub;
    consumers::store(subs, i, t);
    r.head
}
