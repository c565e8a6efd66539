// An entry fanned out on a topic: a copy for each consumer that accepts it, within the topic limit.
ghost use Rattle.std.specs.Prelude.{◌≡◌, true, false, ◌+◌, ◌≤◌, ◌^◌, length};
ghost use Rattle.std.proofs.Math.Seq.{slice};
ghost use Rattle.engine.specs.Storing.{spread};
ghost use Rattle.engine.specs.Copies.{over_limit, gone_of, trimmed, copied, copied_rows};
ghost use Rattle.engine.specs.Arrivals.{rows_in_order, Arrives, Arrived};

use crate::ordered;
use consumers::{Sub, SubRow};
use entry::{Entry, Row};
use state::Head;

// What goes of a consumer's held rows: those that have expired, and besides them those over the topic limit.
#[derive(Clone, Copy)]
struct Gone {
    expired: usize,
    over: usize,
}

// What a copy for one consumer leaves: the consumer, the rows in use, and what went.
#[derive(Clone, Copy)]
struct Copied {
    sub: Sub,
    used: usize,
    expired: usize,
    over: usize,
}

// How many of n held rows are over the topic limit; 0 is no limit.
fn over_of(limit: u64, n: usize) -> usize
    ensures { result ≡ over_limit limit n }
{
    if limit == 0 {
        return 0;
    }
    if n as u64 <= limit {
        return 0;
    }
    n - limit as usize
}

// Over the topic limit a consumer loses all that have expired, and then its lowest numbers while it is over. Its n held rows begin at from.
fn trim(rows: &mut [Row], from: usize, n: usize, used: usize, limit: u64, by: u64) -> Gone
    requires { (from + n ≤ used) × (used ≤ 513) }
    ensures over_bound { result.expired + result.over ≤ n }
    ensures value { result ≡ gone_of by limit from n used rows.old }
    ensures rows_after { rows.new ≡ trimmed by limit from n used rows.old }
{
    if over_of(limit, n) == 0 {
        return Gone {
            expired: 0,
            over: 0,
        };
    }
    let expired = table::remove_expired(rows, from, from + n, used, by);
    let over = over_of(limit, n - expired);
    table::close_gap(rows, from, over, used - expired);
    Gone { expired, over }
}

// The copy for one consumer, whose rows begin at base, if it accepts the entry.
fn fan_out(
    rows: &mut [Row],
    base: usize,
    mut s: Sub,
    limit: u64,
    used: usize,
    e: Entry,
    by: u64,
) -> Copied
    requires { (base + s.inflight + s.held ≤ used) × (used ≤ 512) × (used ≤ length rows.old) × (rows_in_order (slice (base + s.inflight) (base + s.inflight + s.held) rows.old) ≡ true) }
    ensures value { result ≡ copied by limit e base s used rows.old }
    ensures rows_after { rows.new ≡ copied_rows by limit e base s used rows.old }
{
    if !s.accepts(e) {
        return Copied {
            sub: s,
            used,
            expired: 0,
            over: 0,
        };
    }
    let from = base + s.inflight;
    let place = ordered::place_from_end(rows, from, from + s.held, e.seq);
    table::insert_row(rows, place, used, entry::held_row(e));
    let g = trim(rows, from, s.held + 1, used + 1, limit, by);
    let gone = g.expired + g.over;
    s.held = s.held + 1 - gone;
    Copied {
        sub: s,
        used: used + 1 - gone,
        expired: g.expired,
        over: g.over,
    }
}

// Each consumer in turn; base is where its rows begin. What has expired and what is discarded are counted once for all.
pub(crate) fn fan_out_all(
    subs: &mut [SubRow],
    rows: &mut [Row],
    before: Head,
    e: Entry,
    by: u64,
) -> Head
    requires { Arrives e before subs.old rows.old × (before.queue ≡ false) × (by ≤ 2 ^ 62) }
    ensures { Arrived (spread by e) before result subs.old rows.old subs.new rows.new }
{
    let n = before.consumers;
    let limit = before.topic_limit;
    let mut used = before.used;
    let mut expired = 0;
    let mut over = 0;
    let mut base = 0;
    for i in 0..n {
        let s = consumers::load(subs, i);
        let r = fan_out(rows, base, s, limit, used, e, by);
        let t = r.sub;
        used = r.used;
        expired = expired + r.expired;
        over = over + r.over;
        base = base + t.inflight + t.held;
        consumers::store(subs, i, t);
    }
    let mut d = before;
    d.used = used;
    d.count_expired(expired as u64).count_discarded(over as u64)
}
