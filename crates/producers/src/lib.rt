// Producers and their audits, in the head's words (`producers` and `audit` of destination.rs, `State`).
#![tactic(auto)]

ghost use Rattle.std.specs.Prelude.{◌≡◌, ◌+◌, ◌*◌, ◌≤◌, ◌<◌, length, drop, MatchOption};
ghost use Rattle.std.proofs.Math.Seq.{slice};
ghost use Rattle.definition.specs.Calls.{adding, removing, testing, forgetting};
ghost use Rattle.state.specs.Answers.{told};
ghost use Rattle.producers.specs.Groups.{has_id, goes, stays, first_of, kept_count, written_from, packed, id_words, new_words};
ghost use Rattle.producers.specs.Producers.{head_fits, head_left, added, producer_removed, checked_at, tested, released, Promised};

use audit::Audit;
use model::{Id, Refusal};
use state::{Answer, Answered, Head};

// The producers' identifiers, three words each.
const PRODUCER_TABLE: usize = 17;

const PRODUCER_WORDS: usize = 3;

const PRODUCERS: usize = 32;

// The audits: identifier, start, count, window.
const AUDIT_TABLE: usize = 113;

const AUDIT_WORDS: usize = 1029;

const AUDITS: usize = 8;

// Whether a head of so many words has them all, and the counts are within their tables.
fn fits(words: usize, d: Head) -> bool
    ensures { result ≡ head_fits words d }
{
    state::HEAD_WORDS <= words && d.producers <= PRODUCERS && d.audits <= AUDITS
}

// ---- groups of words, each of which begins with an identifier

// Whether the group at a place has an identifier.
fn same_at(head: &[u64], at: usize, id: Id) -> bool
    requires { at + 3 ≤ length head.now }
    ensures { result ≡ has_id id (drop at head.now) }
{
    Id::of_words(head[at], head[at + 1], head[at + 2]) == id
}

// Whether it is to go: the whole identifier is the same, or its connection.
fn goes_at(head: &[u64], at: usize, id: Id, whole: bool) -> bool
    requires { at + 3 ≤ length head.now }
    ensures { result ≡ goes whole id (drop at head.now) }
{
    if whole {
        return same_at(head, at, id);
    }
    head[at] == id.conn
}

// Which of n groups is the first with an identifier.
fn find(head: &[u64], at: usize, width: usize, n: usize, id: Id) -> Option<usize>
    requires { (3 ≤ width) × (at + n * width ≤ length head.now) }
    ensures { MatchOption result (n ≡ first_of (has_id id) width n (drop at head.now)) (λ k. (k < n) × (k ≡ first_of (has_id id) width n (drop at head.now))) }
{
    let mut from = at;
    for k in 0..n {
        if same_at(head, from, id) {
            return Some(k);
        }
        from += width;
    }
    None
}

// Of n groups those that stay stand one after the other, in order; how many there are.
fn pack(head: &mut [u64], at: usize, width: usize, n: usize, id: Id, whole: bool) -> usize
    requires { (3 ≤ width) × (at + n * width ≤ length head.old) }
    ensures { (result ≡ kept_count (stays whole id) width n (drop at head.old)) × (head.new ≡ packed (stays whole id) at width n head.old) }
{
    let mut from = at;
    let mut to = at;
    let mut kept = 0;
    for _ in 0..n {
        let next = from + width;
        if !goes_at(head, from, id, whole) {
            head.copy_within(from..next, to);
            to += width;
            kept += 1;
        }
        from = next;
    }
    kept
}

fn put_id(head: &mut [u64], at: usize, id: Id)
    requires { at + 3 ≤ length head.old }
    ensures { head.new ≡ written_from at (id_words id) head.old }
{
    let session = words::word_of(id.session);
    let value = words::word_of(id.value);
    head[at..at + 3].copy_from_slice(&[id.conn, session, value]);
}

// ---- producers

// Registers a producer. Refused with 8; where the numbers do not fit the head, with 2.
pub fn add_producer(head: &mut [u64], mut d: Head, id: Id) -> Answer
    ensures { Promised (adding id) (added id d head.old) d head.old (told d result) head.new }
{
    if !fits(head.len(), d) {
        return Err(Refusal::NotSound);
    }
    let n = d.producers;
    let known = find(head, PRODUCER_TABLE, PRODUCER_WORDS, n, id);
    if known.is_some() {
        return Ok(Answered {
            answer: 0,
            head: d.not_idle(),
        });
    }
    if PRODUCERS <= n {
        return Err(Refusal::ProducersFull);
    }
    put_id(head, PRODUCER_TABLE + n * PRODUCER_WORDS, id);
    d.producers = n + 1;
    Ok(Answered {
        answer: 0,
        head: d.not_idle(),
    })
}

// Takes a producer and its audit away. Where the numbers do not fit the head, refused with 2.
pub fn remove_producer(head: &mut [u64], mut d: Head, id: Id, clock: u64) -> Answer
    ensures { Promised (removing id clock) (producer_removed clock id d head.old) d head.old (told d result) head.new }
{
    if !fits(head.len(), d) {
        return Err(Refusal::NotSound);
    }
    let n = d.producers;
    let m = d.audits;
    d.producers = pack(head, PRODUCER_TABLE, PRODUCER_WORDS, n, id, true);
    d.audits = pack(head, AUDIT_TABLE, AUDIT_WORDS, m, id, true);
    Ok(Answered {
        answer: 0,
        head: d.touch_idle(clock),
    })
}

// ---- audits

// `check_and_record` on the audit at a place.
fn check_at(head: &mut [u64], d: Head, k: usize, number: u64) -> Answer
    requires { (k < 8) × (8347 ≤ length head.old) }
    ensures { head_left (told d result) head.new ≡ checked_at k number d head.old }
{
    let at = AUDIT_TABLE + k * AUDIT_WORDS;
    let a = Audit {
        start: head[at + 3] as usize,
        count: head[at + 4] as usize,
    };
    let from = at + 5;
    let to = at + AUDIT_WORDS;
    let r = audit::check_and_record(&mut head[from..to], a, number);
    if r.refusal != 0 {
        return Err(Refusal::NotSound);
    }
    let b = r.audit;
    head[at + 3] = b.start as u64;
    head[at + 4] = b.count as u64;
    Ok(Answered {
        answer: r.duplicate as u64,
        head: d,
    })
}

// A new audit at the end of the table.
fn new_audit(head: &mut [u64], k: usize, id: Id)
    requires { (k < 8) × (8347 ≤ length head.old) }
    ensures { head.new ≡ written_from (113 + k * 1029) (new_words id) head.old }
{
    let at = AUDIT_TABLE + k * AUDIT_WORDS;
    let a = Audit::new();
    put_id(head, at, id);
    head[at + 3] = a.start as u64;
    head[at + 4] = a.count as u64;
}

// Whether a producer already sent a number lately; connection 0 is no producer. Refused with 8; where the numbers or an
// audit do not fit the head, with 2.
pub fn is_duplicate(head: &mut [u64], mut d: Head, id: Id, number: u64) -> Answer
    ensures { Promised (testing id number) (tested id number d head.old) d head.old (told d result) head.new }
{
    if !fits(head.len(), d) {
        return Err(Refusal::NotSound);
    }
    if id.conn == 0 {
        return Ok(Answered { answer: 0, head: d });
    }
    let n = d.audits;
    if let Some(k) = find(head, AUDIT_TABLE, AUDIT_WORDS, n, id) {
        return check_at(head, d, k, number);
    }
    if AUDITS <= n {
        return Err(Refusal::ProducersFull);
    }
    new_audit(head, n, id);
    d.audits = n + 1;
    check_at(head, d, n, number)
}

// Forgets the audits of a connection. Where the numbers do not fit the head, refused with 2.
pub fn release_audits(head: &mut [u64], mut d: Head, conn: u64) -> Answer
    ensures { Promised (forgetting conn) (released conn d head.old) d head.old (told d result) head.new }
{
    if !fits(head.len(), d) {
        return Err(Refusal::NotSound);
    }
    let n = d.audits;
    let of = Id::new(conn, 0, 0);
    d.audits = pack(head, AUDIT_TABLE, AUDIT_WORDS, n, of, false);
    Ok(Answered { answer: 0, head: d })
}
