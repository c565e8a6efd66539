// A consumer by value (`Sub` of destination.rs), the words of its row, and the table of consumers in joining order.
#![tactic(auto)]

ghost use Rattle.std.specs.Prelude.{◌≡◌, [], ◌+◌, ◌-◌, ◌<◌, ◌≤◌, min, length, get_or, set, take};
ghost use Rattle.model.specs.Model.{id_of, same_id};
ghost use Rattle.definition.specs.Base.{tally, all};
ghost use Rattle.definition.specs.Destination as Destination;
ghost use Rattle.definition.specs.Words.{at};
ghost use Rattle.definition.specs.Layout.{id_at, held_at, inflight_count, held_count, sub_rows};
ghost use Rattle.consumers.specs.Consumers.{row_sub, sub_words, credit_of, local_of, accepts_of, sent_of};
ghost use Rattle.consumers.specs.Table.{sixteen, position_from, taken_out, sub_removed, held_back_row, cleared_row, on_first, takes_entry, held_counted, kept_by, kept_rows, fitting};

use entry::{Entry, ROWS, Row};
use model::Id;

pub type SubRow = [u64; 16];

// Here and above, the tables of consumers, rows and events are parameters of their own: a struct of `&mut` slices would ask of each contract
// that its three references are the same as before, and each body would take it apart to lend one of them as `&`.
// Functions on the first n rows take the table and n, not a part of it: where the table is shorter they go to its end, as their contracts say.

// Places in a consumer's row that are read one by one.
pub const BROWSER: usize = 6;

pub const NEXT_DSEQ: usize = 8;

pub const CURSOR: usize = 9;

pub const GENERATION: usize = 12;

pub const FREED: usize = 13;

pub const INFLIGHT: usize = 14;

pub const HELD: usize = 15;

// No counter, delivery number or generation is above 65,536 * 2^40 + 1.
const NUMBER_MOST: u64 = 72057594037927937;

// Above 2^63 a number does not rise.
const RISING_MOST: u64 = 9223372036854775808;

// The identifier is kept as its three words. `pull` is read where `pulling` is set; two fields, as `sub_words` writes both.
#[derive(Clone, Copy)]
pub struct Sub {
    pub conn: u64,
    pub session: u64,
    pub value: u64,
    pub prefetch: u64,
    pub selector: u64,
    pub next_dseq: u64,
    pub cursor: u64,
    pub pull: u64,
    pub generation: u64,
    pub freed: usize,
    pub inflight: usize,
    pub held: usize,
    pub no_local: bool,
    pub browser: bool,
    pub finished: bool,
    pub pulling: bool,
}

impl Sub {
    pub fn id(self) -> Id
        ensures { result ≡ id_of self.conn self.session self.value }
    {
        Id::of_words(self.conn, self.session, self.value)
    }

    // What counts against prefetch.
    fn window(self) -> usize
        ensures { result ≡ self.inflight - self.freed }
    {
        self.inflight.saturating_sub(self.freed)
    }

    pub fn has_credit(self) -> bool
        ensures { result ≡ credit_of self }
    {
        if self.prefetch == 0 {
            return self.pulling;
        }
        (self.window() as u64) < self.prefetch
    }

    // Whether a producer is on its own connection, and it takes nothing from there.
    fn is_local(self, producer: u64) -> bool
        ensures { result ≡ local_of self producer }
    {
        self.no_local && producer != 0 && producer == self.conn
    }

    pub fn accepts(self, e: Entry) -> bool
        ensures { result ≡ accepts_of self e }
    {
        !self.is_local(e.producer) && entry::selects(e.match_word, self.selector)
    }

    // `Sub::send`: one more in flight, and no pull waits. Where a number cannot rise, nothing.
    pub fn sent(self) -> Sub
        ensures { result ≡ sent_of self }
    {
        if RISING_MOST < self.next_dseq || RISING_MOST < self.inflight as u64 {
            return self;
        }
        Sub {
            next_dseq: self.next_dseq + 1,
            inflight: self.inflight + 1,
            pulling: false,
            pull: 0,
            ..self
        }
    }
}

// The end of the first n of a table of this length.
pub fn end_of(n: usize, len: usize) -> usize
    ensures { result ≡ min n len }
{
    n.min(len)
}

// Not a From, nor the next: those would be public, and rows are read and written by `load` and `store` alone.
fn sub_of(w: SubRow) -> Sub
    ensures { result ≡ row_sub w }
{
    Sub {
        conn: w[0],
        session: w[1],
        value: w[2],
        prefetch: w[3],
        selector: w[4],
        no_local: w[5] != 0,
        browser: w[6] != 0,
        finished: w[7] != 0,
        next_dseq: w[8],
        cursor: w[9],
        pulling: w[10] != 0,
        pull: w[11],
        generation: w[12],
        freed: w[13] as usize,
        inflight: w[14] as usize,
        held: w[15] as usize,
    }
}

fn words_of(s: Sub) -> SubRow
    ensures { result ≡ sub_words s }
{
    [
        s.conn,
        s.session,
        s.value,
        s.prefetch,
        s.selector,
        s.no_local as u64,
        s.browser as u64,
        s.finished as u64,
        s.next_dseq,
        s.cursor,
        s.pulling as u64,
        s.pull,
        s.generation,
        s.freed as u64,
        s.inflight as u64,
        s.held as u64,
    ]
}

// The consumer at a place; past the end, one of zeros.
pub fn load(subs: &[SubRow], i: usize) -> Sub
    ensures { result ≡ row_sub (get_or subs.now i []) }
{
    if i < subs.len() {
        sub_of(subs[i])
    } else {
        sub_of([0; 16])
    }
}

// Puts a consumer at a place; past the end, nothing happens.
pub fn store(subs: &mut [SubRow], i: usize, s: Sub)
    ensures { subs.new ≡ set subs.old i (sub_words s) }
{
    if i < subs.len() {
        subs[i] = words_of(s);
    }
}

// Whether a row's identifier has these words.
fn is_id(w: SubRow, conn: u64, session: u64, value: u64) -> bool
    ensures { result ≡ same_id (id_at w) (id_of conn session value) }
{
    w[0] == conn && w[1] == session && w[2] == value
}

// Whether a row is reserved for that consumer.
pub fn is_for(row: Row, id: Id) -> bool
    ensures { result ≡ Destination.held_by id (held_at row) }
{
    Id::of_words(row[6], row[7], row[8]) == id
}

// Where among the first n the consumer with that identifier stands (`position`).
pub fn position(subs: &[SubRow], n: usize, id: Id) -> Option<usize>
    ensures { result ≡ position_from 0 id (take n subs.now) }
{
    let session = words::word_of(id.session);
    let value = words::word_of(id.value);
    subs.iter()
        .take(n)
        .position(|w| is_id(*w, id.conn, session, value))
}

// The sum, or 513 for more than 512.
fn sum_of(a: u64, b: u64) -> usize
    ensures { result ≡ min 513 (a + b) }
{
    a.saturating_add(b).min(ROWS as u64 + 1) as usize
}

// How many rows a consumer has, or 513 for more than 512.
fn rows_of(w: SubRow) -> usize
    ensures { result ≡ min 513 (inflight_count w + held_count w) }
{
    sum_of(w[INFLIGHT], w[HELD])
}

// Where the rows of consumer n begin: the sum over those before it, or 513 for more than 512.
pub fn base_of(subs: &[SubRow], n: usize) -> usize
    ensures { result ≡ min 513 (sub_rows (take n subs.now)) }
{
    let mut base = 0;
    // A loop: it ends where there are more than 512.
    for w in &subs[..end_of(n, subs.len())] {
        base += rows_of(*w);
        if ROWS < base {
            return ROWS + 1;
        }
    }
    base
}

// Takes the consumer at a place out of the first n.
pub fn remove(subs: &mut [SubRow], at: usize, n: usize)
    ensures { subs.new ≡ sub_removed at n subs.old }
{
    if n <= subs.len() && at < n {
        subs.copy_within(at + 1..n, at);
    }
}

// A row with its cursor at most so far.
fn up_to(mut w: SubRow, most: u64) -> SubRow
    ensures { result ≡ set (sixteen w) 9 (min (at 9 w) most) }
{
    w[CURSOR] = w[CURSOR].min(most);
    w
}

// Moves the cursors of the first n consumers back before a sequence number.
pub fn hold_back(subs: &mut [SubRow], n: usize, seq: u64)
    ensures { subs.new ≡ on_first (held_back_row seq) n subs.old }
{
    let most = seq.saturating_sub(1);
    let end = end_of(n, subs.len());
    // A loop of two lines, as in `clear`: a shared function would be no shorter.
    for w in &mut subs[..end] {
        *w = up_to(*w, most);
    }
}

// How many of the first n accept an entry.
pub fn accepting(subs: &[SubRow], n: usize, e: Entry) -> usize
    ensures { result ≡ tally (takes_entry e) (take n subs.now) }
{
    let mut count = 0;
    for w in &subs[..end_of(n, subs.len())] {
        if sub_of(*w).accepts(e) {
            count += 1;
        }
    }
    count
}

// What one consumer holds that is no snapshot of a queue.
fn held_of(w: SubRow, queue: bool) -> u64
    ensures { result ≡ held_counted queue w }
{
    if queue && w[BROWSER] != 0 { 0 } else { w[HELD] }
}

// The same, with what it has in flight; 513 for more than 512.
fn kept_by(w: SubRow, queue: bool) -> usize
    ensures { result ≡ min 513 (kept_by queue w) }
{
    sum_of(w[INFLIGHT], held_of(w, queue))
}

// That of the first n: what `message_count` and `clear` count of the consumers.
pub fn held_rows(subs: &[SubRow], n: usize, queue: bool) -> usize
    ensures { result ≡ min 513 (kept_rows queue (take n subs.now)) }
{
    subs.iter().take(n).fold(
        0,
        |count, w| sum_of(count as u64, kept_by(*w, queue) as u64),
    )
}

// A row with nothing freed, in flight or held.
fn emptied(mut w: SubRow) -> SubRow
    ensures { result ≡ cleared_row w }
{
    w[FREED] = 0;
    w[INFLIGHT] = 0;
    w[HELD] = 0;
    w
}

// Clears the first n consumers.
pub fn clear(subs: &mut [SubRow], n: usize)
    ensures { subs.new ≡ on_first cleared_row n subs.old }
{
    let end = end_of(n, subs.len());
    for w in &mut subs[..end] {
        *w = emptied(*w);
    }
}

// Whether one consumer's counts fit together: freed within in flight, numbers that can still rise.
fn fits(w: SubRow) -> bool
    ensures { result ≡ fitting w }
{
    w[FREED] <= w[INFLIGHT] && w[NEXT_DSEQ] <= NUMBER_MOST && w[GENERATION] <= NUMBER_MOST
}

// Whether the first n do.
pub fn fit(subs: &[SubRow], n: usize) -> bool
    ensures { result ≡ all fitting (take n subs.now) }
{
    subs.iter().take(n).all(|w| fits(*w))
}
