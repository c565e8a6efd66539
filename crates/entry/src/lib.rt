// An entry by value (entry.rs) with its size (document 02 §3), and the words of a row: six of the entry, three of its place, and the size.
#![tactic(auto)]

ghost use Rattle.std.specs.Prelude.{◌≡◌};
ghost use Rattle.words.specs.Words.{signed};
ghost use Rattle.entry.specs.Entry.{expired, redelivered, selects, entry_of, row_of};

pub type Row = [u64; 10];

// The place's words in flight. Reserved, they are the consumer's identifier.
pub const DSEQ: usize = 6;

pub const FREED: usize = 7;

pub const TX: usize = 8;

// The selector that stands for none.
pub const NO_SELECTOR: u64 = 64;

// The most rows of a destination.
pub const ROWS: usize = 512;

// No share is above all rows; 0 stands for them.
pub const SHARE_MOST: u64 = 512;

// No clock is above 2^62, no call limit above 2^40, no allowance above a day.
pub const CLOCK_MOST: u64 = 4611686018427387904;

pub const CALLS_MOST: u64 = 1099511627776;

pub const ALLOWANCE_MOST: u64 = 86400000;

// Every sequence number is below 2^63, every size below 2^32.
pub const SEQ_END: u64 = 9223372036854775808;

pub const SIZE_END: u64 = 4294967296;

#[derive(Clone, Copy)]
pub struct Entry {
    pub seq: u64,
    pub expiration: i64,
    pub producer: u64,
    pub match_word: u64,
    pub redelivery: i32,
    pub persistent: bool,
    pub size: u64,
}

impl Entry {
    pub fn expired(self, now: i64) -> bool
        ensures { result ≡ expired now self }
    {
        let at = self.expiration;
        0 < at && at <= now
    }

    // One more delivery.
    pub fn redelivered(self) -> Entry
        ensures { result ≡ redelivered self }
    {
        Entry {
            redelivery: self.redelivery.saturating_add(1),
            ..self
        }
    }
}

// Whether an entry has expired by the clock that a word holds.
pub fn expired_by(e: Entry, clock: u64) -> bool
    ensures { result ≡ expired (signed clock) e }
{
    e.expired(words::signed_of(clock))
}

// Whether a selector accepts the entry with this match word: bit s for selector s.
pub fn selects(match_word: u64, selector: u64) -> bool
    ensures { result ≡ selects match_word selector }
{
    if selector < NO_SELECTOR {
        (match_word >> selector) & 1 == 1
    } else {
        true
    }
}

// Not a From: ten words are rows of several kinds, and the name says which.
pub fn entry_of(row: Row) -> Entry
    ensures { result ≡ entry_of row }
{
    Entry {
        seq: row[0],
        expiration: words::signed_of(row[1]),
        persistent: row[2] != 0,
        producer: row[3],
        match_word: row[4],
        redelivery: words::int_of(row[5]),
        size: row[9],
    }
}

// The row of an entry, with the three words of its place.
fn row_of(e: Entry, a: u64, b: u64, c: u64) -> Row
    ensures { result ≡ row_of e a b c }
{
    [
        e.seq,
        words::word_of(e.expiration),
        e.persistent as u64,
        e.producer,
        e.match_word,
        words::word_of_int(e.redelivery),
        a,
        b,
        c,
        e.size,
    ]
}

// Waiting, pending or in a snapshot.
pub fn held_row(e: Entry) -> Row
    ensures { result ≡ row_of e 0 0 0 }
{
    row_of(e, 0, 0, 0)
}

// Sent with a delivery number, neither freed nor acknowledged in a transaction.
pub fn inflight_row(e: Entry, dseq: u64) -> Row
    ensures { result ≡ row_of e dseq 0 0 }
{
    row_of(e, dseq, 0, 0)
}

// Kept for a consumer that left within a transaction: the three words of its identifier, as the row holds them.
pub fn reserved_row(e: Entry, conn: u64, session: u64, value: u64) -> Row
    ensures { result ≡ row_of e conn session value }
{
    row_of(e, conn, session, value)
}
