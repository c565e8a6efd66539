// A call as the call file has it, a code and eight words: whether the words are its arguments, and what they hold.
#![tactic(auto)]

ghost use Rattle.std.specs.Prelude.{◌≡◌, true, ◌%◌, ◌≤◌};
ghost use Rattle.words.specs.Words.{int};
ghost use Rattle.entry.specs.Entry.{bit, with_redelivery};
ghost use Rattle.definition.specs.Base.{is_some};
ghost use Rattle.definition.specs.Words.{at, id_in, entry_in, unused_from, decode, open_words};
ghost use Rattle.calls.specs.Calls.{new_call, Words};
ghost use Rattle.calls.specs.Ranges.{enqueues, joins, acks, timed, prefetches, clocked, sweeps};

use entry::{ALLOWANCE_MOST, CALLS_MOST, Entry, SEQ_END, SHARE_MOST, SIZE_END};
use model::Id;

#[repr(C)]
#[derive(Clone, Copy)]
pub struct Call {
    pub code: u64,
    pub words: [u64; 8],
}

impl Call {
    // Numbers, and no enum: the papers and C name the calls by them.
    pub const OPEN: u64 = 0;

    pub const ENQUEUE: u64 = 1;

    pub const JOIN: u64 = 2;

    pub const LEAVE: u64 = 3;

    pub const ACK: u64 = 4;

    pub const PULL: u64 = 5;

    pub const TIMEOUT: u64 = 6;

    pub const PREFETCH: u64 = 7;

    pub const UNMARK: u64 = 8;

    pub const SWEEP: u64 = 9;

    pub const CLEAR: u64 = 10;

    pub const ADD_PRODUCER: u64 = 11;

    pub const REMOVE_PRODUCER: u64 = 12;

    pub const DUPLICATE: u64 = 13;

    pub const RELEASE_AUDITS: u64 = 14;

    pub const RELEASE: u64 = 15;

    pub fn new(code: u64, words: [u64; 8]) -> Call
        ensures { result ≡ new_call code words }
    {
        Call { code, words }
    }

    // Whether the words are those of an open.
    pub fn opens(self) -> bool
        ensures { result ≡ open_words self.words }
    {
        let w = self.words;
        let limits = (w[1] <= 512) & (1 <= w[2]) & (w[2] <= CALLS_MOST);
        let times = (w[3] <= entry::CLOCK_MOST) & (w[4] <= ALLOWANCE_MOST);
        (w[0] <= 1) & limits & times & (w[5] <= SHARE_MOST) & unused(w, 6)
    }

    // Whether the code is one of 1 to 15, and the words are its arguments: in range, and the unused ones 0.
    pub fn in_range(self) -> bool
        ensures { result ≡ is_some (decode self.code self.words) }
    {
        let w = self.words;
        words_fit(w);
        let code = self.code;
        match code {
            Call::ENQUEUE => enqueue_ok(w),
            Call::JOIN => join_ok(w),
            Call::LEAVE | Call::PULL => timed_ok(w),
            Call::ACK => ack_ok(w),
            Call::TIMEOUT | Call::DUPLICATE => unused(w, 4),
            Call::PREFETCH => prefetch_ok(w),
            Call::REMOVE_PRODUCER | Call::RELEASE => clocked_ok(w),
            Call::SWEEP => sweep_ok(w),
            Call::CLEAR => unused(w, 0),
            Call::UNMARK | Call::ADD_PRODUCER => unused(w, 3),
            Call::RELEASE_AUDITS => unused(w, 1),
            _ => false,
        }
    }

    // Words 0 to 2. Not a From, nor the next: which call the words are of is in the name.
    pub fn id_of(self) -> Id
        ensures { result ≡ id_in self.words }
    {
        let w = self.words;
        Id::of_words(w[0], w[1], w[2])
    }

    // The entry of an enqueue. Its redelivery is in the lower half of its word, which is the whole number where the words are in range.
    pub fn entry_of(self) -> Entry
        ensures value { result ≡ with_redelivery (int (at 5 self.words)) (entry_in self.words) }
        ensures value_2 { is_some (decode 1 self.words) ≡ true → result ≡ entry_in self.words }
    {
        let w = self.words;
        words_fit(w);
        Entry {
            seq: w[0],
            expiration: words::signed_of(w[1]),
            producer: w[3],
            match_word: w[4],
            redelivery: words::int_of(w[5]),
            persistent: w[2] == 1,
            size: w[7],
        }
    }
}

// ---- the words of an ack and of a join

// The type byte in an ack's word.
pub fn kind_of(word: u64) -> u8
    ensures { result ≡ word % 256 }
{
    (word % 256) as u8
}

// Bit k of a word of flags.
pub fn flag_of(word: u64, k: u64) -> bool
    ensures { result ≡ bit word k }
{
    k < 64 && (word >> k) & 1 == 1
}

// ---- ranges

// Each word of an array is one: no test, but the fact, for callers' proofs.
pub fn words_fit(w: [u64; 8])
    ensures { Words w }
{}

// The words from a place on are unused.
fn unused(w: [u64; 8], from: usize) -> bool
    requires { from ≤ 8 }
    ensures { result ≡ unused_from from w }
{
    w[from..].iter().all(|word| *word == 0)
}

fn enqueue_ok(w: [u64; 8]) -> bool
    ensures { result ≡ enqueues w }
{
    let seq = w[0];
    let known = (w[2] <= 1) & (1 <= seq) & (seq < SEQ_END);
    known & words::is_int(w[5]) & (w[7] < SIZE_END) & (w[6] <= entry::CLOCK_MOST)
}

fn join_ok(w: [u64; 8]) -> bool
    ensures { result ≡ joins w }
{
    let known = (w[5] <= 3) & unused(w, 7);
    known & words::is_int(w[3]) & (w[4] <= entry::NO_SELECTOR) & (w[6] <= entry::CLOCK_MOST)
}

// The word of an absent first or last is unused.
fn ack_ok(w: [u64; 8]) -> bool
    ensures { result ≡ acks w }
{
    let first = flag_of(w[3], 9) | (w[4] == 0);
    let last = flag_of(w[3], 10) | (w[5] == 0);
    (w[3] < 4096) & first & last & unused(w, 7) & (w[6] <= entry::CLOCK_MOST)
}

// Identifier, any number, clock.
fn timed_ok(w: [u64; 8]) -> bool
    ensures { result ≡ timed w }
{
    unused(w, 5) & (w[4] <= entry::CLOCK_MOST)
}

fn prefetch_ok(w: [u64; 8]) -> bool
    ensures { result ≡ prefetches w }
{
    unused(w, 5) & words::is_int(w[3]) & (w[4] <= entry::CLOCK_MOST)
}

// Identifier, clock.
fn clocked_ok(w: [u64; 8]) -> bool
    ensures { result ≡ clocked w }
{
    unused(w, 4) & (w[3] <= entry::CLOCK_MOST)
}

fn sweep_ok(w: [u64; 8]) -> bool
    ensures { result ≡ sweeps w }
{
    unused(w, 2) & (w[0] <= entry::CLOCK_MOST) & (w[1] <= 512)
}
