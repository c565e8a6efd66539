// A line of the list: a name and numbers, with one space between.
ghost use Rattle.std.specs.Prelude.{◌≡◌, ◌+◌, ◌≤◌, length, drop};
ghost use Rattle.leafcases.specs.Parse.{next_digit, digits_of, positive, negative, spelled, word_length, same_bytes, kind_named, numbers_wanted, wrong_line, zeros, words_after, values_of, kind_with, parsed_line, line_in};

use words::word_of;

// Functions, and what begins an audit. Bad is no None: a bad line is counted too.
#[derive(Clone, Copy)]
pub(crate) enum Kind {
    Expired,
    Redelivered,
    AdmitMemory,
    ApplyExpiryOptions,
    AuditNew,
    Audit,
    Bad,
}

// The most numbers of a line.
const MOST: usize = 9;

// The greatest number that one more digit may follow: ten times the next is past 2^63.
const FULL: u64 = 922337203685477580;

#[derive(Clone, Copy)]
pub(crate) struct Line {
    pub values: [u64; 9],
    pub kind: Kind,
}

// The numbers of a line, as words that hold them.
#[derive(Clone, Copy)]
pub(crate) struct Values {
    pub values: [u64; 9],
    pub count: usize,
}

// One more digit.
fn next_digit(before: u64, byte: u8) -> Option<u64>
    ensures { result ≡ next_digit before byte }
{
    if byte < b'0' || b'9' < byte || FULL < before {
        return None;
    }
    Some(before * 10 + (words::wide(byte) - 48))
}

// The digits of a number, without its sign.
fn digits_of(s: &[u8]) -> Option<u64>
    ensures { result ≡ digits_of s.now }
{
    if s.is_empty() {
        return None;
    }
    let mut value = 0;
    for byte in s {
        value = next_digit(value, *byte)?;
    }
    Some(value)
}

fn positive(v: u64) -> Option<i64>
    ensures { result ≡ positive v }
{
    if v < 9223372036854775808 {
        Some(v as i64)
    } else {
        None
    }
}

fn negative(v: u64) -> Option<i64>
    ensures { result ≡ negative v }
{
    if v == 0 {
        Some(0)
    } else if v <= 9223372036854775808 {
        Some(-1 - ((v - 1) as i64))
    } else {
        None
    }
}

// The i64 that the text spells.
pub(crate) fn number_of(s: &[u8]) -> Option<i64>
    ensures { result ≡ spelled s.now }
{
    if s.is_empty() {
        return None;
    }
    if s[0] == b'-' {
        return negative(digits_of(&s[1..])?);
    }
    positive(digits_of(s)?)
}

// Where the word that starts here ends: at a space, or at the end.
pub(crate) fn word_end(s: &[u8], from: usize) -> usize
    requires { from ≤ length s.now }
    ensures { result ≡ from + word_length (drop from s.now) }
{
    for i in from..s.len() {
        if s[i] == b' ' {
            return i;
        }
    }
    s.len()
}

fn same_bytes(a: &[u8], b: &[u8]) -> bool
    ensures { result ≡ same_bytes a.now b.now }
{
    a == b
}

pub(crate) fn kind_of(name: &[u8]) -> Kind
    ensures { result ≡ kind_named name.now }
{
    if same_bytes(name, b"expired") {
        return Kind::Expired;
    }
    if same_bytes(name, b"redelivered") {
        return Kind::Redelivered;
    }
    if same_bytes(name, b"admit_memory") {
        return Kind::AdmitMemory;
    }
    if same_bytes(name, b"apply_expiry_options") {
        return Kind::ApplyExpiryOptions;
    }
    if same_bytes(name, b"audit_new") {
        return Kind::AuditNew;
    }
    if same_bytes(name, b"audit") {
        return Kind::Audit;
    }
    Kind::Bad
}

// How many numbers a line of this kind has.
pub(crate) fn wanted(k: Kind) -> usize
    ensures { result ≡ numbers_wanted k }
{
    match k {
        Kind::Expired => 3,
        Kind::Redelivered => 2,
        Kind::AdmitMemory => 6,
        Kind::ApplyExpiryOptions => 9,
        Kind::AuditNew => 0,
        Kind::Audit => 2,
        Kind::Bad => 0,
    }
}

// The numbers from the space on that stands here.
fn values_from(s: &[u8], from: usize) -> Option<Values>
    ensures { result ≡ values_of (words_after from s.now) zeros 0 }
{
    let mut values = [0u64; 9];
    let mut count = 0;
    let mut at = from;
    // A while: a turn goes on to the end of a word.
    while at < s.len() {
        let start = at + 1;
        at = word_end(s, start);
        let v = number_of(&s[start..at])?;
        if MOST <= count {
            return None;
        }
        values[count] = word_of(v);
        count += 1;
    }
    Some(Values { values, count })
}

fn bad_line() -> Line
    ensures { result ≡ wrong_line }
{
    Line {
        values: [0; 9],
        kind: Kind::Bad,
    }
}

// The kind, if the numbers are as many as it wants.
fn kind_with(kind: Kind, count: usize) -> Kind
    ensures { result ≡ kind_with kind count }
{
    if count == wanted(kind) {
        kind
    } else {
        Kind::Bad
    }
}

pub(crate) fn parsed(s: &[u8]) -> Line
    ensures { result ≡ parsed_line s.now }
{
    let end = word_end(s, 0);
    let kind = kind_of(&s[..end]);
    let Some(v) = values_from(s, end) else {
        return bad_line();
    };
    let values = v.values;
    Line {
        values,
        kind: kind_with(kind, v.count),
    }
}

// The line in the first n bytes; bad where it was cut.
pub(crate) fn line_of(buffer: &[u8], n: usize, cut: bool) -> Line
    ensures { result ≡ line_in buffer.now n cut }
{
    if cut || buffer.len() < n {
        return bad_line();
    }
    parsed(&buffer[..n])
}
