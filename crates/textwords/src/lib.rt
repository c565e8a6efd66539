// Text in words and numbers.
#![tactic(auto)]

ghost use Rattle.std.specs.Prelude.{◌≡◌, ◌+◌, Some, drop};
ghost use Rattle.textwords.specs.Text.{stops, run, blank, same_text, has_mark};
ghost use Rattle.textwords.specs.Numbers.{unsigned_of, negated, number_of};

const SPACE: u8 = 32;

const TAB: u8 = 9;

const RETURN: u8 = 13;

const NEW_LINE: u8 = 10;

const REMARK: u8 = 35;

// What a scan stops at: what parts words, a word, a remark, the end of a line.
#[derive(Clone, Copy)]
pub enum Stop {
    Blank,
    Word,
    Remark,
    LineEnd,
}

// ---- words

fn is_blank(b: u8) -> bool
    ensures { result ≡ blank b }
{
    (b == SPACE) | ((b == TAB) | (b == RETURN))
}

fn stops_at(s: Stop, b: u8) -> bool
    ensures { result ≡ stops s b }
{
    match s {
        Stop::Blank => is_blank(b),
        Stop::Word => !is_blank(b),
        Stop::Remark => b == REMARK,
        Stop::LineEnd => b == NEW_LINE,
    }
}

// The first place from `at` on that stops a scan, or the end.
pub fn scan(text: &[u8], at: usize, s: Stop) -> usize
    ensures { result ≡ at + run s (drop at text.now) }
{
    let Some(rest) = text.get(at..) else {
        return at;
    };
    at + rest
        .iter()
        .position(|b| stops_at(s, *b))
        .unwrap_or(rest.len())
}

pub fn same(a: &[u8], b: &[u8]) -> bool
    ensures { result ≡ same_text a.now b.now }
{
    a == b
}

// Whether a text begins with a byte order mark, which some editors put there.
pub fn has_mark(text: &[u8]) -> bool
    ensures { result ≡ has_mark text.now }
{
    text.starts_with(&[239, 187, 191])
}

// ---- numbers

// The number of a text of digits.
fn unsigned(s: &[u8]) -> Option<u64>
    ensures { result ≡ unsigned_of s.now }
{
    if s.is_empty() {
        return None;
    }
    let mut n: u64 = 0;
    for b in s {
        let d = match *b {
            b'0'..=b'9' => *b - b'0',
            _ => return None,
        };
        n = n.checked_mul(10)?.checked_add(u64::from(d))?;
    }
    Some(n)
}

// Less than nothing by n.
fn negative(n: u64) -> Option<u64>
    ensures { result ≡ negated (Some n) }
{
    if words::NEGATIVE < n {
        return None;
    }
    Some(n.wrapping_neg())
}

// A word of text as a number of 64 bits, negative after a minus.
pub fn number_of(s: &[u8]) -> Option<u64>
    ensures { result ≡ number_of s.now }
{
    match s.strip_prefix(b"-") {
        Some(rest) => negative(unsigned(rest)?),
        None => unsigned(s),
    }
}
