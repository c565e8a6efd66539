// 64-bit words as signed numbers, two's complement.
#![tactic(auto)]

ghost use Rattle.std.specs.Prelude.{◌≡◌, ◌<◌};
ghost use Rattle.words.specs.Words.{signed, unsigned, int, is_int};

// From 2^63 on, a word holds a negative i64.
pub const NEGATIVE: u64 = 9223372036854775808;

// The word that holds -1: the last one, 2^64 - 1.
pub const MINUS_ONE: u64 = 18446744073709551615;

// The words that are the lower half of one.
const HALF: u64 = 4294967296;

// From 2^31 on, such a half holds a negative i32.
const NEGATIVE_INT: u64 = 2147483648;

// The word that holds the least i32, -2^31.
const LEAST_INT: u64 = 18446744071562067968;

// The i64 that a word holds. Std's cast with the contract that the definitions have; so too those below.
pub fn signed_of(w: u64) -> i64
    ensures { result ≡ signed w }
{
    w.cast_signed()
}

// The word that holds an i64.
pub fn word_of(x: i64) -> u64
    ensures { result ≡ unsigned x }
{
    x.cast_unsigned()
}

// The i32 in the lower half of a word.
pub fn int_of(w: u64) -> i32
    ensures { result ≡ int w }
{
    ((w % HALF) as u32).cast_signed()
}

// Whether the i64 that a word holds is an i32.
pub fn is_int(w: u64) -> bool
    ensures { result ≡ is_int w }
{
    w < NEGATIVE_INT || LEAST_INT <= w
}

// The word that holds an i32.
pub fn word_of_int(x: i32) -> u64
    ensures { result ≡ unsigned x }
{
    word_of(x as i64)
}

// A byte as a word: u64::from with the bound that callers need beside it.
pub fn wide(b: u8) -> u64
    ensures { (result ≡ b) × (result < 256) }
{
    b as u64
}
