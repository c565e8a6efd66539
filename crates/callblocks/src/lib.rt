// Writing blocks of the call file.
#![tactic(auto)]

ghost use Rattle.std.specs.Prelude.{◌≡◌, ◌+◌, ◌%◌, ◌≤◌, length};
ghost use Rattle.callfile.specs.Placed.{Puts};
ghost use Rattle.callblocks.specs.Packed.{low_bytes, word_bytes, with_call, sealed};

use calls::Call;

// The place of the count, and that of the check.
const COUNT: usize = 504;

const CHECK: usize = 508;

fn low(n: u64) -> u8
    ensures { result ≡ n % 256 }
{
    (n % 256) as u8
}

// A number in so many bytes, little-endian.
fn put_bytes(block: &mut [u8], at: usize, size: usize, n: u64) -> usize
    requires { at + size ≤ (length block.old) }
    ensures { Puts (low_bytes size n) at block.old result block.new }
{
    let mut rest = n;
    for b in &mut block[at..at + size] {
        *b = low(rest);
        rest = rest / 256;
    }
    at + size
}

// Eight words.
fn put_words(block: &mut [u8], at: usize, w: [u64; 8]) -> usize
    requires { at + 64 ≤ (length block.old) }
    ensures { Puts (word_bytes w) at block.old result block.new }
{
    let mut next = at;
    for x in &w {
        next = put_bytes(block, next, 8, *x);
    }
    next
}

// Puts call k, from 0 to 6, into a block; into a short one, nothing.
pub fn put_call(block: &mut [u8], k: usize, c: Call)
    ensures { block.new ≡ with_call k c block.old }
{
    if block.len() < callfile::BLOCK {
        return;
    }
    if 6 < k {
        return;
    }
    let code = c.code;
    let words = c.words;
    let next = put_bytes(block, k * callfile::CALL_BYTES, 8, code);
    put_words(block, next, words);
}

// Puts the count and the check, in this order; into a short block, nothing.
pub fn seal(block: &mut [u8], count: u64)
    ensures { block.new ≡ sealed count block.old }
{
    if block.len() < callfile::BLOCK {
        return;
    }
    put_bytes(block, COUNT, 4, count);
    let sum = callfile::block_check(block);
    put_bytes(block, CHECK, 4, sum);
}
