// The station's own numbers in their words: eight open marks, eight names of dead-letter destinations, the next number, the lost count, the memory's
// limit and its flag.
ghost use Rattle.std.specs.Prelude.{◌≡◌, ◌∷◌, ◌++◌, ◌<◌, ◌+◌, ◌≤◌, ◌^◌, length, set, drop, replicate};
ghost use Rattle.definition.specs.Words.{at};
ghost use Rattle.definition.specs.Layout.{flag};
ghost use Rattle.stationcalls.specs.Run.{one_more_lost};
ghost use Rattle.stationcalls.specs.Own.{place_ok, own_words_ok};

pub const OWN: usize = 20;

const NAMES: usize = 8;

const NEXT: usize = 16;

const LOST: usize = 17;

// The names are 0 to 7, and 8 for none.
const NONE: u64 = 8;

// No sequence number is this or above.
pub(crate) const NUMBERS_END: u64 = 9223372036854775808;

// The lost count stops here.
const LOST_MOST: u64 = 9223372036854775807;

pub(crate) fn is_open(own: &[u64], k: usize) -> bool
    requires { k < length own.now }
    ensures { result ≡ flag (at k own.now) }
{
    own[k] != 0
}

pub(crate) fn name(own: &[u64], k: usize) -> u64
    requires { 8 + k < length own.now }
    ensures { result ≡ at (8 + k) own.now }
{
    own[NAMES + k]
}

// One more is lost; the count stops at 2^63 - 1.
pub(crate) fn one_more(lost: u64) -> u64
    ensures { result ≡ one_more_lost lost }
{
    if lost < LOST_MOST { lost + 1 } else { lost }
}

pub(crate) fn next(own: &[u64]) -> u64
    requires { 20 ≤ length own.now }
    ensures { result ≡ at 16 own.now }
{
    own[NEXT]
}

pub(crate) fn lost(own: &[u64]) -> u64
    requires { 20 ≤ length own.now }
    ensures { result ≡ at 17 own.now }
{
    own[LOST]
}

pub(crate) fn set_next(own: &mut [u64], next: u64)
    requires { 20 ≤ length own.old }
    ensures { own.new ≡ set own.old 16 next }
{
    own[NEXT] = next;
}

pub(crate) fn set_lost(own: &mut [u64], lost: u64)
    requires { 20 ≤ length own.old }
    ensures { own.new ≡ set own.old 17 lost }
{
    own[LOST] = lost;
}

// The mark and the name of a destination that is opened.
pub(crate) fn open(own: &mut [u64], k: usize, name: u64)
    requires { (20 ≤ length own.old) × (k < 8) }
    ensures { own.new ≡ set (set own.old k 1) (8 + k) name }
{
    own[k] = 1;
    own[NAMES + k] = name;
}

// Whether a place's mark is 0 or 1, and its name, where the mark is set, 0 to 8.
fn place_ok(own: &[u64], k: usize) -> bool
    requires { (20 ≤ length own.now) × (k < 8) }
    ensures { result ≡ place_ok own.now k }
{
    let mark = own[k];
    if mark == 0 {
        return true;
    }
    if mark != 1 {
        return false;
    }
    own[NAMES + k] <= NONE
}

// Whether the own words are in range.
pub(crate) fn ok(own: &[u64]) -> bool
    requires { 20 ≤ length own.now }
    ensures { result ≡ own_words_ok own.now }
{
    for k in 0..8 {
        if !place_ok(own, k) {
            return false;
        }
    }
    let next = own[NEXT];
    if next < 1 {
        return false;
    }
    if NUMBERS_END < next {
        return false;
    }
    own[LOST] <= LOST_MOST
}

// None is open, the first number is 1, none is lost.
pub(crate) fn start(own: &mut [u64])
    requires { 20 ≤ length own.old }
    ensures { own.new ≡ replicate 16 0 ++ (1 ∷ 0 ∷ drop 18 own.old) }
{
    for k in 0..16 {
        own[k] = 0;
    }
    own[NEXT] = 1;
    own[LOST] = 0;
}
