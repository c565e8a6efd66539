// Two functions of mod.rs: the memory limit, and what becomes of an expiration on arrival.
#![tactic(auto)]

ghost use Rattle.std.specs.Prelude.{◌≡◌, true, ◌≤◌};
ghost use Rattle.broker.specs.Broker.{memory_most, time_most, setting_most, below_nine_tenths, room_for, admit_memory, from_zero_to, Positive, times_in_range, settings_in_range, times_and_settings_ok, ttl, rebased, base_of, stamp, defaulted, capped, times_expired, apply_expiry_options};

const MEMORY_MOST: u64 = 1152921504606846976;

const TIME_MOST: i64 = 4611686018427387904;

const SETTING_MOST: i64 = 2305843009213693952;

// A number is outside its range.
#[derive(Clone, Copy, PartialEq, Eq)]
pub struct OutOfRange;

impl OutOfRange {
    // Its number in the papers.
    pub const NUMBER: u64 = 3;
}

impl From<OutOfRange> for u64 {
    ghost from_gives = { λ _ n. n ≡ 3 };

    fn from(_e: OutOfRange) -> u64 {
        OutOfRange::NUMBER
    }
}

// Whether the message is admitted, and the flag.
#[derive(Clone, Copy)]
pub struct Admission {
    pub admitted: bool,
    pub limited: bool,
}

// limit * 9 / 10, as the Rust has it.
fn below_nine_tenths(used: u64, limit: u64) -> bool
    requires { limit ≤ memory_most }
    ensures { result ≡ below_nine_tenths used limit }
{
    used < limit * 9 / 10
}

fn room_for(limit: u64, used: u64, size: u64) -> Admission
    requires { (used ≤ memory_most) × (size ≤ memory_most) }
    ensures { result ≡ room_for limit used size }
{
    if limit < used + size {
        Admission {
            admitted: false,
            limited: true,
        }
    } else {
        Admission {
            admitted: true,
            limited: false,
        }
    }
}

pub fn admit_memory(
    limit: u64,
    limited: bool,
    used: u64,
    size: u64,
) -> Result<Admission, OutOfRange>
    ensures { result ≡ admit_memory limit limited used size }
{
    if MEMORY_MOST < limit || MEMORY_MOST < used || MEMORY_MOST < size {
        return Err(OutOfRange);
    }
    if limit == 0 {
        return Ok(Admission {
            admitted: true,
            limited,
        });
    }
    if limited && !below_nine_tenths(used, limit) {
        return Ok(Admission {
            admitted: false,
            limited: true,
        });
    }
    Ok(room_for(limit, used, size))
}

// What a message carries of time.
#[derive(Clone, Copy)]
pub struct Times {
    pub expiration: i64,
    pub timestamp: i64,
}

// The broker's settings for expirations.
#[derive(Clone, Copy)]
pub struct ExpiryOptions {
    pub default_ttl: i64,
    pub ttl_ceiling: i64,
    pub use_broker_clock: bool,
}

// The message's times, and whether it is not yet expired.
#[derive(Clone, Copy)]
pub struct Arrival {
    pub times: Times,
    pub live: bool,
}

fn within(x: i64, most: i64) -> bool
    ensures { result ≡ from_zero_to x most }
{
    0 <= x && x <= most
}

fn times_in_range(t: Times) -> bool
    ensures { result ≡ times_in_range t }
{
    t.expiration <= TIME_MOST && t.timestamp <= TIME_MOST
}

fn settings_in_range(o: ExpiryOptions) -> bool
    ensures { result ≡ settings_in_range o }
{
    within(o.default_ttl, SETTING_MOST) && within(o.ttl_ceiling, SETTING_MOST)
}

fn in_range(o: ExpiryOptions, t: Times, now: i64) -> bool
    ensures { result ≡ times_and_settings_ok o t now }
{
    times_in_range(t) && settings_in_range(o) && within(now, TIME_MOST)
}

// The ttl is expiration less timestamp, and a negative one counts as 0.
fn ttl(t: Times) -> i64
    requires { Positive t.expiration × Positive t.timestamp }
    ensures { result ≡ ttl t }
{
    let left = t.expiration - t.timestamp;
    if left < 0 { 0 } else { left }
}

// 1. Broker clock: a message that carries a timestamp is rebased.
fn rebased(o: ExpiryOptions, t: Times, now: i64) -> Times
    requires { times_and_settings_ok o t now ≡ true }
    ensures { result ≡ rebased o t now }
{
    if o.use_broker_clock && 0 < t.expiration && 0 < t.timestamp {
        return Times {
            expiration: now + ttl(t),
            timestamp: now,
        };
    }
    t
}

fn base_of(o: ExpiryOptions, t: Times, now: i64) -> i64
    ensures { result ≡ base_of o t now }
{
    if 0 < t.timestamp && !o.use_broker_clock {
        t.timestamp
    } else {
        now
    }
}

// The timestamp of a message that gets the default ttl.
fn stamp(o: ExpiryOptions, t: Times, now: i64) -> i64
    ensures { result ≡ stamp o t now }
{
    if o.use_broker_clock { now } else { t.timestamp }
}

// 2. Default ttl, from the timestamp or, on the broker clock, from the arrival.
fn defaulted(o: ExpiryOptions, t: Times, base: i64, now: i64) -> Times
    requires { (from_zero_to base time_most ≡ true) × (from_zero_to o.default_ttl setting_most ≡ true) }
    ensures { result ≡ defaulted o t base now }
{
    if t.expiration == 0 && 0 < o.default_ttl {
        return Times {
            expiration: base + o.default_ttl,
            timestamp: stamp(o, t, now),
        };
    }
    t
}

// 3. Ceiling.
fn capped(o: ExpiryOptions, t: Times, base: i64) -> Times
    requires { (from_zero_to base time_most ≡ true) × (from_zero_to o.ttl_ceiling setting_most ≡ true) }
    ensures { result ≡ capped o t base }
{
    if 0 < o.ttl_ceiling && 0 < t.expiration {
        let cap = base + o.ttl_ceiling;
        if cap < t.expiration {
            return Times {
                expiration: cap,
                ..t
            };
        }
    }
    t
}

fn expired(t: Times, now: i64) -> bool
    ensures { result ≡ times_expired t now }
{
    0 < t.expiration && t.expiration <= now
}

pub fn apply_expiry_options(o: ExpiryOptions, t: Times, now: i64) -> Result<Arrival, OutOfRange>
    ensures { result ≡ apply_expiry_options o t now }
{
    if !in_range(o, t, now) {
        return Err(OutOfRange);
    }
    let a = rebased(o, t, now);
    let base = base_of(o, a, now);
    let b = defaulted(o, a, base, now);
    let c = capped(o, b, base);
    Ok(Arrival {
        times: c,
        live: !expired(c, now),
    })
}
