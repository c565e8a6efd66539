// A case against the leaf functions, and what is counted.
ghost use Rattle.std.specs.Prelude.{◌≡◌};
ghost use Rattle.leafcases.specs.Compare.{no_count, no_counts, new_run, counted_case, counted_as, entry_with, flag_is, expired_same, redelivered_same, admission_same, admit_memory_same, arrival_same, apply_expiry_options_same, duplicate_same, Replayed, audit_compared, compared};

use crate::parse::Kind;
use audit::{Audit, Checked};
use broker::{Admission, Arrival, ExpiryOptions, OutOfRange, Times};
use entry::Entry;
use stats::more_of;
use words::{int_of, is_int, signed_of, word_of, word_of_int};

#[derive(Clone, Copy)]
pub(crate) struct Count {
    pub cases: u64,
    pub differ: u64,
}

#[derive(Clone, Copy)]
pub(crate) struct Counts {
    pub expired: Count,
    pub redelivered: Count,
    pub admit_memory: Count,
    pub apply_expiry_options: Count,
    pub audit: Count,
    pub audits: u64,
    pub bad: u64,
}

// Where the run stands: the audit of the cases, the lines so far, how many were named, the bytes of the line, whether it was
// cut, and whether there is more to read.
#[derive(Clone, Copy)]
pub(crate) struct Run {
    pub counts: Counts,
    pub audit: Audit,
    pub lines: u64,
    pub shown: u64,
    pub len: usize,
    pub over: bool,
    pub reading: bool,
}

// What a line showed, and the audit after it.
#[derive(Clone, Copy)]
pub(crate) struct Tested {
    pub audit: Audit,
    pub same: bool,
}

impl Count {
    fn new() -> Count
        ensures { result ≡ no_count }
    {
        Count {
            cases: 0,
            differ: 0,
        }
    }

    fn with(self, same: bool) -> Count
        ensures { result ≡ counted_case self same }
    {
        if same {
            Count {
                cases: more_of(self.cases),
                ..self
            }
        } else {
            Count {
                cases: more_of(self.cases),
                differ: more_of(self.differ),
            }
        }
    }
}

impl Counts {
    fn new() -> Counts
        ensures { result ≡ no_counts }
    {
        let none = Count::new();
        Counts {
            expired: none,
            redelivered: none,
            admit_memory: none,
            apply_expiry_options: none,
            audit: none,
            audits: 0,
            bad: 0,
        }
    }

    pub(crate) fn with(self, kind: Kind, same: bool) -> Counts
        ensures { result ≡ counted_as self kind same }
    {
        match kind {
            Kind::Expired => Counts {
                expired: self.expired.with(same),
                ..self
            },
            Kind::Redelivered => Counts {
                redelivered: self.redelivered.with(same),
                ..self
            },
            Kind::AdmitMemory => Counts {
                admit_memory: self.admit_memory.with(same),
                ..self
            },
            Kind::ApplyExpiryOptions => Counts {
                apply_expiry_options: self.apply_expiry_options.with(same),
                ..self
            },
            Kind::Audit => Counts {
                audit: self.audit.with(same),
                ..self
            },
            Kind::AuditNew => Counts {
                audits: more_of(self.audits),
                ..self
            },
            Kind::Bad => Counts {
                bad: more_of(self.bad),
                ..self
            },
        }
    }
}

impl Run {
    pub(crate) fn new() -> Run
        ensures { result ≡ new_run }
    {
        Run {
            counts: Counts::new(),
            audit: Audit::new(),
            lines: 0,
            shown: 0,
            len: 0,
            over: false,
            reading: true,
        }
    }
}

fn entry_with(expiration: i64, redelivery: i32) -> Entry
    ensures { result ≡ entry_with expiration redelivery }
{
    Entry {
        seq: 1,
        expiration,
        producer: 0,
        match_word: 0,
        redelivery,
        persistent: false,
        size: 0,
    }
}

// Whether a flag of the list, 0 or 1, says this.
fn flag_is(b: bool, x: u64) -> bool
    ensures { result ≡ flag_is b x }
{
    if b { x == 1 } else { x == 0 }
}

fn expired_same(v: [u64; 9]) -> bool
    ensures { result ≡ expired_same v }
{
    let e = entry_with(signed_of(v[0]), 0);
    flag_is(e.expired(signed_of(v[1])), v[2])
}

fn redelivered_same(v: [u64; 9]) -> bool
    ensures { result ≡ redelivered_same v }
{
    let before = v[0];
    if !is_int(before) {
        return false;
    }
    let e = entry_with(0, int_of(before)).redelivered();
    word_of_int(e.redelivery) == v[1]
}

fn admission_same(a: Result<Admission, OutOfRange>, admitted: u64, limited: u64) -> bool
    ensures { result ≡ admission_same a admitted limited }
{
    let Ok(a) = a else {
        return false;
    };
    flag_is(a.admitted, admitted) && flag_is(a.limited, limited)
}

fn admit_memory_same(v: [u64; 9]) -> bool
    ensures { result ≡ admit_memory_same v }
{
    let limited = v[1] == 1;
    if !flag_is(limited, v[1]) {
        return false;
    }
    let a = broker::admit_memory(v[0], limited, v[2], v[3]);
    admission_same(a, v[4], v[5])
}

fn arrival_same(a: Result<Arrival, OutOfRange>, live: u64, expiration: u64, timestamp: u64) -> bool
    ensures { result ≡ arrival_same a live expiration timestamp }
{
    let Ok(a) = a else {
        return false;
    };
    if !flag_is(a.live, live) {
        return false;
    }
    word_of(a.times.expiration) == expiration && word_of(a.times.timestamp) == timestamp
}

fn apply_expiry_options_same(v: [u64; 9]) -> bool
    ensures { result ≡ apply_expiry_options_same v }
{
    let clock = v[0] == 1;
    if !flag_is(clock, v[0]) {
        return false;
    }
    let o = ExpiryOptions {
        default_ttl: signed_of(v[1]),
        ttl_ceiling: signed_of(v[2]),
        use_broker_clock: clock,
    };
    let t = Times {
        expiration: signed_of(v[3]),
        timestamp: signed_of(v[4]),
    };
    let a = broker::apply_expiry_options(o, t, signed_of(v[5]));
    arrival_same(a, v[6], v[7], v[8])
}

fn duplicate_same(c: Checked, duplicate: u64) -> bool
    ensures { result ≡ duplicate_same c duplicate }
{
    if c.refusal != 0 {
        return false;
    }
    flag_is(c.duplicate, duplicate)
}

fn audit_compared(window: &mut [u64], audit: Audit, v: [u64; 9]) -> Tested
    ensures { ◌≡◌ {A = Replayed} (record { tested = result; words = window.new }) (audit_compared audit v window.old) }
{
    let c = audit::check_and_record(window, audit, v[0]);
    let after = c.audit;
    Tested {
        audit: after,
        same: duplicate_same(c, v[1]),
    }
}

// A case against the function that it names.
pub(crate) fn compared(window: &mut [u64], audit: Audit, kind: Kind, v: [u64; 9]) -> Tested
    ensures { ◌≡◌ {A = Replayed} (record { tested = result; words = window.new }) (compared kind audit v window.old) }
{
    match kind {
        Kind::Expired => Tested {
            audit,
            same: expired_same(v),
        },
        Kind::Redelivered => Tested {
            audit,
            same: redelivered_same(v),
        },
        Kind::AdmitMemory => Tested {
            audit,
            same: admit_memory_same(v),
        },
        Kind::ApplyExpiryOptions => Tested {
            audit,
            same: apply_expiry_options_same(v),
        },
        Kind::AuditNew => Tested {
            audit: Audit::new(),
            same: true,
        },
        Kind::Audit => audit_compared(window, audit, v),
        Kind::Bad => Tested { audit, same: false },
    }
}
