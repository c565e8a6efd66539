// Duplicate detection for one producer (`Audit` of destination.rs): the last 1,024 numbers, in a lent window.
// The functions named `audit_..` are the same for C: crate audit_c exports them, and include/audit.h describes them.
#![tactic(auto)]

ghost use Rattle.std.specs.Prelude.{◌≡◌};
ghost use Rattle.audit.specs.Audit.{audit_window, ring_sound, new_audit, place, ring_next, CheckedAndRecorded};

// Where the oldest number stands in the window, and how many there are. Until the window is full the oldest stands at 0.
#[repr(C)]
#[derive(Clone, Copy)]
pub struct Audit {
    pub start: usize,
    pub count: usize,
}

// What a check leaves: the refusal (0 none, 1 the window is short, 2 the audit is out of range), the audit, and whether
// the number was there. Not a Result: the struct is C's, and `CheckedAndRecorded` tells of all its fields.
#[repr(C)]
#[derive(Clone, Copy)]
pub struct Checked {
    pub refusal: u64,
    pub audit: Audit,
    pub duplicate: bool,
}

impl Audit {
    pub const WINDOW: usize = 1024;

    // The audit of a producer that has sent nothing; the window may hold anything.
    pub fn new() -> Audit
        ensures { result ≡ new_audit }
    {
        Audit { start: 0, count: 0 }
    }

    // Whether these numbers are an audit's.
    pub fn sound(self) -> bool
        ensures { result ≡ ring_sound self }
    {
        if self.count < Audit::WINDOW {
            return self.start == 0;
        }
        if self.count == Audit::WINDOW {
            return self.start < Audit::WINDOW;
        }
        false
    }

    // Where the next number goes.
    fn place(self) -> usize
        ensures { result ≡ place self }
    {
        if self.count < Audit::WINDOW {
            self.count
        } else {
            self.start
        }
    }

    // The audit after a number is recorded: one more, or the oldest is gone.
    fn next(self) -> Audit
        ensures { result ≡ ring_next self }
    {
        if self.count < Audit::WINDOW {
            return Audit {
                count: self.count + 1,
                ..self
            };
        }
        if self.start < Audit::WINDOW - 1 {
            return Audit {
                start: self.start + 1,
                ..self
            };
        }
        Audit { start: 0, ..self }
    }
}

// Tests whether the number is among those recorded, and records it if not: at the end, or over the oldest where the
// window is full. Refused, nothing changes.
pub fn check_and_record(window: &mut [u64], a: Audit, number: u64) -> Checked
    ensures { CheckedAndRecorded number a window.old result window.new }
{
    if window.len() < Audit::WINDOW {
        return Checked {
            refusal: 1,
            audit: a,
            duplicate: false,
        };
    }
    if !a.sound() {
        return Checked {
            refusal: 2,
            audit: a,
            duplicate: false,
        };
    }
    if window[..a.count].contains(&number) {
        return Checked {
            refusal: 0,
            audit: a,
            duplicate: true,
        };
    }
    window[a.place()] = number;
    Checked {
        refusal: 0,
        audit: a.next(),
        duplicate: false,
    }
}

pub fn audit_window() -> usize
    ensures { result ≡ audit_window }
{
    Audit::WINDOW
}

pub fn audit_new() -> Audit
    ensures { result ≡ new_audit }
{
    Audit::new()
}

pub fn audit_sound(a: Audit) -> bool
    ensures { result ≡ ring_sound a }
{
    a.sound()
}

pub fn audit_check_and_record(window: &mut [u64], a: Audit, number: u64) -> Checked
    ensures { CheckedAndRecorded number a window.old result window.new }
{
    check_and_record(window, a, number)
}
