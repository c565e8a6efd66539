// The C library of `audit`: its functions named `audit_..`, exported under these names. include/audit.h describes them.
#![tactic(auto)]

ghost use Rattle.std.specs.Prelude.{◌≡◌};
ghost use Rattle.audit.specs.Audit.{audit_window, ring_sound, new_audit, CheckedAndRecorded};

use audit::{Audit, Checked};

#[unsafe(no_mangle)]
pub extern "C" fn audit_window() -> usize
    ensures { result ≡ audit_window }
{
    audit::audit_window()
}

#[unsafe(no_mangle)]
pub extern "C" fn audit_new() -> Audit
    ensures { result ≡ new_audit }
{
    audit::audit_new()
}

#[unsafe(no_mangle)]
pub extern "C" fn audit_sound(a: Audit) -> bool
    ensures { result ≡ ring_sound a }
{
    audit::audit_sound(a)
}

#[unsafe(no_mangle)]
pub extern "C" fn audit_check_and_record(window: &mut [u64], a: Audit, number: u64) -> Checked
    ensures { CheckedAndRecorded number a window.old result window.new }
{
    audit::audit_check_and_record(window, a, number)
}
