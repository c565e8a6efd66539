// The C library of `layouts`: its functions named `layouts_..`, exported under these names. include/layouts.h describes them.
#![tactic(auto)]

ghost use Rattle.std.specs.Prelude.{◌≡◌};
ghost use Rattle.layouts.specs.Layouts.{checked, looked_up};

use layouts::{Checked, LayoutRow};

#[unsafe(no_mangle)]
pub extern "C" fn layouts_rows() -> usize
    ensures { result ≡ 64 }
{
    layouts::layouts_rows()
}

#[unsafe(no_mangle)]
pub extern "C" fn layouts_check(table: &[LayoutRow]) -> Checked
    ensures { result ≡ checked table.now }
{
    layouts::layouts_check(table)
}

#[unsafe(no_mangle)]
pub extern "C" fn layouts_lookup(table: &[LayoutRow], layout: u64) -> Checked
    ensures { result ≡ looked_up table.now layout }
{
    layouts::layouts_lookup(table, layout)
}
