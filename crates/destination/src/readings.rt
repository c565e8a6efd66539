// The query of document 02 §13 for programs in C or Rust.
ghost use Rattle.std.specs.Prelude.{◌≡◌, length};
ghost use Rattle.outlook.specs.Outlook.{buffer_outlook};
ghost use Rattle.queries.specs.Pages.{written};
ghost use Rattle.outlooks.specs.Plans.{as_outlooked};
ghost use Rattle.definition.specs.Layout.{lent};

use consumers::SubRow;
use entry::Row;
use outlooks::{Outlooked, Span};
use queries::PageLine;

#[unsafe(no_mangle)]
pub extern "C" fn destination_outlook_lines() -> usize
    ensures { result ≡ 512 }
{
    outlooks::OUTLOOK_LINES
}

// What waits on the queue by two readings of the clock, and those between two times into a lent list. The lines past them stay, and beside a refusal
// nothing is written. `outlooks::plan` says which rows are listed, `outlooks::line_of` makes a line of a row.
#[unsafe(no_mangle)]
pub extern "C" fn destination_outlook(
    head: &[u64],
    subs: &[SubRow],
    rows: &[Row],
    lines: &mut [PageLine],
    span: Span,
) -> Outlooked
    ensures { (result ≡ as_outlooked (buffer_outlook (lent head.now subs.now rows.now) (length lines.old) span.earlier span.later span.from span.to))
        × (lines.new ≡ written (buffer_outlook (lent head.now subs.now rows.now) (length lines.old) span.earlier span.later span.from span.to).lines lines.old) }
{
    let p = outlooks::plan(head, subs, rows, lines.len(), span);
    let mut i = 0;
    // A while, for the stack: see `outlooks`.
    while i < p.count {
        lines[i] = outlooks::line_of(rows, p, i);
        i += 1;
    }
    Outlooked {
        refusal: p.refusal,
        sure: p.sure,
        perhaps: p.perhaps,
        alive: p.alive,
        next: p.next,
        count: p.count,
    }
}
