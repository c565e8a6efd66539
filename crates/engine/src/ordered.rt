// Rows in order, by rising sequence number, looked at from the end: whether one has a number, and where a number goes.
ghost use Rattle.std.specs.Prelude.{◌≡◌, true, ◌≤◌, length};
ghost use Rattle.std.proofs.Math.Seq.{slice};
ghost use Rattle.table.specs.Table.{place_of};
ghost use Rattle.engine.specs.Storing.{holds};
ghost use Rattle.engine.specs.Arrivals.{rows_in_order};

use entry::Row;

// Whether one of rows[from..to] has that sequence number: none where the last is below it.
pub(crate) fn has_number(rows: &[Row], from: usize, to: usize, seq: u64) -> bool
    requires { (from ≤ to) × (to ≤ length rows.now) × (rows_in_order (slice from to rows.now) ≡ true) }
    ensures { result ≡ holds seq (slice from to rows.now) }
{
    if from == to {
        return false;
    }
    if rows[to - 1][0] < seq {
        return false;
    }
    table::has_seq(rows, from, to, seq)
}

// Where in rows[from..to] a row with that sequence number goes: after the last that is below it.
pub(crate) fn place_from_end(rows: &[Row], from: usize, to: usize, seq: u64) -> usize
    requires { (from ≤ to) × (to ≤ length rows.now) × (rows_in_order (slice from to rows.now) ≡ true) }
    ensures { result ≡ place_of from to seq rows.now }
{
    // A while: it goes down, and answers the place above the row that it looks at.
    let mut i = to;
    while from < i {
        if rows[i - 1][0] < seq {
            return i;
        }
        i -= 1;
    }
    from
}
