// A table of layouts (document 02 §8): which selector reads which channel layout.
// The functions named `layouts_..` are the same for C, and include/layouts.h describes them.
#![tactic(auto)]

ghost use Rattle.std.specs.Prelude.{◌≡◌, true, ◌<◌, length};
ghost use Rattle.layouts.specs.Layouts.{first, covers, row_in_range, all_in_range, table_in_range, lowest_gap, lowest_overlap, selector_at, checked, looked_up};
ghost use Rattle.layouts.specs.Steps.{past, walk, next, column, lane, lane_count, lower, size, sizes};

// A first layout, a last layout and a selector.
pub type LayoutRow = [u64; 3];

// Most rows of a table.
pub const ROWS: usize = 64;

const LAYOUTS: u64 = 65536;

const LAST_LAYOUT: u64 = 65535;

const LAST_SELECTOR: u64 = 63;

// The refusal (0 none, 3 out of range, 12 a gap, 13 an overlap) and the answer: beside 12 and 13 the layout found.
// Not a Result: the struct is C's, and `checked` and `looked_up` tell of both fields.
#[repr(C)]
#[derive(Clone, Copy)]
pub struct Checked {
    pub refusal: u64,
    pub answer: u64,
}

// ---- a row

fn row_in_range(row: LayoutRow) -> bool
    ensures { result ≡ row_in_range row }
{
    let [first, last, selector] = row;
    first <= LAST_LAYOUT && last <= LAST_LAYOUT && selector <= LAST_SELECTOR && first <= last
}

// Whether a row covers a layout, both ends included.
pub fn covers(row: LayoutRow, layout: u64) -> bool
    ensures { result ≡ covers row layout }
{
    row[0] <= layout && layout <= row[1]
}

// The layout after the row's, where the row covers this one.
fn past(row: LayoutRow, at: u64) -> u64
    requires { row_in_range row ≡ true }
    ensures { result ≡ past row at }
{
    if covers(row, at) { row[1] + 1 } else { at }
}

fn size(row: LayoutRow) -> u64
    requires { row_in_range row ≡ true }
    ensures { result ≡ size row }
{
    row[1] - row[0] + 1
}

// The layout after the row's last, or 0.
fn next(row: LayoutRow) -> u16
    requires { row_in_range row ≡ true }
    ensures { result ≡ next row }
{
    if row[1] < LAST_LAYOUT {
        (row[1] + 1) as u16
    } else {
        0
    }
}

fn start(row: LayoutRow) -> u16
    requires { row_in_range row ≡ true }
    ensures { result ≡ first row }
{
    row[0] as u16
}

// ---- firsts and lasts side by side, 64 of each, so that a count of the rows that cover a layout takes few instructions

// One of the two numbers of each row; after the rows, the padding.
fn column(table: &[LayoutRow], k: usize, padding: u16) -> [u16; 64]
    requires table_value { table_in_range table.now ≡ true }
    requires k_bound { k < 2 }
    ensures { result ≡ column table.now k padding }
{
    let mut out = [padding; 64];
    for (i, row) in table.iter().enumerate() {
        out[i] = row[k] as u16;
    }
    out
}

fn lane(first: u16, last: u16, layout: u16) -> bool
    ensures { result ≡ lane first last layout }
{
    first <= layout && layout <= last
}

fn lane_count(firsts: &[u16; 64], lasts: &[u16; 64], layout: u16) -> u16
    requires firsts_len { length firsts.now ≡ 64 }
    requires lasts_len { length lasts.now ≡ 64 }
    ensures { result ≡ lane_count firsts.now lasts.now layout }
{
    let mut count: u16 = 0;
    // An index: two columns side by side, added up lane by lane.
    for i in 0..64 {
        count += lane(firsts[i], lasts[i], layout) as u16;
    }
    count
}

// A layout that has what is looked for, where it is below the lowest so far.
fn lower(found: bool, layout: u16, lowest: u64) -> u64
    ensures { result ≡ lower found layout lowest }
{
    let at = layout as u64;
    if at < lowest && found { at } else { lowest }
}

// ---- a table

fn in_range(table: &[LayoutRow]) -> bool
    ensures { result ≡ table_in_range table.now }
{
    table.len() <= ROWS && table.iter().all(|row| row_in_range(*row))
}

// Once through the table, each row that covers the layout reached taking it past its last.
fn walk(table: &[LayoutRow], at: u64) -> u64
    requires { all_in_range table.now ≡ true }
    ensures { result ≡ walk at table.now }
{
    let mut reached = at;
    for row in table {
        reached = past(*row, reached);
    }
    reached
}

// The lowest layout that no row covers. It is 0, or the one after a row's last. Where the rows stand by rising layouts, one walk
// shows that there is none.
// 65,536 for none, as `lowest_gap` and `lowest_overlap` have it: an Option is no plainer, since the least so far starts there.
fn gap(table: &[LayoutRow]) -> u64
    requires { table_in_range table.now ≡ true }
    ensures { result ≡ lowest_gap table.now }
{
    if walk(table, 0) == LAYOUTS {
        return LAYOUTS;
    }
    let firsts = column(table, 0, 1);
    let lasts = column(table, 1, 0);
    let mut lowest = lower(lane_count(&firsts, &lasts, 0) == 0, 0, LAYOUTS);
    for row in table {
        let at = next(*row);
        lowest = lower(lane_count(&firsts, &lasts, at) == 0, at, lowest);
    }
    lowest
}

// How many layouts the rows have together.
fn sizes(table: &[LayoutRow]) -> u64
    requires { table_in_range table.now ≡ true }
    ensures { result ≡ sizes table.now }
{
    let mut sum = 0;
    for row in table {
        sum += size(*row);
    }
    sum
}

// The lowest layout that two rows cover; 65,536 for none. It is the first of one of them.
fn overlap(table: &[LayoutRow]) -> u64
    requires { table_in_range table.now ≡ true }
    ensures { result ≡ lowest_overlap table.now }
{
    let firsts = column(table, 0, 1);
    let lasts = column(table, 1, 0);
    let mut lowest = LAYOUTS;
    for row in table {
        let at = start(*row);
        lowest = lower(1 < lane_count(&firsts, &lasts, at), at, lowest);
    }
    lowest
}

// The selector of the first row that covers the layout; 0 for none.
fn selector_at(table: &[LayoutRow], layout: u64) -> u64
    ensures { result ≡ selector_at table.now layout }
{
    for row in table {
        if covers(*row, layout) {
            return row[2];
        }
    }
    0
}

// ---- the two calls

// Whether the rows cover each layout once. Where none is missing, as many as there are means none twice.
pub fn check(table: &[LayoutRow]) -> Checked
    ensures { result ≡ checked table.now }
{
    if !in_range(table) {
        return Checked {
            refusal: 3,
            answer: 0,
        };
    }
    let missing = gap(table);
    if missing < LAYOUTS {
        return Checked {
            refusal: 12,
            answer: missing,
        };
    }
    if sizes(table) == LAYOUTS {
        return Checked {
            refusal: 0,
            answer: 0,
        };
    }
    let twice = overlap(table);
    if twice < LAYOUTS {
        return Checked {
            refusal: 13,
            answer: twice,
        };
    }
    Checked {
        refusal: 0,
        answer: 0,
    }
}

// The match word for a header's layout: the bit of the selector whose row covers it.
pub fn lookup(table: &[LayoutRow], layout: u64) -> Checked
    ensures { result ≡ looked_up table.now layout }
{
    if LAST_LAYOUT < layout {
        return Checked {
            refusal: 3,
            answer: 0,
        };
    }
    let found = check(table);
    if found.refusal != 0 {
        return found;
    }
    let selector = selector_at(table, layout);
    Checked {
        refusal: 0,
        answer: 1 << selector,
    }
}

// ---- for C

pub fn layouts_rows() -> usize
    ensures { result ≡ 64 }
{
    ROWS
}

pub fn layouts_check(table: &[LayoutRow]) -> Checked
    ensures { result ≡ checked table.now }
{
    check(table)
}

pub fn layouts_lookup(table: &[LayoutRow], layout: u64) -> Checked
    ensures { result ≡ looked_up table.now layout }
{
    lookup(table, layout)
}
