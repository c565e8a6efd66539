// A table of layouts as text, a row a line: what is said of it.
#![tactic(auto)]

ghost use Rattle.std.specs.Prelude.{Some, Ok, ◌≡◌, List, ℕ, [], ◌+◌, ◌<◌, ◌≤◌, length, drop, replicate};
ghost use Rattle.callfile.specs.Lines.{field};
ghost use Rattle.callfile.specs.Placed.{Puts, PutLine};
ghost use Rattle.texting.specs.Lines.{lines_of};
ghost use Rattle.textwords.specs.Text.{words_of};
ghost use Rattle.layouts.specs.Layouts.{cover_count, checked};
ghost use Rattle.layouttext.specs.Rows.{gather_row, line_row, row_fault, line_kind, read_from, Reads, RowKept};
ghost use Rattle.layouttext.specs.Verdict.{cover_at, overlapping, found, verdict_of};
ghost use Rattle.layouttext.specs.Messages.{row_complaint, numbered, row_text, fault_text, gap_text, both_text, rows_text, accepted_text, verdict_text};

use layouts::LayoutRow;
use textwords::Stop;

// Room for what is said.
pub const ROOM: usize = 512;

// What is wrong with a line.
#[derive(Clone, Copy)]
enum Fault {
    NotARow,
    FirstOut,
    LastOut,
    SelectorOut,
    FirstAbove,
    ManyRows,
}

// What a line is: a row, nothing, or at fault.
type ParsedRow = Result<Option<LayoutRow>, Fault>;

// The fault that ended the reading of a text, the number of that line, and how many rows there are.
#[derive(Clone, Copy)]
struct Read {
    fault: Option<Fault>,
    line: u64,
    count: usize,
}

// What the check answers. Numbers: the struct that has them is C's.
const GAP: u64 = 12;

const OVERLAP: u64 = 13;

// ---- a line

// So many words were numbers, and no more words are left.
fn end_of_words(n: usize, row: LayoutRow) -> ParsedRow
    ensures { result ≡ gather_row n row [] }
{
    if n == 3 {
        return Ok(Some(row));
    }
    if n == 0 {
        return Ok(None);
    }
    Err(Fault::NotARow)
}

// The words of a line, without its remark.
fn row_in(text: &[u8]) -> ParsedRow
    ensures { result ≡ gather_row 0 (replicate 3 0) (words_of text.now) }
{
    let mut row = [0u64; 3];
    let mut n = 0;
    let mut i = textwords::scan(text, 0, Stop::Word);
    // A while: the place moves on by a word at each turn.
    while i < text.len() {
        if n == 3 {
            return Err(Fault::NotARow);
        }
        let e = textwords::scan(text, i, Stop::Blank);
        let Some(v) = textwords::number_of(&text[i..e]) else {
            return Err(Fault::NotARow);
        };
        row[n] = v;
        n += 1;
        i = textwords::scan(text, e, Stop::Word);
    }
    end_of_words(n, row)
}

fn parse(line: &[u8]) -> ParsedRow
    ensures { result ≡ line_row line.now }
{
    let e = textwords::scan(line, 0, Stop::Remark);
    row_in(&line[0..e])
}

// What is wrong with a row.
fn row_fault(row: LayoutRow) -> Option<Fault>
    ensures { result ≡ row_fault row }
{
    if 65535 < row[0] {
        return Some(Fault::FirstOut);
    }
    if 65535 < row[1] {
        return Some(Fault::LastOut);
    }
    if 63 < row[2] {
        return Some(Fault::SelectorOut);
    }
    if row[1] < row[0] {
        return Some(Fault::FirstAbove);
    }
    None
}

// What a line is, after so many rows.
fn line_kind(count: usize, p: ParsedRow) -> ParsedRow
    ensures { result ≡ line_kind count p }
{
    let Some(row) = p? else {
        return Ok(None);
    };
    if 63 < count {
        return Err(Fault::ManyRows);
    }
    match row_fault(row) {
        Some(fault) => Err(fault),
        None => Ok(Some(row)),
    }
}

// ---- a text

// A row goes to the end of the rows, and its line's number to that of the lines; an empty line does not.
fn keep(rows: &mut [LayoutRow], lines: &mut [u64], count: usize, n: u64, p: ParsedRow) -> usize
    requires { ((row : List ℕ) → p ≡ Ok (Some row) → count < 64) × (64 ≤ length rows.old) × (64 ≤ length lines.old) }
    ensures { RowKept count n p rows.old lines.old result rows.new lines.new }
{
    let Ok(Some(row)) = p else {
        return count;
    };
    rows[count] = row;
    lines[count] = n;
    count + 1
}

// The rows of a text, up to the first line at fault.
fn read_rows(text: &[u8], rows: &mut [LayoutRow], lines: &mut [u64]) -> Read
    requires { (64 ≤ length rows.old) × (64 ≤ length lines.old) }
    ensures { Reads (read_from [] [] 1 (lines_of text.now)) result rows.new lines.new }
{
    let mut count = 0;
    let mut n = 1;
    let mut at = 0;
    // A while: the place moves on by a line at each turn.
    while at < text.len() {
        let e = textwords::scan(text, at, Stop::LineEnd);
        let p = line_kind(count, parse(&text[at..e]));
        if let Err(fault) = p {
            return Read {
                fault: Some(fault),
                line: n,
                count,
            };
        }
        count = keep(rows, lines, count, n, p);
        n = stats::more_of(n);
        at = e + 1;
    }
    Read {
        fault: None,
        line: n,
        count,
    }
}

// ---- words and numbers

// A space and a number.
fn put_number(out: &mut [u8], at: usize, n: u64) -> usize
    requires { at + 128 ≤ length out.old }
    ensures { Puts (field n) at out.old result out.new × (result ≤ at + 22) }
{
    callfile::put_word(out, at, n, false)
}

// Some words, and a number.
fn put_named(out: &mut [u8], at: usize, words: &[u8], n: u64) -> usize
    requires { at + length words.now + 128 ≤ length out.old }
    ensures { Puts (numbered words.now n) at out.old result out.new × (result ≤ at + length words.now + 22) }
{
    let a = callfile::put_all(out, at, words);
    put_number(out, a, n)
}

// Some words, and a row's three numbers.
fn put_row(out: &mut [u8], at: usize, words: &[u8], row: LayoutRow) -> usize
    requires { at + length words.now + 192 ≤ length out.old }
    ensures { Puts (row_text words.now row) at out.old result out.new × (result ≤ at + length words.now + 66) }
{
    let a = put_named(out, at, words, row[0]);
    let b = put_number(out, a, row[1]);
    put_number(out, b, row[2])
}

// ---- what is said

// What is wrong with a line.
fn put_complaint(out: &mut [u8], at: usize, fault: Fault) -> usize
    requires { at + 64 ≤ length out.old }
    ensures { Puts (row_complaint fault) at out.old result out.new × (result ≤ at + 64) }
{
    match fault {
        Fault::NotARow => callfile::put_all(
            out,
            at,
            b": not a row: want three numbers, first, last and selector\n",
        ),
        Fault::FirstOut => callfile::put_all(out, at, b": 3: first is not 0 to 65535\n"),
        Fault::LastOut => callfile::put_all(out, at, b": 3: last is not 0 to 65535\n"),
        Fault::SelectorOut => callfile::put_all(out, at, b": 3: selector is not 0 to 63\n"),
        Fault::FirstAbove => callfile::put_all(out, at, b": 3: first is above last\n"),
        Fault::ManyRows => callfile::put_all(out, at, b": 3: more than 64 rows\n"),
    }
}

fn put_fault(out: &mut [u8], line: u64, fault: Fault) -> usize
    requires { 512 ≤ length out.old }
    ensures { Puts (fault_text line fault) 0 out.old result out.new × (result ≤ 512) }
{
    let a = put_named(out, 0, b"line", line);
    put_complaint(out, a, fault)
}

fn put_gap(out: &mut [u8], layout: u64) -> usize
    requires { 512 ≤ length out.old }
    ensures { Puts (gap_text layout) 0 out.old result out.new × (result ≤ 512) }
{
    let a = put_named(out, 0, b"12: gap: no row covers", layout);
    callfile::put_byte(out, a, b'\n')
}

// The layout that two rows cover, and the lines of the two.
fn put_both(out: &mut [u8], layout: u64, m: u64, n: u64) -> usize
    requires { 512 ≤ length out.old }
    ensures { Puts (both_text layout m n) 0 out.old result out.new × (result ≤ 128) }
{
    let a = put_named(out, 0, b"13: overlap: lines", m);
    let b = put_named(out, a, b" and", n);
    put_named(out, b, b" both cover", layout)
}

// The two rows.
fn put_rows(out: &mut [u8], at: usize, row: LayoutRow, other: LayoutRow) -> usize
    requires { (512 ≤ length out.old) × (at ≤ 128) }
    ensures { Puts (rows_text row other) at out.old result out.new × (result ≤ 512) }
{
    let a = put_row(out, at, b":", row);
    let b = put_row(out, a, b" and", other);
    callfile::put_byte(out, b, b'\n')
}

fn put_accepted(out: &mut [u8], count: usize) -> usize
    requires { 512 ≤ length out.old }
    ensures { Puts (accepted_text count) 0 out.old result out.new × (result ≤ 512) }
{
    let a = put_named(
        out,
        0,
        b"accepted: 0 to 65535 covered once each, rows:",
        count as u64,
    );
    callfile::put_byte(out, a, b'\n')
}

// ---- the verdict

// The first place from one on of a row that covers a layout.
fn cover_from(rows: &[LayoutRow], from: usize, layout: u64) -> usize
    ensures { result ≡ from + cover_at layout (drop from rows.now) }
{
    let Some(rest) = rows.get(from..) else {
        return from;
    };
    from + rest
        .iter()
        .position(|row| layouts::covers(*row, layout))
        .unwrap_or(rest.len())
}

// The first two rows that cover a layout, where two do.
fn put_overlap(out: &mut [u8], rows: &[LayoutRow], lines: &[u64], layout: u64) -> usize
    requires { (512 ≤ length out.old) × (2 ≤ cover_count rows.now layout) × (length lines.now ≡ length rows.now) }
    ensures { Puts (verdict_text (overlapping rows.now lines.now layout)) 0 out.old result out.new × (result ≤ 512) }
{
    let i = cover_from(rows, 0, layout);
    let j = cover_from(rows, i + 1, layout);
    let a = put_both(out, layout, lines[i], lines[j]);
    put_rows(out, a, rows[i], rows[j])
}

// What the check answers.
fn put_found(out: &mut [u8], rows: &[LayoutRow], lines: &[u64]) -> usize
    requires { (512 ≤ length out.old) × (length lines.now ≡ length rows.now) }
    ensures { Puts (verdict_text (found rows.now lines.now (checked rows.now))) 0 out.old result out.new × (result ≤ 512) }
{
    let c = layouts::check(rows);
    let refusal = c.refusal;
    let layout = c.answer;
    if refusal == GAP {
        return put_gap(out, layout);
    }
    if refusal == OVERLAP {
        return put_overlap(out, rows, lines, layout);
    }
    put_accepted(out, rows.len())
}

fn put_verdict(text: &[u8], out: &mut [u8]) -> usize
    requires { 512 ≤ length out.old }
    ensures { Puts (verdict_text (verdict_of text.now)) 0 out.old result out.new × (result ≤ 512) }
{
    let mut rows = [[0u64; 3]; 64];
    let mut lines = [0u64; 64];
    let r = read_rows(text, &mut rows, &mut lines);
    let count = r.count;
    if let Some(fault) = r.fault {
        return put_fault(out, r.line, fault);
    }
    put_found(out, &rows[0..count], &lines[0..count])
}

// What is said of a text of rows: the first line at fault, or what the check answers. Without room for 512 bytes, nothing is put.
pub fn verdict(text: &[u8], out: &mut [u8]) -> usize
    ensures { PutLine 512 (verdict_text (verdict_of text.now)) 0 out.old result out.new }
{
    if out.len() < ROOM {
        return 0;
    }
    put_verdict(text, out)
}
