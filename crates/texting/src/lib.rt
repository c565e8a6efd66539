// The text of a call file to blocks, and a block to text, in lent buffers.
#![tactic(auto)]

ghost use Rattle.std.specs.Prelude.{◌≡◌, ◌++◌, map, ◌+◌, ◌≤◌, length, take, drop, replicate};
ghost use Rattle.callfile.specs.Placed.{Puts, PutLine};
ghost use Rattle.calltext.specs.Faults.{fault_word};
ghost use Rattle.texting.specs.Lines.{lines_of, line_fault, said_fault, complaint, shown_byte, shown_word, marked_line, wrong_with, line_number, message, long_message};
ghost use Rattle.texting.specs.Parts.{with_parsed, count_parsed, fill_from, begun, ended, sealing, Fills, first_bad};
ghost use Rattle.texting.specs.Shown.{call_texts, block_text};

use calltext::{Fault, Parsed};
use textwords::Stop;

// The calls of a full block.
pub const FULL: usize = 7;

// Room for the text of a block, and for a message.
pub const TEXT: usize = 3584;

pub const MESSAGE: usize = 192;

// The bytes of a word that are shown.
const CUT: usize = 40;

// How many calls a block has, and the place in the text after the lines that were taken.
#[derive(Clone, Copy)]
pub struct Filled {
    pub count: usize,
    pub at: usize,
}

// A bad line: its fault and number, where it stands in the text, and the place after it. None: no line is bad, and the number is that of the next line.
#[derive(Clone, Copy)]
pub struct Bad {
    pub fault: Option<Fault>,
    pub line: u64,
    pub from: usize,
    pub to: usize,
    pub at: usize,
}

// ---- from text to blocks

fn begin(block: &mut [u8], k: usize)
    ensures { block.new ≡ begun k block.old }
{
    if k == 0 {
        block.fill(0);
    }
}

// A line's call becomes call k.
fn add_call(block: &mut [u8], k: usize, p: Parsed) -> usize
    requires { k ≤ 6 }
    ensures { (result ≡ count_parsed k p) × (block.new ≡ with_parsed k p block.old) × (result ≤ 7) }
{
    let Ok(Some(call)) = p else {
        return k;
    };
    callblocks::put_call(block, k, call);
    k + 1
}

// The calls of lines go into a block, until it has seven.
fn take_lines(text: &[u8], from: usize, block: &mut [u8], k: usize) -> Filled
    ensures { Fills (fill_from block.old k from (lines_of (drop from text.now))) result block.new }
{
    let mut count = k;
    let mut at = from;
    // A while: the place moves on by a line at each turn.
    while at < text.len() {
        if 6 < count {
            return Filled { count, at };
        }
        let e = textwords::scan(text, at, Stop::LineEnd);
        let p = calltext::parse(&text[at..e]);
        count = add_call(block, count, p);
        at = e + 1;
    }
    Filled { count, at }
}

fn end(block: &mut [u8], k: usize)
    ensures { block.new ≡ ended k block.old }
{
    if k == FULL {
        callblocks::seal(block, 7);
    }
}

// Takes lines from a place of the text on, and puts their calls into a block that has k, until it has seven or the text ends. A block of no calls
// begins with zeros; one of seven is sealed.
pub fn fill(text: &[u8], from: usize, block: &mut [u8], k: usize) -> Filled
    ensures { Fills (sealing (fill_from (begun k block.old) k from (lines_of (drop from text.now)))) result block.new }
{
    begin(block, k);
    let f = take_lines(text, from, block, k);
    end(block, f.count);
    f
}

// ---- bad lines

// What is wrong with a line, if anything is.
fn fault_of_line(line: &[u8]) -> Option<Fault>
    ensures { result ≡ line_fault line.now }
{
    match calltext::parse(line) {
        Err(fault) => Some(fault),
        Ok(_) => None,
    }
}

// The first bad line from a place of the text on, where a line of the given number begins.
pub fn first_bad(text: &[u8], from: usize, line: u64) -> Bad
    ensures { result ≡ first_bad line from (lines_of (drop from text.now)) }
{
    let mut n = line;
    let mut at = from;
    // A while: the place moves on by a line at each turn.
    while at < text.len() {
        let e = textwords::scan(text, at, Stop::LineEnd);
        let wrong = fault_of_line(&text[at..e]);
        let next = e + 1;
        if wrong.is_some() {
            return Bad {
                fault: wrong,
                line: n,
                from: at,
                to: e,
                at: next,
            };
        }
        n = stats::more_of(n);
        at = next;
    }
    Bad {
        fault: None,
        line: n,
        from: at,
        to: at,
        at,
    }
}

// ---- messages

// What is wrong with a line.
fn put_complaint(out: &mut [u8], at: usize, fault: Fault) -> usize
    requires { at + 30 ≤ length out.old }
    ensures { Puts (complaint fault) at out.old result out.new × (result ≤ at + 30) }
{
    match fault {
        Fault::UnknownCall => callfile::put_all(out, at, b": unknown call: "),
        Fault::NotANumber => callfile::put_all(out, at, b": not a number of 64 bits: "),
        Fault::TooManyArguments => callfile::put_all(out, at, b": more than eight arguments: "),
        Fault::NotADestination => callfile::put_all(out, at, b": not a destination's number: "),
        Fault::NoName => callfile::put_all(out, at, b": no call's name after: "),
    }
}

fn shown(b: u8) -> u8
    ensures { result ≡ shown_byte b }
{
    match b {
        b' '..=b'~' => b,
        _ => b'?',
    }
}

// Bytes of a word.
fn put_bytes(out: &mut [u8], at: usize, part: &[u8]) -> usize
    requires { at + length part.now ≤ length out.old }
    ensures { Puts (map shown_byte part.now) at out.old result out.new × (result ≤ at + length part.now) }
{
    let mut next = at;
    for b in part {
        next = callfile::put_byte(out, next, shown(*b));
    }
    next
}

// A word, which may be cut, and the end of the line.
fn put_shown(out: &mut [u8], at: usize, word: &[u8]) -> usize
    requires { at + 43 ≤ length out.old }
    ensures { Puts (shown_word word.now) at out.old result out.new × (result ≤ at + 43) }
{
    if word.len() <= CUT {
        let a = put_bytes(out, at, word);
        return callfile::put_all(out, a, b"\n");
    }
    let a = put_bytes(out, at, &word[0..CUT]);
    callfile::put_all(out, a, b"..\n")
}

// What is wrong with a line, and the word at fault.
fn put_fault(out: &mut [u8], at: usize, line: &[u8]) -> usize
    requires { at + 73 ≤ length out.old }
    ensures { Puts (complaint (said_fault line.now) ++ shown_word (fault_word line.now)) at out.old result out.new × (result ≤ at + 73) }
{
    let fault = calltext::parse(line).err().unwrap_or(Fault::NoName);
    let f = calltext::fault_of(line);
    let from = f.from;
    let to = f.to;
    let a = put_complaint(out, at, fault);
    put_shown(out, a, &line[from..to])
}

fn marked(n: u64, line: &[u8]) -> bool
    ensures { result ≡ marked_line n line.now }
{
    if n != 1 {
        return false;
    }
    textwords::has_mark(line)
}

fn put_wrong(out: &mut [u8], at: usize, n: u64, line: &[u8]) -> usize
    requires { at + 73 ≤ length out.old }
    ensures { Puts (wrong_with n line.now) at out.old result out.new × (result ≤ at + 73) }
{
    if marked(n, line) {
        return callfile::put_all(
            out,
            at,
            b": begins with a byte order mark: save the text without one\n",
        );
    }
    put_fault(out, at, line)
}

fn put_line_number(out: &mut [u8], n: u64) -> usize
    requires { 192 ≤ length out.old }
    ensures { Puts (line_number n) 0 out.old result out.new × (result ≤ 26) }
{
    let a = callfile::put_all(out, 0, b"line");
    callfile::put_word(out, a, n, false)
}

fn message_text(out: &mut [u8], n: u64, line: &[u8]) -> usize
    requires { 192 ≤ length out.old }
    ensures { Puts (message n line.now) 0 out.old result out.new × (result ≤ 192) }
{
    let a = put_line_number(out, n);
    put_wrong(out, a, n, line)
}

// The message of bad line n, lent without its end. Without room for 192 bytes, nothing is put.
pub fn put_message(out: &mut [u8], n: u64, line: &[u8]) -> usize
    ensures { PutLine 192 (message n line.now) 0 out.old result out.new }
{
    if out.len() < MESSAGE {
        return 0;
    }
    message_text(out, n, line)
}

fn long_text(out: &mut [u8], n: u64) -> usize
    requires { 192 ≤ length out.old }
    ensures { Puts (long_message n) 0 out.old result out.new × (result ≤ 192) }
{
    let a = put_line_number(out, n);
    callfile::put_all(out, a, b": longer than 1048576 bytes\n")
}

// The message of a line that is too long to be read. Without room for 192 bytes, nothing is put.
pub fn put_long(out: &mut [u8], n: u64) -> usize
    ensures { PutLine 192 (long_message n) 0 out.old result out.new }
{
    if out.len() < MESSAGE {
        return 0;
    }
    long_text(out, n)
}

// ---- from a block to text

// The lines of the first calls of a block.
fn put_calls(out: &mut [u8], block: &[u8], count: usize) -> usize
    requires { (3584 ≤ length out.old) × (count ≤ 7) }
    ensures { Puts (call_texts count block.now) 0 out.old result out.new × (result ≤ 3584) }
{
    let mut at = 0;
    for k in 0..count {
        at = calltext::put_text(out, at, callfile::call_at(block, k));
    }
    at
}

// The text of a block, of which so many bytes were read: the lines of its calls, or that of a bad block with its number. Without room for 3584
// bytes, nothing is put.
pub fn show(block: &[u8], got: usize, number: u64, out: &mut [u8]) -> usize
    ensures { PutLine 3584 (block_text number block.now got) 0 out.old result out.new }
{
    if out.len() < TEXT {
        return 0;
    }
    let count = callfile::calls_in(block, got);
    if count == 0 {
        return callfile::put_bad(out, 0, number);
    }
    put_calls(out, block, count)
}
