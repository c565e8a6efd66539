// Writes the call file of a text, a call a line; what is wrong with a text goes to standard error.
#![tactic(auto)]

ghost use Rattle.std.specs.Prelude.{◌≡◌, ◌≤◌, length};

use program::{Input, Source};
use reading::How;
use std::fs::File;
use std::io::{Seek, SeekFrom, Write};
use std::os::unix::fs::FileTypeExt;
use std::{fs, io};
use texting::Bad;

// What is carried from part to part: the bytes of the last line so far, the number of the next line, the calls in the block, whether a line was bad,
// whether the output could not be written, and whether there is more to read: three flags, as a bad line does not end the reading. That k is at most 6
// stands in contracts: with a ghost field each loop over it would have to be proved on the struct taken apart.
#[derive(Clone, Copy)]
struct Work {
    have: usize,
    line: u64,
    k: usize,
    bad: bool,
    gone: bool,
    more: bool,
}

// ---- reading

// The end of the last line that has one, or 0.
fn last_end(buf: &[u8], n: usize) -> usize
    ensures { result ≤ n }
{
    let read = &buf[0..n.min(buf.len())];
    match read.iter().rposition(|b| *b == b'\n') {
        Some(i) => i + 1,
        None => 0,
    }
}

// Moves the bytes from a place on to the front.
fn keep(buf: &mut [u8], from: usize, n: usize) {
    let end = n.min(buf.len());
    if from < end {
        buf.copy_within(from..end, 0);
    }
}

// ---- writing

fn write_out(rt: HostRuntime, part: &[u8]) -> bool {
    program::write(rt, b"textcalls", part, part.len())
}

// In place of blocks; too short for one.
fn spoil(rt: HostRuntime) {
    write_out(rt, b"bad text\n");
}

// The first bytes of a text, as a message.
fn say(rt: HostRuntime, text: &[u8], n: usize) {
    if text.len() < n {
        return;
    }
    let part = &text[0..n];
    program::message(rt, b"textcalls", part);
}

// The message of a bad line of a text.
fn complain(rt: HostRuntime, part: &[u8], b: Bad) {
    let from = b.from;
    let to = b.to;
    if part.len() < to {
        return;
    }
    if to < from {
        return;
    }
    let mut text = [0u8; 192];
    let n = texting::put_message(&mut text, b.line, &part[from..to]);
    say(rt, &text, n);
}

// ---- a part of a text

// The messages of its bad lines.
fn check(rt: HostRuntime, part: &[u8], w: Work) -> Work
    requires { w.k ≤ 6 }
    ensures { result.k ≤ 6 }
{
    let mut next = w;
    let mut from = 0;
    // A while: the place moves on by the lines that were taken.
    while from < part.len() {
        let b = texting::first_bad(part, from, next.line);
        next.line = b.line;
        if b.fault.is_none() {
            return next;
        }
        complain(rt, part, b);
        next.line = stats::more_of(b.line);
        next.bad = true;
        from = b.at;
    }
    next
}

// Its blocks, as far as they are full.
fn write_full(rt: HostRuntime, part: &[u8], block: &mut [u8], w: Work) -> Work
    requires { w.k ≤ 6 }
    ensures { result.k ≤ 6 }
{
    let mut next = w;
    let mut from = 0;
    // A while: the place moves on by the lines that were taken.
    while from < part.len() {
        let f = texting::fill(part, from, block, next.k);
        if f.count < texting::FULL {
            next.k = f.count;
            return next;
        }
        next.k = 0;
        if !write_out(rt, block) {
            next.gone = true;
            return next;
        }
        from = f.at;
    }
    next
}

// The last block, with what is left.
fn write_last(rt: HostRuntime, block: &mut [u8], w: Work) -> Work
    requires { w.k ≤ 6 }
    ensures { result.k ≤ 6 }
{
    let mut next = w;
    let k = w.k;
    if k == 0 {
        return next;
    }
    callblocks::seal(block, k as u64);
    if !write_out(rt, block) {
        next.gone = true;
    }
    next.k = 0;
    next
}

// Whole lines of a text: their messages, and their blocks where no line was bad so far.
fn take_part(
    rt: HostRuntime,
    buf: &[u8],
    end: usize,
    block: &mut [u8],
    w: Work,
    write: bool,
) -> Work
    requires { w.k ≤ 6 }
    ensures { result.k ≤ 6 }
{
    if buf.len() < end {
        return w;
    }
    let part = &buf[0..end];
    let c = check(rt, part, w);
    if c.bad {
        return c;
    }
    if !write {
        return c;
    }
    write_full(rt, part, block, c)
}

// ---- the whole text

fn stopped(w: Work) -> Work
    ensures { result.k ≡ w.k }
{
    Work {
        bad: true,
        more: false,
        ..w
    }
}

fn too_long(rt: HostRuntime, line: u64) {
    let mut text = [0u8; 192];
    let n = texting::put_long(&mut text, line);
    say(rt, &text, n);
}

// The last part, which needs no end of a line.
fn last_part(rt: HostRuntime, buf: &[u8], n: usize, block: &mut [u8], w: Work, write: bool) -> Work
    requires { w.k ≤ 6 }
    ensures { result.k ≤ 6 }
{
    let mut c = take_part(rt, buf, n, block, w, write);
    c.more = false;
    if c.bad {
        return c;
    }
    if c.gone {
        return c;
    }
    write_last(rt, block, c)
}

// Reads a part, and does what is to be done with it.
fn turn(
    rt: HostRuntime,
    from: &mut Input,
    buf: &mut [u8],
    block: &mut [u8],
    w: Work,
    write: bool,
) -> Work
    requires { w.k ≤ 6 }
    ensures { result.k ≤ 6 }
{
    let g = program::read(rt, b"textcalls", from, buf, w.have);
    let n = g.n;
    if g.how == How::Failed {
        return stopped(w);
    }
    if g.how == How::End {
        return last_part(rt, buf, n, block, w, write);
    }
    let end = last_end(buf, n);
    if end == 0 {
        too_long(rt, w.line);
        return stopped(w);
    }
    let mut c = take_part(rt, buf, end, block, w, write);
    keep(buf, end, n);
    c.have = n - end;
    c
}

fn buffer() -> [u8; 1048576]
    ensures { 1048576 ≡ length result }
{
    [0; 1048576]
}

// Reads a text from part to part. Its blocks are written or not; from a bad line on, none.
fn pass(rt: HostRuntime, from: &mut Input, write: bool) -> Work {
    let mut buf = buffer();
    let mut block = [0u8; 512];
    let mut w = Work {
        have: 0,
        line: 1,
        k: 0,
        bad: false,
        gone: false,
        more: true,
    };
    for _ in 0..u64::MAX {
        w = turn(rt, from, &mut buf, &mut block, w, write);
        if w.gone {
            return w;
        }
        if !w.more {
            return w;
        }
    }
    stopped(w)
}

// A text with a bad line ends in what is no block, and so does an output that could not be written whole.
fn finish(rt: HostRuntime, w: Work) {
    if w.gone {
        let _ = rt.stdout().write_all(b"bad text\n");
        return;
    }
    if w.bad {
        spoil(rt);
    }
}

// ---- reading again

// Standard input under the name by which the system opens it again: std has no other way to go back in it.
const STDIN: &str = "/proc/self/fd/0";

// What the system says of standard input; the first line is its place, as `pos:` and a number.
const STDIN_PLACE: &str = "/proc/self/fdinfo/0";

// Whether standard input is a file: a pipe, a socket or a terminal is not, and is not to be opened.
fn is_stdin_file(rt: HostRuntime) -> bool {
    match fs::metadata(&rt, STDIN) {
        Ok(known) => {
            let kind = known.file_type();
            kind.is_file() || kind.is_block_device()
        }
        Err(_) => false,
    }
}

fn stdin_place(rt: HostRuntime) -> Option<u64> {
    let said = fs::read_to_string(&rt, STDIN_PLACE).ok()?;
    let (line, _) = said.as_str().split_once('\n')?;
    line.strip_prefix("pos:")?.trim().parse::<u64>().ok()
}

fn stdin_again(rt: HostRuntime, place: u64) -> io::Result<File> {
    let mut file = File::open(&rt, STDIN)?;
    file.seek(SeekFrom::Start(place))?;
    Ok(file)
}

// Where an input stands, if it can be read again from there.
fn place_of(rt: HostRuntime, from: &mut Input) -> Option<u64> {
    match from {
        Input::Stdin(_) => {
            if !is_stdin_file(rt) {
                return None;
            }
            let place = stdin_place(rt)?;
            stdin_again(rt, place).ok()?;
            Some(place)
        }
        Input::File(file) => file.stream_position().ok(),
    }
}

// Goes back to a place of an input.
fn go_back(rt: HostRuntime, from: &mut Input, place: u64) -> io::Result<()> {
    match from {
        Input::Stdin(_) => {
            let file = stdin_again(rt, place)?;
            *from = Input::File(file);
        }
        Input::File(file) => {
            file.seek(SeekFrom::Start(place))?;
        }
    }
    Ok(())
}

// Reads a text twice, where it can be read twice: so that no block is written where a line is bad.
fn text_calls(rt: HostRuntime, from: &mut Input) {
    let Some(start) = place_of(rt, from) else {
        finish(rt, pass(rt, from, true));
        return;
    };
    let first = pass(rt, from, false);
    if first.bad {
        spoil(rt);
        return;
    }
    if let Err(e) = go_back(rt, from, start) {
        program::failed(rt, b"textcalls", b"input", e);
        spoil(rt);
        return;
    }
    let again = pass(rt, from, true);
    if again.gone | again.bad {
        finish(rt, again);
        return;
    }
    if again.line != first.line {
        program::message(rt, b"textcalls", b"the text has changed\n");
        spoil(rt);
    }
}

// ---- the argument

fn main(rt: HostRuntime) {
    match program::open_argument(rt, b"textcalls", b"usage: textcalls [FILE]\n") {
        Source::Opened(mut input) => text_calls(rt, &mut input),
        Source::Nothing => {}
        Source::Failed => spoil(rt),
    }
}
