// What every program does: its argument, reading, writing, messages. Which bytes a system gives and takes, and whether it opens a file, is open, and no contract speaks of it. What holds
// whatever it does: a reading keeps what stood in the buffer, only bytes that were lent are written, a message begins with the program's name, and an argument means what `word_asks` says.
#![tactic(auto)]

ghost use Rattle.std.specs.Prelude.{◌≡◌, true, ◌+◌, ◌≤◌, leb, length, IfOk, is_ok};
ghost use Rattle.reading.specs.declared.How.TheVariants.{Again};
ghost use Rattle.reading.specs.Read.{ReadInto};
ghost use Rattle.callfile.specs.Placed.{Puts, PutLine};
ghost use Rattle.program.specs.Said.{headed, Written, hint_text, hint_by};
ghost use Rattle.program.specs.Asked.{word_asks, is_text_byte, are_text, part_like, looks_like, read_of, is_puzzling};

use callfile::Reading;
use reading::Got;
use std::env::FillError;
use std::fs::File;
use std::io::{ErrorKind, Read, Write};
use std::rt::{Env, Stdin};
use std::{io, str};

// What an argument asks for.
#[derive(Clone, Copy)]
pub enum Asks {
    File,
    Help,
    Wrong,
}

// Standard input, or a file that was opened.
#[derive(Drop)]
pub enum Input {
    Stdin(Stdin),
    File(File),
}

// Where a program reads from: an input that is open, none where the usage was asked for, or none where there is no such file or the arguments are wrong.
#[derive(Drop)]
pub enum Source {
    Opened(Input),
    Nothing,
    Failed,
}

// What a file looks like.
#[derive(Clone, Copy)]
pub enum Looks {
    Calls,
    Marked,
    Text,
    Other,
}

// The system's numbers of an argument that is not there, one that is too long, and one that is no UTF-8.
const EINVAL: i32 = 22;

const ENAMETOOLONG: i32 = 36;

const EILSEQ: i32 = 84;

// ---- reading

impl Read for Input {
    fn read(&mut self, buf: &mut [u8]) -> io::Result<usize> {
        match self {
            Input::Stdin(stdin) => stdin.read(buf),
            Input::File(file) => file.read(buf),
        }
    }
}

// ---- writing

// One write, and another where a signal has interrupted it.
fn write_some<W: Write>(to: &mut W, part: &[u8]) -> io::Result<usize>
    ensures { IfOk result (λ n. n ≤ length part.now) }
{
    for _ in 0..u64::MAX {
        match to.write(part) {
            Err(e) if e.kind() == ErrorKind::Interrupted => {}
            answer => return answer,
        }
    }
    Err(io::Error::from(ErrorKind::Interrupted))
}

// The first n bytes of a text; whether all were written.
fn write_to<W: Write>(to: &mut W, text: &[u8], n: usize) -> io::Result<()>
    ensures { Written text.now n (is_ok result) }
{
    if text.len() < n {
        return Err(io::Error::from(ErrorKind::InvalidInput));
    }
    let mut done = 0;
    // A while: each turn writes as many bytes as the system takes. std's `write_all` has other words where it takes none.
    while done < n {
        let put = write_some(to, &text[done..n])?;
        if put == 0 {
            return Err(io::Error::from(ErrorKind::WriteZero));
        }
        done += put;
    }
    Ok(())
}

// ---- messages

// Whether so many bytes have room for a name, a colon, a space and a text.
fn has_room(len: usize, name: usize, text: usize) -> bool
    ensures { result ≡ leb (name + 2 + text) len }
{
    if len < name {
        return false;
    }
    if len - name < 2 {
        return false;
    }
    if len - name - 2 < text {
        return false;
    }
    true
}

fn headed_text(out: &mut [u8], name: &[u8], text: &[u8]) -> usize
    requires { length name.now + 2 + length text.now ≤ length out.old }
    ensures { Puts (headed name.now text.now) 0 out.old result out.new × (result ≤ length name.now + 2 + length text.now) }
{
    let a = callfile::put_all(out, 0, name);
    let b = callfile::put_all(out, a, b": ");
    callfile::put_all(out, b, text)
}

// `NAME: TEXT`. Without room for it, nothing is put.
pub fn put_headed(out: &mut [u8], name: &[u8], text: &[u8]) -> usize
    ensures { PutLine (length name.now + 2 + length text.now) (headed name.now text.now) 0 out.old result out.new }
{
    if !has_room(out.len(), name.len(), text.len()) {
        return 0;
    }
    headed_text(out, name, text)
}

// Writes `NAME: TEXT` to standard error; the text has its end of a line. Of more than 8192 bytes, nothing is written.
pub fn message(rt: HostRuntime, name: &[u8], text: &[u8]) -> bool
    ensures { result ≡ true → length name.now + 2 + length text.now ≤ 8192 }
{
    if !has_room(8192, name.len(), text.len()) {
        return false;
    }
    let mut line = [0u8; 8192];
    let n = put_headed(&mut line, name, text);
    write_to(&mut rt.stderr(), &line, n).is_ok()
}

// Puts the words for an error, and answers how many bytes they take.
fn put_words(out: &mut [u8], error: io::Error) -> usize
    ensures { result ≤ length out.old }
{
    let room = out.len();
    let mut rest = &mut *out;
    let _ = write!(rest, "{error}");
    room.saturating_sub(rest.len())
}

// Writes why a call failed, in the system's words. std puts the error's number behind them.
fn write_reason<W: Write>(to: &mut W, error: io::Error) {
    let mut text = [0u8; 256];
    let n = put_words(&mut text, error);
    if let Ok(words) = str::from_utf8(&text[0..n]) {
        let reason = match words.split_once(" (os error ") {
            Some((before, _)) => before,
            None => words,
        };
        let _ = to.write_all(reason.as_bytes());
    }
}

fn fail_with(rt: HostRuntime, line: &[u8], n: usize, error: io::Error) {
    if line.len() < n {
        return;
    }
    let mut to = rt.stderr();
    let _ = to.write_all(&line[0..n]);
    let _ = to.write_all(b": ");
    write_reason(&mut to, error);
    let _ = to.write_all(b"\n");
}

// Says on standard error why a call of the system failed, as `NAME: WHAT: REASON`, and answers whether it did; of more than 8192 bytes it says nothing.
pub fn failed(rt: HostRuntime, name: &[u8], what: &[u8], error: io::Error) -> bool
    ensures { result ≡ leb (length name.now + 2 + length what.now) 8192 }
{
    if !has_room(8192, name.len(), what.len()) {
        return false;
    }
    let mut line = [0u8; 8192];
    let n = put_headed(&mut line, name, what);
    fail_with(rt, &line, n, error);
    true
}

// ---- reading and writing

// Writes the first n bytes of a text to standard output and answers whether that was done; where it failed, it says so.
pub fn write(rt: HostRuntime, name: &[u8], text: &[u8], n: usize) -> bool
    ensures { Written text.now n result }
{
    match write_to(&mut rt.stdout(), text, n) {
        Ok(()) => true,
        Err(e) => {
            failed(rt, name, b"standard output", e);
            false
        }
    }
}

// `reading::read_on`, which says so where it failed.
pub fn read<R: Read>(rt: HostRuntime, name: &[u8], from: &mut R, buf: &mut [u8], have: usize) -> Got
    ensures ended { result.how ≡ Again → ⊥ }
    ensures read_into { ReadInto have buf.old buf.new result.n result.how }
{
    let g = reading::read_on(from, buf, have);
    if let Some(e) = g.error {
        failed(rt, name, b"input", e);
        return g;
    }
    g
}

// ---- the argument

// What a word asks for as the one argument of a program.
pub fn asked(word: &[u8]) -> Asks
    ensures { result ≡ word_asks word.now }
{
    if textwords::same(word, b"--help") {
        return Asks::Help;
    }
    if word.len() == 0 {
        return Asks::Wrong;
    }
    if word[0] == b'-' {
        return Asks::Wrong;
    }
    Asks::File
}

// A path of std's is UTF-8.
fn open_path(rt: HostRuntime, path: &[u8]) -> io::Result<File> {
    match str::from_utf8(path) {
        Ok(text) => File::open(&rt, text),
        Err(_) => Err(io::Error::from_raw_os_error(EILSEQ)),
    }
}

fn open_file(rt: HostRuntime, name: &[u8], path: &[u8]) -> Source {
    match open_path(rt, path) {
        Ok(file) => Source::Opened(Input::File(file)),
        Err(e) => {
            failed(rt, name, path, e);
            Source::Failed
        }
    }
}

fn open_word(rt: HostRuntime, name: &[u8], usage: &[u8], word: &[u8]) -> Source {
    match asked(word) {
        Asks::File => open_file(rt, name, word),
        Asks::Help => {
            let _ = write_to(&mut rt.stdout(), usage, usage.len());
            Source::Nothing
        }
        Asks::Wrong => {
            message(rt, name, usage);
            Source::Failed
        }
    }
}

// Whether the program was started with so many arguments.
fn is_given(rt: HostRuntime, i: usize) -> bool {
    let mut first = [0u8; 1];
    match rt.arg(i, &mut first) {
        Err(FillError::NotPresent) => false,
        _ => true,
    }
}

fn argument_error(e: FillError) -> io::Error {
    match e {
        FillError::NotPresent => io::Error::from_raw_os_error(EINVAL),
        FillError::TooLong => io::Error::from_raw_os_error(ENAMETOOLONG),
    }
}

// Where a program reads from: standard input without an argument, else the file that its one argument names. `--help` writes the line of usage to standard output; another option,
// an empty argument or more than one to standard error. What the arguments are, and whether the file opens, is the system's.
pub fn open_argument(rt: HostRuntime, name: &[u8], usage: &[u8]) -> Source {
    if !is_given(rt, 1) {
        return Source::Opened(Input::Stdin(rt.stdin()));
    }
    if is_given(rt, 2) {
        message(rt, name, usage);
        return Source::Failed;
    }
    let mut word = [0u8; 4096];
    match rt.arg(1, &mut word) {
        Ok(n) => open_word(rt, name, usage, &word[..n]),
        Err(e) => {
            failed(rt, name, b"argument", argument_error(e));
            Source::Failed
        }
    }
}

// ---- what a file looks like

fn is_text_byte(b: u8) -> bool
    ensures { result ≡ is_text_byte b }
{
    ((32 <= b) & (b <= 126)) | ((b == 9) | ((b == 10) | (b == 13)))
}

fn are_text(part: &[u8]) -> bool
    ensures { result ≡ are_text part.now }
{
    part.iter().all(|b| is_text_byte(*b))
}

fn part_like(part: &[u8]) -> Looks
    ensures { result ≡ part_like part.now }
{
    if textwords::has_mark(part) {
        return Looks::Marked;
    }
    if are_text(part) {
        return Looks::Text;
    }
    Looks::Other
}

// What a file looks like by its first n bytes; of fewer bytes than that, they are all. A text is printable ASCII, tabs and ends of lines.
pub fn looks_like(bytes: &[u8], n: usize) -> Looks
    ensures { result ≡ looks_like bytes.now n }
{
    if callfile::calls_in(bytes, n) != 0 {
        return Looks::Calls;
    }
    if bytes.len() < n {
        return part_like(bytes);
    }
    part_like(&bytes[0..n])
}

fn hint_text(out: &mut [u8], kind: Looks) -> usize
    requires { 160 ≤ length out.old }
    ensures { Puts (hint_text kind) 0 out.old result out.new × (result ≤ 160) }
{
    match kind {
        Looks::Marked => callfile::put_all(
            out,
            0,
            b"the input is a text that begins with a byte order mark: save it without one, and make a call file of it with textcalls\n",
        ),
        Looks::Text => callfile::put_all(
            out,
            0,
            b"the input is a text: make a call file of it with textcalls\n",
        ),
        Looks::Calls | Looks::Other => callfile::put_all(
            out,
            0,
            b"the input is no call file, or a damaged one\n",
        ),
    }
}

// What to say of an input whose first block is no block of calls, by what it looks like. Without room for 160 bytes, nothing is put.
pub fn put_hint_for(out: &mut [u8], kind: Looks) -> usize
    ensures { PutLine 160 (hint_text kind) 0 out.old result out.new }
{
    if out.len() < 160 {
        return 0;
    }
    hint_text(out, kind)
}

// The same by a number: 1 for a text with a mark, 2 for a text, and any other for what is neither.
#[tactic(auto, unfolding(crate::specs::Said::hint_text, crate::specs::Said::hint_by))]
pub fn put_hint(out: &mut [u8], kind: u64) -> usize
    ensures { PutLine 160 (hint_by kind) 0 out.old result out.new }
{
    match kind {
        1 => put_hint_for(out, Looks::Marked),
        2 => put_hint_for(out, Looks::Text),
        _ => put_hint_for(out, Looks::Other),
    }
}

// How many bytes of the block were read: those of the one that was begun, or all of it.
fn read_of(block: usize, at: Reading) -> usize
    ensures { result ≡ read_of block at }
{
    if at.number != 0 {
        return block;
    }
    at.have
}

// Writes the hint of a kind to standard error.
fn say_hint(rt: HostRuntime, name: &[u8], kind: Looks) {
    let mut said = [0u8; 160];
    let n = put_hint_for(&mut said, kind);
    if n <= 160 {
        message(rt, name, &said[0..n]);
    }
}

// Where not one call of an input was read, says on standard error what it looks like, by the block that has its first bytes, and answers whether there was something to say.
pub fn hint(rt: HostRuntime, name: &[u8], block: &[u8], at: Reading) -> bool
    ensures { result ≡ is_puzzling block.now at }
{
    if at.index != 0 {
        return false;
    }
    let n = read_of(block.len(), at);
    if n == 0 {
        return false;
    }
    match looks_like(block, n) {
        Looks::Calls => false,
        kind => {
            say_hint(rt, name, kind);
            true
        }
    }
}
