// Calls as lines of text: a name and its numbers.
#![tactic(auto)]

ghost use Rattle.std.specs.Prelude.{◌≡◌, ◌+◌, ◌<◌, ◌≤◌, ◌^◌, length, get_or, drop};
ghost use Rattle.textwords.specs.Text.{words_of, same_text};
ghost use Rattle.callfile.specs.Placed.{Puts, PutLine};
ghost use Rattle.calltext.specs.Names.{name_at, name_place, has_name, code_place, kind_at};
ghost use Rattle.calltext.specs.Lines.{Parsed, call_of, gather_call, at_sign, destination_of, named_call, call_for, call_in, line_call};
ghost use Rattle.calltext.specs.Faults.{fault_among, fault_named, fault_after, fault_in, fault_word, word_in, WordAt, FaultAt};
ghost use Rattle.calltext.specs.Shown.{shown_words, fields, code_field, shown_destination, destination_text, call_text};

use calls::Call;
use textwords::Stop;

// The names by code; the last is that of a call of any code.
const NAMES: [&str; 18] = [
    "open",
    "enqueue",
    "join",
    "leave",
    "ack",
    "pull",
    "timeout",
    "prefetch",
    "unmark",
    "sweep",
    "clear",
    "add_producer",
    "remove_producer",
    "duplicate",
    "release_audits",
    "release",
    "start",
    "raw",
];

// What each of a call's eight words holds: 0 nothing, 1 an unsigned number, 2 a signed one.
const KINDS: [u8; 144] = [
    1, 1, 1, 1, 1, 1, 0, 0, 1, 2, 1, 1, 1, 2, 1, 1, 1, 2, 2, 2, 1, 1, 1, 0, 1, 2, 2, 2, 1, 0, 0, 0,
    1, 2, 2, 1, 2, 2, 1, 0, 1, 2, 2, 2, 1, 0, 0, 0, 1, 2, 2, 1, 0, 0, 0, 0, 1, 2, 2, 2, 1, 0, 0, 0,
    1, 2, 2, 0, 0, 0, 0, 0, 1, 1, 0, 0, 0, 0, 0, 0, 0, 0, 0, 0, 0, 0, 0, 0, 1, 2, 2, 0, 0, 0, 0, 0,
    1, 2, 2, 1, 0, 0, 0, 0, 1, 2, 2, 2, 0, 0, 0, 0, 1, 0, 0, 0, 0, 0, 0, 0, 1, 2, 2, 1, 0, 0, 0, 0,
    1, 0, 0, 0, 0, 0, 0, 0, 0, 0, 0, 0, 0, 0, 0, 0,
];

// The place of the name for any code.
const RAW: usize = 17;

// Word 0 of a call is its code and so many times its destination's number; the largest number that leaves it a word.
const CODES: u64 = 256;

const MOST_DESTINATION: u64 = 72057594037927935;

// What stands before a destination's number.
const AT: u8 = 64;

// What is wrong with a line.
#[derive(Clone, Copy, PartialEq, Eq)]
pub enum Fault {
    UnknownCall,
    NotANumber,
    TooManyArguments,
    NotADestination,
    NoName,
}

// What a line is: a call, nothing, or at fault.
pub type Parsed = Result<Option<Call>, Fault>;

// A part of a line, from a place to another.
#[derive(Clone, Copy)]
pub struct Part {
    pub from: usize,
    pub to: usize,
}

// ---- names

// The name at a place.
fn name_of(place: usize) -> &'static [u8]
    requires { place < 18 }
    ensures { (result.now ≡ name_at place) × (length result.now ≤ 15) }
{
    NAMES[place].as_bytes()
}

// The place of a name, or 18.
fn place_of(word: &[u8]) -> usize
    ensures { result ≡ name_place word.now }
{
    NAMES
        .iter()
        .position(|name| textwords::same(word, name.as_bytes()))
        .unwrap_or(NAMES.len())
}

// ---- from a line to a call

fn call_of(n: [u64; 9]) -> Call
    ensures { result ≡ call_of n }
{
    let words = [n[1], n[2], n[3], n[4], n[5], n[6], n[7], n[8]];
    Call::new(n[0], words)
}

// The words from a place on, as numbers from the n-th on.
fn gather_from(text: &[u8], from: usize, first: usize, start: [u64; 9]) -> Parsed
    requires { (from ≤ length text.now) × (first ≤ 9) }
    ensures { result ≡ gather_call first start (words_of (drop from text.now)) }
{
    let mut nine = start;
    let mut n = first;
    let mut i = textwords::scan(text, from, Stop::Word);
    // A while: the place moves on by a word at each turn.
    while i < text.len() {
        if n == 9 {
            return Err(Fault::TooManyArguments);
        }
        let e = textwords::scan(text, i, Stop::Blank);
        let Some(v) = textwords::number_of(&text[i..e]) else {
            return Err(Fault::NotANumber);
        };
        nine[n] = v;
        n += 1;
        i = textwords::scan(text, e, Stop::Word);
    }
    Ok(Some(call_of(nine)))
}

// The first word from a place on; none, at the end, where there is none.
fn next_word(text: &[u8], from: usize) -> Part
    requires { from ≤ length text.now }
    ensures { WordAt from text.now result }
{
    let i = textwords::scan(text, from, Stop::Word);
    let e = textwords::scan(text, i, Stop::Blank);
    Part { from: i, to: e }
}

// The words after a name, of a call for a destination.
fn named_from(text: &[u8], from: usize, d: u64, place: usize) -> Parsed
    requires { (from ≤ length text.now) × (d < 2 ^ 56) }
    ensures { result ≡ named_call d place (words_of (drop from text.now)) }
{
    let mut nine = [0u64; 9];
    if place < RAW {
        nine[0] = place as u64 + CODES * d;
        return gather_from(text, from, 1, nine);
    }
    if place == RAW {
        return gather_from(text, from, 0, nine);
    }
    Err(Fault::UnknownCall)
}

// Whether a word stands for a destination.
fn at_sign(word: &[u8]) -> bool
    ensures { result ≡ at_sign word.now }
{
    word.first() == Some(&AT)
}

// The destination's number in such a word.
fn destination_of(word: &[u8]) -> Option<u64>
    ensures { result ≡ destination_of word.now }
{
    let (_, number) = word.split_first()?;
    let d = textwords::number_of(number)?;
    if MOST_DESTINATION < d {
        return None;
    }
    Some(d)
}

// The words after a destination's number.
fn call_for(text: &[u8], from: usize, d: u64) -> Parsed
    requires { (from ≤ length text.now) × (d < 2 ^ 56) }
    ensures { result ≡ call_for d (words_of (drop from text.now)) }
{
    let w = next_word(text, from);
    let i = w.from;
    let e = w.to;
    if i == text.len() {
        return Err(Fault::NoName);
    }
    let place = place_of(&text[i..e]);
    if place == RAW {
        return Err(Fault::NoName);
    }
    named_from(text, e, d, place)
}

// A text without remarks.
fn parse_words(text: &[u8]) -> Parsed
    ensures { result ≡ call_in (words_of text.now) }
{
    let w = next_word(text, 0);
    let i = w.from;
    let e = w.to;
    if i == text.len() {
        return Ok(None);
    }
    if !at_sign(&text[i..e]) {
        let place = place_of(&text[i..e]);
        return named_from(text, e, 0, place);
    }
    let Some(d) = destination_of(&text[i..e]) else {
        return Err(Fault::NotADestination);
    };
    call_for(text, e, d)
}

// A line: a call, nothing, or what is wrong with it.
pub fn parse(line: &[u8]) -> Parsed
    ensures { result ≡ line_call line.now }
{
    let e = textwords::scan(line, 0, Stop::Remark);
    parse_words(&line[0..e])
}

// ---- the word at fault

// The first word from a place on that is no number, or that is one too many.
fn fault_from(text: &[u8], from: usize, first: usize) -> Part
    requires { (from ≤ length text.now) × (first ≤ 9) }
    ensures { FaultAt (fault_among first (words_of (drop from text.now))) text.now result }
{
    let mut n = first;
    let mut i = textwords::scan(text, from, Stop::Word);
    // A while: the place moves on by a word at each turn.
    while i < text.len() {
        let e = textwords::scan(text, i, Stop::Blank);
        if 8 < n {
            return Part { from: i, to: e };
        }
        if textwords::number_of(&text[i..e]).is_none() {
            return Part { from: i, to: e };
        }
        n += 1;
        i = textwords::scan(text, e, Stop::Word);
    }
    Part { from: i, to: i }
}

// From a name on.
fn fault_named(text: &[u8], name: Part, place: usize) -> Part
    requires { (name.from ≤ name.to) × (name.to ≤ length text.now) × (place ≡ name_place (word_in text.now name)) }
    ensures { FaultAt (fault_named (word_in text.now name) (words_of (drop name.to text.now))) text.now result }
{
    if RAW < place {
        return name;
    }
    if place == RAW {
        return fault_from(text, name.to, 0);
    }
    fault_from(text, name.to, 1)
}

// From a destination's number on.
fn fault_after(text: &[u8], at: Part) -> Part
    requires { (at.from ≤ at.to) × (at.to ≤ length text.now) }
    ensures { FaultAt (fault_after (word_in text.now at) (words_of (drop at.to text.now))) text.now result }
{
    let w = next_word(text, at.to);
    let i = w.from;
    let e = w.to;
    if i == text.len() {
        return at;
    }
    let place = place_of(&text[i..e]);
    if place == RAW {
        return at;
    }
    fault_named(text, w, place)
}

// Of a text without remarks.
fn fault_in(text: &[u8]) -> Part
    ensures { FaultAt (fault_in (words_of text.now)) text.now result }
{
    let w = next_word(text, 0);
    let i = w.from;
    let e = w.to;
    if i == text.len() {
        return w;
    }
    if !at_sign(&text[i..e]) {
        let place = place_of(&text[i..e]);
        return fault_named(text, w, place);
    }
    if destination_of(&text[i..e]).is_none() {
        return w;
    }
    fault_after(text, w)
}

// The word of a line that makes it a bad one; no bytes where it is none.
pub fn fault_of(text: &[u8]) -> Part
    ensures { FaultAt (fault_word text.now) text.now result }
{
    let e = textwords::scan(text, 0, Stop::Remark);
    fault_in(&text[0..e])
}

// ---- from a call to a line

fn put_name(out: &mut [u8], at: usize, place: usize) -> usize
    requires { (place < 18) × (at + 15 ≤ (length out.old)) }
    ensures { Puts (name_at place) at out.old result out.new × (result ≤ at + 15) }
{
    callfile::put_all(out, at, name_of(place))
}

// Whether the code in a call's word 0 has a name.
fn has_name(code: u64) -> bool
    ensures { result ≡ has_name code }
{
    code % CODES <= 16
}

// The place of the name for a call's word 0.
fn place_for(code: u64) -> usize
    ensures { (result ≡ code_place code) × (result < 18) }
{
    if has_name(code) {
        return (code % CODES) as usize;
    }
    RAW
}

// The destination that is written before the name.
fn shown_destination(code: u64) -> u64
    ensures { result ≡ shown_destination code }
{
    if has_name(code) {
        return code / CODES;
    }
    0
}

// A destination that is not 0, and a space. The number is put after a space, which becomes the sign.
fn put_destination(out: &mut [u8], at: usize, d: u64) -> usize
    requires { at + 128 ≤ (length out.old) }
    ensures { Puts (destination_text d) at out.old result out.new × (result ≤ at + 22) }
{
    if d == 0 {
        return at;
    }
    let next = callfile::put_word(out, at, d, false);
    callfile::put_byte(out, at, AT);
    callfile::put_byte(out, next, b' ')
}

// Word 0, where the name does not say it.
fn put_code(out: &mut [u8], at: usize, code: u64) -> usize
    requires { at + 128 ≤ (length out.old) }
    ensures { Puts (code_field code) at out.old result out.new × (result ≤ at + 22) }
{
    if has_name(code) {
        return at;
    }
    callfile::put_word(out, at, code, false)
}

// What word k of a call holds.
fn kind_at(place: usize, k: usize) -> u8
    requires { (place < 18) × (k < 8) }
    ensures { result ≡ kind_at place k }
{
    KINDS[place * 8 + k]
}

// How many words are written.
fn shown_words(place: usize, w: [u64; 8]) -> usize
    requires { place < 18 }
    ensures { (result ≡ shown_words place w 8) × (result ≤ 8) }
{
    for k in (0..8).rev() {
        if kind_at(place, k) != 0 || w[k] != 0 {
            return k + 1;
        }
    }
    0
}

fn put_fields(out: &mut [u8], at: usize, place: usize, w: [u64; 8], n: usize) -> usize
    requires { (place < 18) × (n ≤ 8) × (at + 304 ≤ (length out.old)) }
    ensures { Puts (fields place w n) at out.old result out.new × (result ≤ at + 176) }
{
    let mut next = at;
    for k in 0..n {
        let minus = kind_at(place, k) == 2;
        next = callfile::put_word(out, next, w[k], minus);
    }
    next
}

fn text_line(out: &mut [u8], at: usize, c: Call) -> usize
    requires { at + 512 ≤ (length out.old) }
    ensures { Puts (call_text c) at out.old result out.new × (result ≤ at + 512) }
{
    let code = c.code;
    let words = c.words;
    let place = place_for(code);
    let destination = shown_destination(code);
    let name = put_destination(out, at, destination);
    let a = put_name(out, name, place);
    let b = put_code(out, a, code);
    let n = shown_words(place, words);
    let d = put_fields(out, b, place, words, n);
    callfile::put_byte(out, d, b'\n')
}

// A call as a line of text. Without room for 512 bytes, nothing is put.
pub fn put_text(out: &mut [u8], at: usize, c: Call) -> usize
    ensures { PutLine 512 (call_text c) at out.old result out.new }
{
    if out.len() < 512 {
        return at;
    }
    if out.len() - 512 < at {
        return at;
    }
    text_line(out, at, c)
}
