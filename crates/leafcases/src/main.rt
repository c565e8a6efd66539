// Replays cases of the leaf functions that the Rust itself made: a case a line on standard input.
// Prints how many cases of each function there were and how many differ, and the first lines that differ or cannot be read.
#![tactic(auto)]

mod cases;
mod parse;

use cases::{Counts, Run};
use std::io::Read;

// How many lines are named.
const SHOWN: u64 = 10;

// Ends a line: it is parsed, run and counted.
fn finish(rt: &impl Print, line: &[u8], window: &mut [u64], r: Run) -> Run {
    let l = parse::line_of(line, r.len, r.over);
    let values = l.values;
    let t = cases::compared(window, r.audit, l.kind, values);
    let number = stats::more_of(r.lines);
    Run {
        counts: r.counts.with(l.kind, t.same),
        audit: t.audit,
        lines: number,
        shown: noted(rt, l.kind, t.same, number, r.shown),
        len: 0,
        over: false,
        ..r
    }
}

// Names a line that differs or is bad, up to ten of them.
fn noted(rt: &impl Print, kind: parse::Kind, same: bool, number: u64, shown: u64) -> u64 {
    if same || SHOWN <= shown {
        return shown;
    }
    match kind {
        parse::Kind::Bad => print_line(rt, b"bad ", number),
        _ => print_line(rt, b"differs ", number),
    }
    shown + 1
}

// What cannot be written is let go.
fn print_line(rt: &impl Print, text: &[u8], number: u64) {
    let _ = rt.write_all(text);
    let _ = rt.print(number);
    let _ = rt.write_all(b"\n");
}

// A byte of the input.
fn fed(rt: &impl Print, line: &mut [u8], window: &mut [u64], mut r: Run, byte: u8) -> Run {
    if byte == b'\n' {
        return finish(rt, line, window, r);
    }
    let n = r.len;
    if n < line.len() {
        line[n] = byte;
        r.len = n + 1;
    } else {
        r.over = true;
    }
    r
}

fn fed_all(rt: &impl Print, bytes: &[u8], line: &mut [u8], window: &mut [u64], start: Run) -> Run {
    let mut r = start;
    for byte in bytes {
        r = fed(rt, line, window, r, *byte);
    }
    r
}

// Reads once. No bytes are the end.
fn turn(rt: &(impl Input + Print), line: &mut [u8], window: &mut [u64], mut r: Run) -> Run {
    let mut bytes = [0u8; 4096];
    let Ok(n) = rt.reader().read(&mut bytes) else {
        let _ = rt.write_all(b"cannot read\n");
        r.reading = false;
        return r;
    };
    if n == 0 {
        r.reading = false;
        return r;
    }
    fed_all(rt, &bytes[..n], line, window, r)
}

// A last line that has no end.
fn ended(rt: &impl Print, line: &[u8], window: &mut [u64], r: Run) -> Counts {
    if r.len == 0 {
        return r.counts;
    }
    let last = finish(rt, line, window, r);
    last.counts
}

// Nothing says that the input ends, so the turns are counted down from a number that no run uses up.
fn run(rt: &(impl Input + Print), line: &mut [u8], window: &mut [u64]) -> Counts {
    let mut r = Run::new();
    for _ in 0..u64::MAX {
        if !r.reading {
            break;
        }
        r = turn(rt, line, window, r);
    }
    ended(rt, line, window, r)
}

fn print_count(rt: &impl Print, name: &[u8], c: cases::Count) {
    let _ = rt.write_all(name);
    let _ = rt.print(c.cases);
    let _ = rt.write_all(b" cases, ");
    let _ = rt.print(c.differ);
    let _ = rt.write_all(b" differ\n");
}

fn main(rt: HostRuntime) {
    let mut line = [0u8; 256];
    let mut window = [0u64; 1024];
    let c = run(&rt, &mut line, &mut window);
    print_count(&rt, b"expired ", c.expired);
    print_count(&rt, b"redelivered ", c.redelivered);
    print_count(&rt, b"admit_memory ", c.admit_memory);
    print_count(&rt, b"apply_expiry_options ", c.apply_expiry_options);
    print_count(&rt, b"audit ", c.audit);
    print_line(&rt, b"audits ", c.audits);
    print_line(&rt, b"bad lines ", c.bad);
}
