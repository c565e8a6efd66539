// Writes the calls of a call file as text, a call a line.
#![tactic(auto)]

use program::{Input, Source};
use reading::How;

// The text of a block, of which so many bytes were read.
fn show_block(rt: HostRuntime, block: &[u8], got: usize, number: u64) -> bool {
    let mut text = [0u8; 3584];
    let n = texting::show(block, got, number, &mut text);
    program::write(rt, b"showcalls", &text, n)
}

// Shows a block; whether another may follow. One that could not be read whole is a bad one.
fn show_next(rt: HostRuntime, from: &mut Input, number: u64) -> bool {
    let mut block = [0u8; 512];
    let g = program::read(rt, b"showcalls", from, &mut block, 0);
    let n = g.n;
    if g.how == How::Failed {
        show_block(rt, &block, 0, number);
        return false;
    }
    if n == 0 {
        return false;
    }
    let written = show_block(rt, &block, n, number);
    if callfile::calls_in(&block, n) == 0 {
        return false;
    }
    written
}

// Shows the blocks to the end, or to a bad one.
fn show_calls(rt: HostRuntime, from: &mut Input) {
    for number in 0..u64::MAX {
        if !show_next(rt, from, number) {
            return;
        }
    }
}

// ---- the argument

// What stands for a file that cannot be read: a bad block.
fn no_file(rt: HostRuntime) {
    let block = [0u8; 512];
    show_block(rt, &block, 0, 0);
}

fn main(rt: HostRuntime) {
    match program::open_argument(rt, b"showcalls", b"usage: showcalls [FILE]\n") {
        Source::Opened(mut input) => show_calls(rt, &mut input),
        Source::Nothing => {}
        Source::Failed => no_file(rt),
    }
}
