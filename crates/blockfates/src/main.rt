// Runs a call file, from standard input or from the file that its one argument names, and says where each block of its queue is or how it left. Here is only reading and
// writing: `reporting` says what is printed, wherever the file is cut.
#![tactic(auto)]

ghost use Rattle.std.specs.Prelude.{◌≡◌, length};

use callfile::Reading;
use consumers::SubRow;
use entry::Row;
use program::{Input, Source};
use report::Block;
use reporting::Kept;
use reportlines::Gone;
use state::Event;

const NAME: &[u8] = b"blockfates";

// Hands a piece over, and writes its lines; whether all was written.
fn report_piece(
    rt: HostRuntime,
    head: &mut [u64],
    subs: &mut [SubRow],
    rows: &mut [Row],
    events: &mut [Event],
    held: &mut [Block],
    block: &mut [u8],
    at: &mut Reading,
    kept: &mut Kept,
    piece: &[u8],
    out: &mut [u8],
) -> bool {
    let mut from = 0;
    // A while: the place moves by what a step takes.
    while from < piece.len() {
        let t = reporting::report_piece(
            head, subs, rows, events, held, *kept, block, *at, piece, from, out,
        );
        let took = t.took;
        if !program::write(rt, NAME, out, took.written) {
            return false;
        }
        *at = took.reading;
        *kept = t.kept;
        from = took.next;
    }
    true
}

// Nothing is held, and nothing is gone.
fn none_kept() -> Kept {
    let gone = Gone {
        dequeued: 0,
        expired: 0,
        discarded: 0,
        dead_lettered: 0,
        cleared: 0,
    };
    Kept { count: 0, gone }
}

fn text() -> [u8; 949760] {
    [0; 949760]
}

// The whole run, from a state of zeros: at its end what is held, the totals and the counters.
fn run(rt: HostRuntime, from: &mut Input) {
    let mut head = [0u64; 8347];
    let mut subs = [[0u64; 16]; 32];
    let mut rows = [[0u64; 10]; 512];
    let mut events = [[0u64; 6]; 545];
    let mut held = [[0u64; 3]; 512];
    let mut block = [0u8; 512];
    let mut out = text();
    let mut at = Reading {
        have: 0,
        number: 0,
        index: 0,
        goes_on: true,
    };
    let mut kept = none_kept();
    let mut written = true;
    let failed = pieces::each_piece(rt, NAME, from, |piece| {
        written = report_piece(
            rt,
            &mut head,
            &mut subs,
            &mut rows,
            &mut events,
            &mut held,
            &mut block,
            &mut at,
            &mut kept,
            piece,
            &mut out,
        );
        written && at.goes_on
    });
    if written {
        let n = reporting::report_end(&head, &held, kept, at, failed, &mut out);
        program::write(rt, NAME, &out, n);
    }
    program::hint(rt, NAME, &block, at);
}

fn main(rt: HostRuntime) {
    let source = program::open_argument(
        rt,
        NAME,
        b"usage: blockfates [FILE]: runs a call file, standard input without FILE, and says where each block ended\n",
    );
    if let Source::Opened(mut input) = source {
        run(rt, &mut input);
    }
}
