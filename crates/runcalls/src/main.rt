// Runs a call file, document 01's program: from standard input, or from the file that its one argument names. Here is only reading and
// writing: `running` says what is printed, wherever the file is cut.
#![tactic(auto)]

ghost use Rattle.std.specs.Prelude.{◌≡◌, length};

use callfile::Reading;
use consumers::SubRow;
use entry::Row;
use program::{Input, Source};
use state::Event;

const NAME: &[u8] = b"runcalls";

// Runs a piece, and writes its lines; whether all was written.
fn run_piece(
    rt: HostRuntime,
    head: &mut [u64],
    subs: &mut [SubRow],
    rows: &mut [Row],
    events: &mut [Event],
    block: &mut [u8],
    at: &mut Reading,
    piece: &[u8],
    out: &mut [u8],
) -> bool {
    let mut from = 0;
    // A while: the place moves by what a step takes.
    while from < piece.len() {
        let t = running::run_piece(head, subs, rows, events, block, *at, piece, from, out);
        if !program::write(rt, NAME, out, t.written) {
            return false;
        }
        *at = t.reading;
        from = t.next;
    }
    true
}

fn text() -> [u8; 489216]
    ensures { 489216 ≡ length result }
{
    [0; 489216]
}

// The whole run, from a state of zeros.
fn run(rt: HostRuntime, from: &mut Input) {
    let mut head = [0u64; 8347];
    let mut subs = [[0u64; 16]; 32];
    let mut rows = [[0u64; 10]; 512];
    let mut events = [[0u64; 6]; 545];
    let mut block = [0u8; 512];
    let mut out = text();
    let mut at = Reading {
        have: 0,
        number: 0,
        index: 0,
        goes_on: true,
    };
    let mut written = true;
    let failed = pieces::each_piece(rt, NAME, from, |piece| {
        written = run_piece(
            rt,
            &mut head,
            &mut subs,
            &mut rows,
            &mut events,
            &mut block,
            &mut at,
            piece,
            &mut out,
        );
        written && at.goes_on
    });
    if written {
        let n = running::run_end(&head, at, failed, &mut out);
        program::write(rt, NAME, &out, n);
    }
    program::hint(rt, NAME, &block, at);
}

fn main(rt: HostRuntime) {
    let source = program::open_argument(
        rt,
        NAME,
        b"usage: runcalls [FILE]: runs a call file, standard input without FILE, and prints its lines\n",
    );
    if let Source::Opened(mut input) = source {
        run(rt, &mut input);
    }
}
