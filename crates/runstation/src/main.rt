// Runs a station's call file, document 02 §1's program: from standard input, or from the file that its one argument names. Here is only reading and
// writing: `stationrun` says what is printed, wherever the file is cut.
#![tactic(auto)]

ghost use Rattle.std.specs.Prelude.{◌≡◌, length};

use callfile::Reading;
use consumers::SubRow;
use entry::Row;
use program::{Input, Source};
use stationcalls::Sent;
use stationrun::StationReading;

const NAME: &[u8] = b"runstation";

// Hands a piece over, a step at a time, and writes the lines of each; whether all was written.
fn run_piece(
    rt: HostRuntime,
    heads: &mut [u64],
    subs: &mut [SubRow],
    rows: &mut [Row],
    own: &mut [u64],
    events: &mut [Sent],
    block: &mut [u8],
    at: &mut StationReading,
    piece: &[u8],
    out: &mut [u8],
) -> bool {
    let mut from = 0;
    // A while: the place moves by what a step takes.
    while stationrun::is_due(*at, from, piece.len()) {
        let t = stationrun::run_station_step(
            heads, subs, rows, own, events, block, *at, piece, from, out,
        );
        if !program::write(rt, NAME, out, t.written) {
            return false;
        }
        *at = t.reading;
        from = t.next;
    }
    true
}

fn text() -> [u8; 623872]
    ensures { 623872 ≡ length result }
{
    [0; 623872]
}

// The whole run, from a state of zeros.
fn run(rt: HostRuntime, from: &mut Input) {
    let mut heads = [0u64; 66776];
    let mut subs = [[0u64; 16]; 256];
    let mut rows = [[0u64; 10]; 4096];
    let mut own = [0u64; 20];
    let mut events = [[0u64; 6]; 4872];
    let mut block = [0u8; 512];
    let mut out = text();
    let reading = Reading {
        have: 0,
        number: 0,
        index: 0,
        goes_on: true,
    };
    let mut at = StationReading { reading, run: 0 };
    let mut written = true;
    let failed = pieces::each_piece(rt, NAME, from, |piece| {
        written = run_piece(
            rt,
            &mut heads,
            &mut subs,
            &mut rows,
            &mut own,
            &mut events,
            &mut block,
            &mut at,
            piece,
            &mut out,
        );
        written && at.reading.goes_on
    });
    if written {
        let n = stationrun::run_station_end(
            &heads, &subs, &rows, &own, &events, at.reading, failed, &mut out,
        );
        program::write(rt, NAME, &out, n);
    }
    program::hint(rt, NAME, &block, at.reading);
}

fn main(rt: HostRuntime) {
    let source = program::open_argument(
        rt,
        NAME,
        b"usage: runstation [FILE]: runs a station's call file, standard input without FILE, and prints its lines\n",
    );
    if let Source::Opened(mut input) = source {
        run(rt, &mut input);
    }
}
