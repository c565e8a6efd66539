// Says whether a text of rows is a good table of layouts, or what is wrong with it.
#![tactic(auto)]

ghost use Rattle.std.specs.Prelude.{◌≡◌, length};

use program::{Input, Source};
use reading::How;

// ---- reading

fn buffer() -> [u8; 1048576]
    ensures { 1048576 ≡ length result }
{
    [0; 1048576]
}

// ---- what is said

fn say_verdict(rt: HostRuntime, buf: &[u8], n: usize) {
    if buf.len() < n {
        return;
    }
    let mut said = [0u8; 512];
    let m = layouttext::verdict(&buf[0..n], &mut said);
    program::write(rt, b"layoutcheck", &said, m);
}

// Reads a text whole, and says what is to be said of it.
fn check_text(rt: HostRuntime, from: &mut Input) {
    let mut buf = buffer();
    let g = program::read(rt, b"layoutcheck", from, &mut buf, 0);
    match g.how {
        How::Full => {
            program::message(rt, b"layoutcheck", b"a text of 1048576 bytes or more\n");
        }
        How::End | How::Again => say_verdict(rt, &buf, g.n),
        How::Failed => {}
    }
}

// ---- the argument

fn main(rt: HostRuntime) {
    let source = program::open_argument(rt, b"layoutcheck", b"usage: layoutcheck [FILE]\n");
    if let Source::Opened(mut input) = source {
        check_text(rt, &mut input);
    }
}
