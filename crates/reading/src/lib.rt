// Reading into a lent buffer until it is full or the input ends. What a system gives is open, so the promise is about the rest: where it lands, and how the reading ended.
#![tactic(auto)]

ghost use Rattle.std.specs.Prelude.{◌≡◌};
ghost use Rattle.reading.specs.declared.How.TheVariants.{Again};
ghost use Rattle.reading.specs.Read.{ReadInto};

use std::io;
use std::io::{ErrorKind, Read};

// How a reading ended: the buffer is full, the input has ended, or a read failed; or it goes on.
#[derive(Clone, Copy, PartialEq, Eq)]
pub enum How {
    Full,
    End,
    Failed,
    Again,
}

// How many bytes stand in the buffer, how the reading ended, and why where a read failed.
#[derive(Clone, Copy)]
pub struct Got {
    pub n: usize,
    pub how: How,
    pub error: Option<io::Error>,
}

// One read, behind the bytes that stand in the buffer. Where a signal interrupts it no byte came, and reading goes on.
pub fn read_once<R: Read>(from: &mut R, buf: &mut [u8], at: usize) -> Got
    ensures read_into { ReadInto at buf.old buf.new result.n result.how }
{
    if buf.len() <= at {
        return Got {
            n: at,
            how: How::Full,
            error: None,
        };
    }
    match from.read(&mut buf[at..]) {
        Ok(0) => Got {
            n: at,
            how: How::End,
            error: None,
        },
        Ok(got) => Got {
            n: at + got,
            how: How::Again,
            error: None,
        },
        Err(e) if e.kind() == ErrorKind::Interrupted => Got {
            n: at,
            how: How::Again,
            error: None,
        },
        Err(e) => Got {
            n: at,
            how: How::Failed,
            error: Some(e),
        },
    }
}

// Reads behind the first `have` bytes until the buffer is full, the input ends or a read fails; one that a signal interrupts is tried again.
pub fn read_on<R: Read>(from: &mut R, buf: &mut [u8], have: usize) -> Got
    ensures ended { result.how ≡ Again → ⊥ }
    ensures read_into { ReadInto have buf.old buf.new result.n result.how }
{
    let mut n = have;
    for _ in 0..u64::MAX {
        let g = read_once(from, buf, n);
        if g.how != How::Again {
            return g;
        }
        n = g.n;
    }
    Got {
        n,
        how: How::Failed,
        error: Some(io::Error::from(ErrorKind::Interrupted)),
    }
}
