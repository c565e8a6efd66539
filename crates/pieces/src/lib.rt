// What a program does that takes its input in pieces: it reads one after another and hands each over. Which bytes come, and how many, is the system's.
#![tactic(auto)]

ghost use Rattle.std.specs.Prelude.{◌≡◌, length};

use program::Input;
use reading::How;

fn room() -> [u8; 65536]
    ensures { 65536 ≡ length result }
{
    [0; 65536]
}

// Hands over the pieces of an input, up to its end, a read that fails or one after which `take` wants no more, and answers whether a read failed, which is said on
// standard error under the program's name.
pub fn each_piece<F: FnMut(&[u8]) -> bool>(
    rt: HostRuntime,
    name: &[u8],
    from: &mut Input,
    mut take: F,
) -> bool
    requires { F.IsAlwaysCallable take }
{
    let mut piece = room();
    for _ in 0..u64::MAX {
        let g = reading::read_once(from, &mut piece, 0);
        let n = g.n;
        if g.how == How::Failed {
            if let Some(e) = g.error {
                program::failed(rt, name, b"input", e);
            }
            return true;
        }
        if g.how != How::Again {
            return false;
        }
        if !take(&piece[..n]) {
            return false;
        }
    }
    false
}
