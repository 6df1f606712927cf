// Plays a script on standard input, a line a call, and prints what the runtime's functions answer.
// What they must answer is written down by hand from the paper in the file `stdout`. The lines:
//   # TEXT            a title, printed
//   text N TEXT       puts TEXT N times behind the plan text at hand
//   plan              reads the plan text at hand, of which nothing is left then
//   items, edges      those of the plan
//   lend P C V        from here on P words of the plan are lent, C counts and V values
//   junk N            word I of the plan becomes I + N, and 32 words behind the plan likewise
//   word I N          overwrites word I of the plan
//   at I              word I of the plan
//   count I N         overwrites count I
//   open, start N, finish N, result N
// In a TEXT a tab is written as a space, a line feed as /, a space as ~, a carriage return as ^, a
// byte of 0 as ! and one above 127 as %. # is the number of times that TEXT was put before, and $
// is one more.
#![tactic(auto)]

ghost use Rattle.std.specs.Prelude.{◌≤◌, length};

mod lent;
mod lines;
mod numbers;

use crate::lines::play;
use plan::state::{COUNTS, VALUES};
use std::io;
use std::io::Read;

// Reads until `script` is full, the input ends or a read fails, and returns how many bytes were
// read.
fn read_script<R: Read>(input: &mut R, script: &mut [u8]) -> usize
    ensures { result ≤ length script.new }
{
    let most = script.len();
    let mut done = 0;
    while done < most {
        let bytes = input.read(&mut script[done..]).unwrap_or(0);
        if bytes == 0 {
            break;
        }
        done += bytes;
    }
    done
}

fn main(rt: HostRuntime) -> io::Result<()> {
    let mut script = [0u8; 65536];
    let n = read_script(&mut rt.stdin(), &mut script);
    let mut text = [0u8; 40000];
    let mut room = [0u64; 1704];
    let mut counts = [0; COUNTS];
    let mut values = [0u64; VALUES];
    play(
        &rt,
        &script[..n],
        &mut text,
        &mut room,
        &mut counts,
        &mut values,
    )
}
