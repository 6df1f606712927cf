// Reads a plan from standard input, runs it to its end and prints its items, its edges, the number
// of steps, and the value of each region; of a refused text the refusal and the line. What is
// printed is what `report` puts. Output that is closed ends the program.
#![tactic(auto)]

mod input;

use input::read_text;
use report::REPORT_BYTES;

fn main(rt: HostRuntime) {
    // longer than a text may be, so that of a longer input enough is read to see it
    let mut text = [0u8; 65536];
    let mut out = [0u8; REPORT_BYTES];
    let Ok(n) = read_text(&mut rt.stdin(), &mut text) else {
        let _ = eprintln!(rt; "run: standard input cannot be read");
        return;
    };
    let answer = report::report(&text[..n], &mut out);
    let _ = rt.stdout().write_all(&out[..answer.number as usize]);
}
