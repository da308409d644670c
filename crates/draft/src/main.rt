// The draft program (document 01, "The draft program reads standard input"): K and the picks in, a line for each pick out.
#![tactic(auto)]

use std::io;

mod answer;
mod input;
mod line;
mod picks;
mod run;

fn main(rt: HostRuntime) -> io::Result<()> {
    let mut input = rt.stdin();
    let mut output = rt.stdout();
    run::run(&mut input, &mut output)
}
