// Document 01's drafts at the edges, a loaded table, and marks, run through the calls with the state by value. What it prints is held
// to the file stdout.
#![tactic(auto)]

use std::io;

mod drafts;
mod lifts;
mod limits;
mod marks;
mod print;

fn main(rt: HostRuntime) -> io::Result<()> {
    let mut out = rt.stdout();
    drafts::run(&mut out)?;
    limits::run(&mut out)?;
    lifts::run(&mut out)?;
    marks::run(&mut out)
}
