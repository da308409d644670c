// The mill's own lifts: B lifts as A does, and every other letter all eight harnesses; numbers 14, 15 and 16; a start brings the fixed
// table back.
use crate::drafts::{one_more, started};
use crate::print::{said, text};
use cells::{ALPHABET, Lifts};
use promises::Draft;
use std::io;
use std::io::Write;

// A and B lift harness 1.
fn two_alike() -> Lifts {
    let mut table = [255u8; ALPHABET];
    table[0] = 1;
    table[1] = 1;
    table
}

// Loads a table, and prints the answer.
fn say_load(draft: Draft, table: &[u8], out: &mut impl Write) -> io::Result<Draft> {
    text(b"load", out)?;
    let r = board::load(draft, table);
    said(r.answer.map(|()| "in force"), out)?;
    text(b"\n", out)?;
    Ok(r.state)
}

fn say_lift(draft: Draft, letter: u8, out: &mut impl Write) -> io::Result<()> {
    text(b"lift", out)?;
    said(board::lift(draft, letter), out)?;
    text(b"\n", out)
}

// The tables that are refused, on an empty draft.
fn refused_tables(draft: Draft, out: &mut impl Write) -> io::Result<()> {
    let mut zero = two_alike();
    zero[3] = 0;
    zero[25] = 0;
    say_load(draft, &zero, out)?;
    say_load(draft, &[255u8; ALPHABET - 1], out)?;
    say_load(draft, &[255u8; ALPHABET + 1], out)?;
    say_lift(draft, b'B', out)?;
    say_lift(draft, b'A' - 1, out)
}

// Feeds A and B.
fn two_picks(draft: Draft, out: &mut impl Write) -> io::Result<Draft> {
    let one = one_more(draft, b"A", b'A', out)?;
    one_more(one, b"AB", b'B', out)
}

pub fn run(out: &mut impl Write) -> io::Result<()> {
    let table = two_alike();
    let empty = started();
    refused_tables(empty, out)?;
    let loaded = say_load(empty, &table, out)?;
    say_lift(loaded, b'B', out)?;
    let two = two_picks(loaded, out)?;
    say_load(two, &table, out)?;
    say_lift(board::start(two, 8).state, b'B', out)
}
