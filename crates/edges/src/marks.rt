// Marks: four names, a fifth refused, one moved; going back to one drops the longer ones, and what is fed then is as if the abandoned
// picks had never been; numbers 17, 18 and 2; a start drops all marks.
use crate::drafts::{one_more, say_mask, started};
use crate::print::{said, text};
use promises::{Answered, Draft, Refusal};
use std::io;
use std::io::Write;

// Prints that it is done, or why it is not.
fn done(r: Answered<Result<(), Refusal>>, out: &mut impl Write) -> io::Result<Draft> {
    said(r.answer.map(|()| "done"), out)?;
    text(b"\n", out)?;
    Ok(r.state)
}

// Sets a mark, and prints the answer.
fn say_mark(draft: Draft, name: u8, out: &mut impl Write) -> io::Result<Draft> {
    text(b"mark", out)?;
    done(board::mark(draft, name), out)
}

// Goes back to a mark, and prints the answer.
fn say_back(draft: Draft, name: u8, out: &mut impl Write) -> io::Result<Draft> {
    text(b"back", out)?;
    done(board::back(draft, name), out)
}

// A marks no pick; B, C and D mark A, AB and ABA.
fn four_marks(out: &mut impl Write) -> io::Result<Draft> {
    let empty = say_mark(started(), b'A', out)?;
    let one = say_mark(one_more(empty, b"A", b'A', out)?, b'B', out)?;
    let two = say_mark(one_more(one, b"AB", b'B', out)?, b'C', out)?;
    say_mark(one_more(two, b"ABA", b'A', out)?, b'D', out)
}

// A fifth name, and bytes that are no name.
fn refused_names(draft: Draft, out: &mut impl Write) -> io::Result<()> {
    for name in [b'E', b'A' - 1, b'Z' + 1] {
        say_mark(draft, name, out)?;
    }
    for name in [b'E', b'A' - 1] {
        say_back(draft, name, out)?;
    }
    Ok(())
}

// Back to A, of which AA is two sections or one; C and D are dropped, and there is room again.
fn another_ending(draft: Draft, out: &mut impl Write) -> io::Result<Draft> {
    let one = say_back(draft, b'B', out)?;
    say_mask(one, out)?;
    say_back(one, b'C', out)?;
    let moved = say_mark(one_more(one, b"AA", b'A', out)?, b'B', out)?;
    say_mark(moved, b'E', out)
}

// Back to no pick; a start drops the marks.
fn no_picks(draft: Draft, out: &mut impl Write) -> io::Result<()> {
    let empty = say_back(draft, b'A', out)?;
    say_mask(empty, out)?;
    say_back(empty, b'B', out)?;
    say_back(board::start(empty, 8).state, b'A', out)?;
    Ok(())
}

pub fn run(out: &mut impl Write) -> io::Result<()> {
    let four = four_marks(out)?;
    refused_names(four, out)?;
    let other = another_ending(four, out)?;
    no_picks(other, out)
}
