// Both sides of each limit: the full draft, the visit list, the letters; a state that is no draft; K outside 1 to 8.
use crate::drafts::{started, stored};
use crate::print::{fed, said, text};
use cells::{PICKS, VISITS};
use promises::Draft;
use std::io;
use std::io::Write;

// A draft of 2,048 picks.
fn full() -> Draft {
    let mut draft = started();
    for _ in 0..PICKS {
        draft = board::feed(draft, b'A', &mut [0u16; VISITS]).state;
    }
    draft
}

// Feeds a pick with this visit list, and prints the answer.
fn say_feed(draft: Draft, pick: u8, visits: &mut [u16], out: &mut impl Write) -> io::Result<()> {
    text(b"feed", out)?;
    let r = board::feed(draft, pick, visits);
    fed(r.answer, visits, out)?;
    text(b"\n", out)
}

// Starts with K, and prints the answer.
fn say_start(k: u8, out: &mut impl Write) -> io::Result<()> {
    text(b"start", out)?;
    let r = board::start(stored(), k);
    said(r.answer.map(|()| "begun"), out)?;
    text(b"\n", out)
}

pub fn run(out: &mut impl Write) -> io::Result<()> {
    let mut visits = [0u16; VISITS];
    let mut short = [0u16; VISITS - 1];
    let draft = started();
    say_feed(draft, b'A', &mut visits, out)?;
    say_feed(draft, b'A', &mut short, out)?;
    for pick in [b'A' - 1, b'Z' + 1, b'Z'] {
        say_feed(draft, pick, &mut visits, out)?;
    }
    say_feed(full(), b'A', &mut visits, out)?;
    say_feed(stored(), b'A', &mut visits, out)?;
    for k in [0, 1, 8, 9] {
        say_start(k, out)?;
    }
    Ok(())
}
