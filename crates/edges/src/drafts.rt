// The drafts by their letters, under K = 8.
ghost use Rattle.std.specs.Prelude.{◌≤◌};
ghost use Rattle.words.specs.Definitions.{most_sections};

use crate::print::{fed, front, number, said, text};
use cells::{
    ALPHABET, BY_CENTRE, BY_PLACE, Centre, Centres, Numbers, PICKS, Place, Places, VISITS,
};
use promises::Draft;
use std::io;
use std::io::Write;

// What is stored before a start: no draft.
pub fn stored() -> Draft {
    Draft {
        numbers: Numbers {
            n: 3000,
            k: 264,
            longest: Centre(9),
        },
        letters: [90; PICKS],
        codes: [7; PICKS],
        lifts: [7; ALPHABET],
        marks: [7; ALPHABET],
        centres: Centres {
            radius: [7; BY_CENTRE],
            lends: [7; BY_CENTRE],
            next: [7; BY_CENTRE],
            prev: [7; BY_CENTRE],
        },
        places: Places {
            heads: [7; BY_PLACE],
            rows: [7; BY_PLACE],
            gathered: [7; BY_PLACE],
        },
    }
}

// A draft of no picks.
pub fn started() -> Draft {
    board::start(stored(), 8).state
}

// Feeds one pick, and prints the picks so far and the answer.
pub fn one_more(draft: Draft, picks: &[u8], pick: u8, out: &mut impl Write) -> io::Result<Draft> {
    let mut visits = [0u16; VISITS];
    let r = board::feed(draft, pick, &mut visits);
    text(picks, out)?;
    fed(r.answer, &visits, out)?;
    text(b"\n", out)?;
    Ok(r.state)
}

// Feeds the picks one after another.
fn draft_of(picks: &[u8], out: &mut impl Write) -> io::Result<Draft> {
    let mut draft = started();
    for (j, &pick) in picks.iter().enumerate() {
        draft = one_more(draft, &picks[..=j], pick, out)?;
    }
    Ok(draft)
}

// The mask of all picks.
pub fn say_mask(draft: Draft, out: &mut impl Write) -> io::Result<()> {
    let n = draft.numbers.n;
    write!(out, "mask of prefix {n}")?;
    said(board::mask(draft, Place(n)), out)?;
    text(b"\n", out)
}

// The split of all picks into k, with this ends list.
fn say_split(draft: Draft, k: u8, ends: &mut [u16], out: &mut impl Write) -> io::Result<()> {
    write!(out, "split into {k}")?;
    match board::split(draft, Place(draft.numbers.n), k, ends) {
        Ok(turns) => {
            write!(out, " turns {turns} ends")?;
            front(ends, ends.len(), out)?;
        }
        Err(refusal) => write!(out, " {refusal}")?,
    }
    text(b"\n", out)
}

// The same, with a list of k entries.
fn split_into(draft: Draft, k: u8, out: &mut impl Write) -> io::Result<()>
    requires { k ≤ most_sections }
{
    let mut ends = [0u16; 8];
    say_split(draft, k, &mut ends[..usize::from(k)], out)
}

// Every k from 1 to 8.
fn split_each(draft: Draft, out: &mut impl Write) -> io::Result<()> {
    for k in 1..=8 {
        split_into(draft, k, out)?;
    }
    Ok(())
}

fn say_longest(draft: Draft, out: &mut impl Write) -> io::Result<()> {
    text(b"longest ending at", out)?;
    said(board::longest(draft).map(|c| c.0), out)?;
    text(b"\n", out)
}

fn say_next(draft: Draft, c: usize, out: &mut impl Write) -> io::Result<()> {
    write!(out, "next after {c}")?;
    match board::next(draft, Centre(c)) {
        Ok(ending) => {
            number(ending.centre.0, out)?;
            write!(out, " length {} period {}", ending.length, ending.period)?;
        }
        Err(refusal) => write!(out, " {refusal}")?,
    }
    text(b"\n", out)
}

fn say_radius(draft: Draft, c: usize, out: &mut impl Write) -> io::Result<()> {
    write!(out, "radius at {c}")?;
    said(board::radius(draft, Centre(c)), out)?;
    text(b"\n", out)
}

// The record of all picks in 2 sections, and the output as it then stands.
fn say_record(draft: Draft, output: &mut [u8], out: &mut impl Write) -> io::Result<()> {
    text(b"record", out)?;
    said(board::fold(draft, Place(draft.numbers.n), 2, output), out)?;
    text(b" ", out)?;
    text(output, out)
}

// ABACDDC: split, moved, record.
fn two_sections(out: &mut impl Write) -> io::Result<()> {
    let draft = draft_of(b"ABACDDC", out)?;
    split_into(draft, 2, out)?;
    say_longest(draft, out)?;
    let mut output = [b'.'; 14];
    say_record(draft, &mut output, out)?;
    let mut short = [b'.'; 13];
    say_record(draft, &mut short, out)?;
    text(b"\n", out)
}

// AABACABAA: radii, and the endings one after the other.
fn centres(out: &mut impl Write) -> io::Result<()> {
    let draft = draft_of(b"AABACABAA", out)?;
    for c in [10, 11, 3, 20] {
        say_radius(draft, c, out)?;
    }
    say_longest(draft, out)?;
    for c in [10, 17, 18, 19] {
        say_next(draft, c, out)?;
    }
    Ok(())
}

pub fn run(out: &mut impl Write) -> io::Result<()> {
    let empty = started();
    say_mask(empty, out)?;
    split_each(empty, out)?;
    split_into(draft_of(b"AAA", out)?, 2, out)?;
    say_mask(draft_of(b"ABABABA", out)?, out)?;
    two_sections(out)?;
    centres(out)
}
