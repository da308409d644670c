// What is printed: text, numbers, the front of a list, and answers.
use promises::{FeedAnswer, Refusal};
use std::fmt::Display;
use std::io;
use std::io::Write;

pub fn text(bytes: &[u8], out: &mut impl Write) -> io::Result<()> {
    out.write_all(bytes)
}

// A number behind a blank.
pub fn number(n: usize, out: &mut impl Write) -> io::Result<()> {
    write!(out, " {n}")
}

// The first entries of a list.
pub fn front(list: &[u16], count: usize, out: &mut impl Write) -> io::Result<()> {
    for &entry in list.iter().take(count) {
        number(usize::from(entry), out)?;
    }
    Ok(())
}

// What an answer gives, or its refusal, behind a blank.
pub fn said<T: Display + Copy>(answer: Result<T, Refusal>, out: &mut impl Write) -> io::Result<()> {
    match answer {
        Ok(value) => write!(out, " {value}"),
        Err(refusal) => write!(out, " {refusal}"),
    }
}

// The answer to a feed, and the pick's visits.
pub fn fed(answer: FeedAnswer, visits: &[u16], out: &mut impl Write) -> io::Result<()> {
    match answer {
        FeedAnswer::Taken(mask, count) => {
            write!(out, " mask {mask} visits")?;
            front(visits, count, out)
        }
        FeedAnswer::Refused(number) => write!(out, " refused {number}"),
    }
}
