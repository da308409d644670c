// The lines that are printed: each is built first and then written as one, where `write!` would write it in pieces.
ghost use Rattle.std.specs.Prelude.{◌≡◌, ◌+◌, ◌≤◌, length, take, OnOk};
ghost use Rattle.std.specs.Io.KnownBytes.{Appends};
ghost use Rattle.text.specs.Writes.{Writes};
ghost use Rattle.draft.specs.Lines.{header_line, field, pick_line, refusal_line};
ghost use Rattle.draft.specs.Putting.{most_field, room, IsPrefixLen};

use std::io;
use std::io::Write;
use text::bytes::{write_byte, write_bytes};
use text::decimal::write_decimal;
use text::{COMMA, LINE_END};

// Room for a line: four numbers of 64 bits and a byte after each. An array, since there is no heap.
pub const ROOM: usize = 84;

// A number in decimal and the byte that closes its field, and the place after them.
fn write_field(n: usize, close: u8, line: &mut [u8], at: usize) -> usize
    requires { at ≤ room }
    ensures writes { Writes line.old at (field n close) line.new result }
    ensures small { result ≤ at + most_field }
{
    let end = write_decimal(n, line, at);
    write_byte(close, line, end)
}

// The line of a pick at the front of the room, and its count of bytes.
pub fn pick_line(picks: usize, mask: u8, visits: usize, longest: usize, line: &mut [u8]) -> usize
    requires { room ≤ length line.old }
    ensures prefix_len { IsPrefixLen result line.new }
    ensures line_after { take result line.new ≡ pick_line picks mask visits longest }
{
    let second = write_field(picks, COMMA, line, 0);
    let third = write_field(usize::from(mask), COMMA, line, second);
    let fourth = write_field(visits, COMMA, line, third);
    write_field(longest, LINE_END, line, fourth)
}

// The line of a refusal at the front of the room, and its count of bytes.
pub fn refusal_line(number: u8, place: usize, line: &mut [u8]) -> usize
    requires { room ≤ length line.old }
    ensures prefix_len { IsPrefixLen result line.new }
    ensures line_after { take result line.new ≡ refusal_line number place }
{
    let first = write_bytes(b"refused,", line, 0);
    let second = write_field(usize::from(number), COMMA, line, first);
    write_field(place, LINE_END, line, second)
}

// The header at the front of the room, and its count of bytes.
fn header_line(line: &mut [u8]) -> usize
    requires { room ≤ length line.old }
    ensures prefix_len { IsPrefixLen result line.new }
    ensures line_after { take result line.new ≡ header_line }
{
    write_bytes(b"picks,mask,visits,longest\n", line, 0)
}

// Writes the header.
pub fn print_header<W: Write>(output: &mut W) -> io::Result<()>
    ensures { OnOk result (Appends (W.contents output.old) (W.contents output.new) header_line) }
{
    let mut line = [0u8; ROOM];
    let count = header_line(&mut line);
    output.write_all(&line[..count])
}

// Writes the line of a refusal.
pub fn print_refusal<W: Write>(number: u8, place: usize, output: &mut W) -> io::Result<()>
    ensures { OnOk result (Appends (W.contents output.old) (W.contents output.new) (refusal_line number place)) }
{
    let mut line = [0u8; ROOM];
    let count = refusal_line(number, place, &mut line);
    output.write_all(&line[..count])
}
