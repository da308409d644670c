// The whole run: a draft is started with the K of the first line, and takes the picks behind it.
ghost use Rattle.std.specs.Prelude.{OnOk};
ghost use Rattle.draft.specs.Reading.{Reads};
ghost use Rattle.draft.specs.Running.{Begins, Printed};

use crate::input::first_line;
use crate::line::{print_header, print_refusal};
use crate::picks::take_picks;
use calls::start::start;
use cells::{ALPHABET, BY_CENTRE, BY_PLACE, Centre, Centres, Numbers, PICKS, Places};
use promises::{Draft, Refusal};
use std::io;
use std::io::{Read, Write};

// No draft yet: all is 0.
fn blank() -> Draft {
    Draft {
        numbers: Numbers {
            n: 0,
            k: 0,
            longest: Centre(0),
        },
        letters: [0; PICKS],
        codes: [0; PICKS],
        lifts: [0; ALPHABET],
        marks: [0; ALPHABET],
        centres: Centres {
            radius: [0; BY_CENTRE],
            lends: [0; BY_CENTRE],
            next: [0; BY_CENTRE],
            prev: [0; BY_CENTRE],
        },
        places: Places {
            heads: [0; BY_PLACE],
            rows: [0; BY_PLACE],
            gathered: [0; BY_PLACE],
        },
    }
}

// Starts with the K of the first line.
fn begin<R: Read>(draft: &mut Draft, input: &mut R) -> Result<(), Refusal>
    ensures { Reads (Begins draft.new result) (R.remaining input.old) (R.remaining input.new) }
{
    let k = first_line(input).ok_or(Refusal::Sections)?;
    let held = draft.numbers;
    draft.numbers = start(
        &mut draft.letters,
        &mut draft.codes,
        &mut draft.lifts,
        &mut draft.marks,
        &mut draft.centres,
        &mut draft.places,
        held,
        k,
    )?;
    Ok(())
}

// What is read is answered by the lines of the program, and by nothing else. The state is here, and every call is lent its parts.
pub fn run<R: Read, W: Write>(input: &mut R, output: &mut W) -> io::Result<()>
    ensures { OnOk result (Printed (R.remaining input.old) (R.remaining input.new) (W.contents output.old) (W.contents output.new)) }
{
    let mut draft = blank();
    print_header(output)?;
    match begin(&mut draft, input) {
        Ok(()) => take_picks(&mut draft, input, output),
        Err(refusal) => print_refusal(refusal.number(), 0, output),
    }
}
