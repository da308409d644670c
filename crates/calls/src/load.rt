// Load: 26 lifts in place of those in force.
ghost use Rattle.std.specs.Prelude.{◌≡◌, ◌==◌};
ghost use Rattle.promises.specs.Lent.{LoadsOn};
ghost use Rattle.std.specs.List.{position};

use cells::{Lifts, Numbers};
use promises::Refusal;
use refusals::{line16, table_refusal};

// The place of the first lift of 0.
fn first_zero(table: &[u8]) -> Option<usize>
    ensures { result ≡ position (λ x. x == 0) table.now }
{
    table.iter().position(|&lift| lift == 0)
}

pub fn load(lifts: &mut Lifts, held: Numbers, table: &[u8]) -> Result<(), Refusal>
    ensures { LoadsOn held lifts.old table.now result lifts.new }
{
    table_refusal(held, table.len())?;
    if let Some(place) = first_zero(table) {
        return Err(Refusal::ZeroLift(place));
    }
    line16(held.n)?;
    lifts.copy_from_slice(table);
    Ok(())
}
