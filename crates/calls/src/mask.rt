// The mask of a prefix.
ghost use Rattle.std.specs.Prelude.{◌≡◌, []};
ghost use Rattle.promises.specs.Answers.{reply, number_says};
ghost use Rattle.promises.specs.Book.{mask};
ghost use Rattle.promises.specs.Promises.{mask_byte};
ghost use Rattle.promises.specs.Lent.{ReadsOn};

use cells::{ByPlace, Numbers, Place, entry};
use promises::Refusal;
use refusals::mask_refusal;

// The mask of a row word.
pub fn mask_byte(row: u16) -> u8
    ensures { result ≡ mask_byte row }
{
    (row / 2 % 256) as u8
}

pub fn mask(rows: &ByPlace, held: Numbers, i: Place) -> Result<u8, Refusal>
    ensures { ReadsOn held (λ d. d.places.rows ≡ rows.now) (mask i.0) (reply (number_says result) []) }
{
    mask_refusal(held, i)?;
    Ok(mask_byte(entry(rows, i, 0)))
}
