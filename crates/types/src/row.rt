// A refusal's row in document 01's table.
ghost use Rattle.std.specs.Prelude.{◌≡◌};
ghost use Rattle.types.specs.Tag.{tag_of};
ghost use Rattle.types.specs.Refusal.{amount, tag_found, row, paper_row};

use crate::carried::Carried;
use crate::tag::Tag;

// The refusal's number, and what it carries.
#[derive(Clone, Copy, PartialEq, Eq)]
pub struct RefusalRow {
    pub number: u8,
    pub carried: Carried,
}

impl RefusalRow {
    // The row of a refusal that carries a number.
    pub(crate) fn of_amount(number: u8, carried: usize) -> Self
        ensures { paper_row result ≡ row number (amount carried) }
    {
        Self {
            number,
            carried: Carried::Amount(carried),
        }
    }

    // The row of a refusal that carries the tag found.
    pub(crate) fn of_tag(number: u8, found: Tag) -> Self
        ensures { paper_row result ≡ row number (tag_found (tag_of found)) }
    {
        Self {
            number,
            carried: Carried::TagFound(found),
        }
    }
}
