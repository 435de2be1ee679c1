// The memory that a caller lends for closing.
ghost use Rattle.std.specs.Prelude.{◌≡◌, length, None};
ghost use Rattle.std.specs.Result.{result_err};
ghost use Rattle.ledger.specs.Refusing.{no_room, short_or};

use orders::{Extent, Part, Refusal};
use ranking::Ranked;

// What closing writes over.
#[derive(Drop)]
pub struct Space<'a> {
    pub sheet: &'a mut [u8],
    // those of a kind who are on the sheet, in the order of their ranks
    pub buyers: &'a mut [Ranked],
    pub sellers: &'a mut [Ranked],
}

impl Space<'_> {
    // Refuses too few bytes for the sheet, and too few places in a list, for an evening of such an extent.
    pub(crate) fn check(&self, extent: Extent) -> Result<(), Refusal>
        ensures { result_err result ≡ short_or None (no_room extent.kinds extent.members (length self.now.sheet.now) (length self.now.buyers.now) (length self.now.sellers.now)) }
    {
        let each = usize::from(extent.members);
        if self.sheet.len() < usize::from(extent.kinds) * (16 + 6 * each)
            || self.buyers.len() < each
            || self.sellers.len() < each
        {
            return Err(Refusal::Short(Part::Sheet));
        }
        Ok(())
    }
}
