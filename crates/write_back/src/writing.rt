// Numbers written into cells.
ghost use Rattle.std.specs.Prelude.{◌≡◌, All, OnOk, length};
ghost use Rattle.workbook.specs.Kinds.{book_of};
ghost use Rattle.cell_refs.specs.Listed.{IsListed};
ghost use Rattle.write_back.specs.Writing.{AreDistinct, KeepsSides, KeepsValues, Puts};

use crate::texts::all_texts;
use frac128::Frac;
use std::alloc::Global;
use workbook::{Adj, AllFault, Workbook};

/// Writes the number of each cell to be decided into it: a numeral where the number is whole or has a short decimal, and else
/// numerator, slash and denominator behind an equals sign. All are written or none.
pub fn put(alloc: Global, book: &mut Workbook, adj: &Adj, numbers: &[Frac]) -> Result<(), AllFault>
    requires each { length numbers.now ≡ length adj.now }
    requires listed { All (IsListed book.old.sheets) adj.now }
    requires distinct { AreDistinct adj.now }
    ensures puts { Puts book.old adj.now numbers.now result book.new }
    ensures recalculated { OnOk result
        (KeepsValues (book_of book.old) adj.now numbers.now (book_of book.new)) }
    ensures sides { OnOk result
        (KeepsSides (book_of book.old) adj.now numbers.now (book_of book.new)) }
{
    let Ok(texts) = all_texts(alloc, numbers) else {
        return Err(AllFault::Memory);
    };
    book.set_all(adj, texts.as_slice())
}
