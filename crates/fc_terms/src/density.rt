// Which way of counting costs least. It shows in nothing but time.
ghost use Rattle.std.specs.Prelude.{◌≡◌, length};

use fc_column::TextColumn;
use fc_docset::DocSet;

// How many numbers are cleared and read at most where there is no document.
const SPARE: u64 = 64;

/// Whether so many numbers are not many more than the documents: then a cell for each of them costs less than sorting
/// what the documents have.
pub(crate) fn is_dense(numbers: u64, docs: u32) -> bool {
    numbers <= 4 * u64::from(docs) + SPARE
}

/// Whether at least a quarter of so many documents are in a set that has this count: then reading the documents of each
/// number costs less than reading the numbers of each document.
pub(crate) fn holds_much(count: u32, len: u32) -> bool {
    4 * u64::from(count) >= u64::from(len)
}

/// Whether the documents of the set have at least a quarter as many texts as there are terms: else reading the documents of
/// each term costs more than reading the texts of each document. It looks at no more documents than it needs.
pub(crate) fn have_many_texts(docs: &DocSet, column: &TextColumn, terms: u32) -> bool
    requires { length docs.now ≡ length column.now }
{
    let mut left = (terms / 4) as usize;
    for at in docs.iter() {
        let own = column.ordinals_of(at).len();
        if left <= own {
            return true;
        }
        left -= own;
    }
    left == 0
}
