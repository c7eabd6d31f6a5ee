// The label book: labels and their names, as records in lent bytes.
#![tactic(auto)]

ghost use Rattle.std.specs.Prelude.{◌≡◌, Ok, Err, MatchResult};
ghost use Rattle.labels.specs.Entries.{counted, named, read_book};
ghost use Rattle.labels.specs.Laws.{Judged, Named};

use book::Book;
use index::Index;
use refusals::{Cause, Layer, Refusal};

pub mod book;
mod entry;
mod index;
mod link;
pub mod names;

/// Checks a book: answers the number of its records, or refuses it by its first fault.
pub fn check(bytes: &[u8]) -> Result<usize, Refusal>
    ensures value { result ≡ counted (read_book bytes.now) }
    ensures law { Judged bytes.now result }
{
    Index::new(bytes).read()
}

/// The name of a label, which is that part of the book; a faulty book is refused first.
pub fn name_of(bytes: &[u8], label: u16) -> Result<&[u8], Refusal>
    ensures value { MatchResult result (λ n. named (read_book bytes.now) label ≡ Ok n.now) (λ f. named (read_book bytes.now) label ≡ Err f) }
    ensures law { MatchResult result (λ n. Named bytes.now label (Ok n.now)) (λ f. Named bytes.now label (Err f)) }
{
    let (book, checked) = Book::open(bytes);
    checked?;
    book.name(label)
        .ok_or(Refusal::at(Cause::UnknownName, Layer::Book, 0))
}
