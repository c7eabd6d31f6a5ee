// A label book over lent bytes, and what is looked up in it.
ghost use Rattle.std.specs.Prelude.{◌≡◌};
ghost use Rattle.std.specs.Option.{option_map};
ghost use Rattle.labels.specs.Entries.{counted, entries, label_of, name_of, pairs, read_book};
ghost use Rattle.labels.specs.Laws.{Judged};
ghost use Rattle.labels.specs.Index.{known};

use crate::index::Index;
use refusals::Refusal;

/// The bytes of a book, with the index of their records; where they are no book, it has no entry.
#[derive(Clone, Copy)]
pub struct Book<'a> {
    index: Index<'a>,
    ghost listed: { pairs (known index.bytes.now index.tables) ≡ pairs (entries index.bytes.now) },
}

impl<'a> Book<'a> {
    /// The book over some bytes, and the number of its records or its first fault.
    // Kept as a pair: a book over faulty bytes is asked too, and knows no name.
    pub fn open(bytes: &'a [u8]) -> (Book<'a>, Result<usize, Refusal>)
        ensures book { result.0.index.bytes.now ≡ bytes.now }
        ensures check { result.1 ≡ counted (read_book bytes.now) }
        ensures law { Judged bytes.now result.1 }
    {
        let mut index = Index::new(bytes);
        let checked = index.read();
        (Book { index }, checked)
    }

    /// The label that has a name.
    pub fn label(&self, name: &[u8]) -> Option<u16>
        ensures { result ≡ label_of (entries self.now.index.bytes.now) name.now }
    {
        self.index.label(name)
    }

    /// The name of a label, which is that part of the book.
    pub fn name(&self, label: u16) -> Option<&'a [u8]>
        ensures { option_map (λ x. x.now) result ≡ name_of (entries self.now.index.bytes.now) label }
    {
        self.index.name(label)
    }
}
