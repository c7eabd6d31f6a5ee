// One record of a book, as it lies in the book's bytes.
ghost use Rattle.std.specs.Prelude.{◌≡◌, true, false, MatchOption};
ghost use Rattle.labels.specs.Entries.{first_entry, bad_length};

use records::read_head;

/// A label and its name, which is that part of the book.
#[derive(Clone, Copy)]
pub(crate) struct Entry<'a> {
    pub(crate) label: u16,
    pub(crate) name: &'a [u8],
}

/// The entry whose record these bytes begin with, if the record is whole.
pub(crate) fn read_entry(bytes: &[u8]) -> Option<Entry<'_>>
    ensures { MatchOption result (bad_length bytes.now ≡ true) (λ e. (bad_length bytes.now ≡ false) × (e.label ≡ (first_entry bytes.now).label) × (e.name.now ≡ (first_entry bytes.now).name)) }
{
    let head = read_head(bytes)?;
    let name = bytes.get(6..head.length as usize)?;
    Some(Entry {
        label: head.kind,
        name,
    })
}
