// What the commands of trees do.
use crate::desk::Desk;
use crate::desk::store::{Store, tree_of};
use crate::failure::Failure;
use crate::print::{Hex, print_tree};
use labels::book::Book;
use std::io;
use std::io::Write;
use texts::tree::read_tree;
use trees::Tree;
use trees::limits::{MAX_PLACES, RECORD_BYTES};
use trees::outline::Record;
use trees::write::write_image;

// How many bytes the image of the largest tree has.
const IMAGE_ROOM: usize = RECORD_BYTES * MAX_PLACES;

// How many records the outline of the largest tree has.
const OUTLINE_ROOM: usize = MAX_PLACES;

const NO_RECORD: Record = Record { depth: 0, label: 0 };

impl<W: Write> Desk<'_, W> {
    // Takes a tree in place of the one that stood.
    pub(crate) fn set_store(&mut self, mut store: Store) -> io::Result<()> {
        let make = store.make();
        let places = store.tree().places();
        self.store = Some(store);
        writeln!(self.out, "ok {make}, {places} places")
    }

    // Reads tree text; a refusal leaves the tree that stood.
    #[inline(never)]
    pub(crate) fn set_tree(&mut self, text: &[u8]) -> Result<(), Failure> {
        let room = self.take_room(OUTLINE_ROOM);
        let mut records = vec![in self.heap; NO_RECORD; room]?;
        let count = read_tree(self.book.as_slice(), text, records.as_mut_slice())?;
        records.truncate(count);
        self.set_store(Store::Outline(records))?;
        Ok(())
    }

    #[inline(never)]
    pub(crate) fn show(&mut self) -> Result<(), Failure> {
        let (book, _) = Book::open(self.book.as_slice());
        let tree = tree_of(&mut self.store)?;
        print_tree(self.heap, self.out, &tree, &book)
    }

    // The room for a command that writes, which the command uses up.
    fn take_room(&mut self, most: usize) -> usize {
        self.room
            .take()
            .map_or(most, |room| (room as usize).min(most))
    }

    pub(crate) fn write(&mut self) -> Result<(), Failure> {
        let room = self.take_room(IMAGE_ROOM);
        let mut image = vec![in self.heap; 0u8; room]?;
        let tree = tree_of(&mut self.store)?;
        let count = write_image(&tree, image.as_mut_slice())?;
        image.truncate(count);
        writeln!(self.out, "ok {count} bytes {}", Hex(image.as_slice()))?;
        Ok(())
    }
}
