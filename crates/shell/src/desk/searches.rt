// What the commands of patterns do to the tree of the script.
use crate::desk::Desk;
use crate::desk::store::tree_of;
use crate::failure::Failure;
use crate::search::Search;
use std::io::Write;

// Kept as two lines that `match_place` and `find` share: a function that gives both the tree and the search is not covered by the borrow checker.
impl<W: Write> Desk<'_, W> {
    pub(crate) fn print_pattern(&mut self, text: &[u8]) -> Result<(), Failure> {
        let search = Search::read(self.book.as_slice(), text)?;
        search.print(self.out)?;
        Ok(())
    }

    pub(crate) fn match_place(&mut self, place: usize, text: &[u8]) -> Result<(), Failure> {
        let tree = tree_of(&mut self.store)?;
        let search = Search::read(self.book.as_slice(), text)?;
        search.print_match(self.out, &tree, place)
    }

    pub(crate) fn find(&mut self, text: &[u8]) -> Result<(), Failure> {
        let tree = tree_of(&mut self.store)?;
        let search = Search::read(self.book.as_slice(), text)?;
        search.print_found(self.heap, self.out, &tree)?;
        Ok(())
    }
}
