// The reading of a pattern text: its reader, and the elements and names that were read.
ghost use Rattle.std.specs.Prelude.{◌≡◌, []};
ghost use Rattle.texts.specs.Books.{entries_of};
ghost use Rattle.texts.specs.Tokens.{tokens};
ghost use Rattle.texts.specs.PatternText.{drafted, pattern_scan};
ghost use Rattle.texts.specs.PatternSteps.{Ended, scan_on};

use crate::pattern::names::Names;
use crate::pattern::row_builder::RowBuilder;
use crate::reader::Reader;
use labels::book::Book;
use refusals::Cause;

mod leaf;
mod levels;

/// A pattern text that is read by a book, with the elements and the names of variables that were read.
#[derive(Drop)]
pub(crate) struct PatternReader<'a, 'b> {
    book: &'b Book<'b>,
    pub(crate) reader: Reader<'a>,
    pub(crate) row: RowBuilder,
    names: Names<'a>,
}

impl<'a, 'b> PatternReader<'a, 'b> {
    /// The start of a text, of which nothing was read.
    pub(crate) fn new(book: &'b Book<'b>, text: &'a [u8]) -> PatternReader<'a, 'b>
        ensures { scan_on result [] ≡ pattern_scan (entries_of book.now) (drafted [] [] []) (tokens text.now) }
    {
        PatternReader {
            book,
            reader: Reader::new(text),
            row: RowBuilder::new(),
            names: Names::new(),
        }
    }

    /// Reads the elements of the text up to its end.
    pub(crate) fn read(&mut self) -> Result<(), Cause>
        ensures { Ended self.old self.new result }
    {
        self.level(0)?;
        self.finish()
    }
}
