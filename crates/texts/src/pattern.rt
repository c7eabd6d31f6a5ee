// The reading of pattern text into a pattern.
ghost use Rattle.std.specs.Prelude.{◌≡◌, [], Ok, Err, MatchResult};
ghost use Rattle.std.specs.Option.{option_map};
ghost use Rattle.labels.specs.Entries.{read_book};
ghost use Rattle.patterns.specs.Elements.{elements_of};
ghost use Rattle.texts.specs.Books.{entries_of};
ghost use Rattle.texts.specs.Tokens.{tokens};
ghost use Rattle.texts.specs.PatternText.{name_numbered, names_among, read_elements_lem, scanned};

use crate::reader::Reader;
use crate::token::Token;
use labels::book::Book;
use names::Names;
use patterns::Pattern;
use reading::PatternReader;
use refusals::{Layer, Refusal};
use row_builder::RowBuilder;

pub(crate) mod names;
pub(crate) mod reading;
pub(crate) mod row_builder;

// The elements of a pattern text.
fn read_elements(book: &Book<'_>, text: &[u8]) -> Result<RowBuilder, Refusal>
    ensures { MatchResult result (λ x. scanned (entries_of book.now) (tokens text.now) ≡ Ok (elements_of x.row)) (λ f. scanned (entries_of book.now) (tokens text.now) ≡ Err f) }
{
    let mut pattern = PatternReader::new(book, text);
    // A match, since the refusal names the byte where the reader stands after the reading; `map_err` was tried, and its exit found no proof.
    match pattern.read() {
        Ok(()) => Ok(pattern.row),
        Err(cause) => Err(Refusal::at(cause, Layer::Pattern, pattern.reader.start())),
    }
}

/// Reads pattern text by a label book. A faulty book is refused first.
pub fn read_pattern(book: &[u8], text: &[u8]) -> Result<Pattern, Refusal>
    ensures { MatchResult result (λ p. read_elements_lem (read_book book.now) (tokens text.now) ≡ Ok (elements_of p.row)) (λ f. read_elements_lem (read_book book.now) (tokens text.now) ≡ Err f) }
{
    let (book, checked) = Book::open(book);
    checked?;
    let elements = read_elements(&book, text)?;
    Ok(Pattern::from_row(elements.row).unwrap())
}

/// The name of a variable by its number, which is the part of the text where it first stands.
pub fn variable_name(text: &[u8], number: usize) -> Option<&[u8]>
    ensures { option_map (λ x. x.now) result ≡ name_numbered (names_among [] (tokens text.now)) number }
{
    let mut reader = Reader::new(text);
    let mut names = Names::new();
    loop {
        match reader.next() {
            Token::End => return names.name(number),
            Token::Variable { name, .. } => {
                // Behind the first 16 names no other is kept.
                let _number = names.number(name);
            }
            _ => {}
        }
    }
}
