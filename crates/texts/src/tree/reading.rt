// The reading of tree text, node by node.
ghost use Rattle.std.specs.Prelude.{◌≡◌, ◌<◌, false, [], None, Some, MatchResult};
ghost use Rattle.refusals.specs.declared.Cause.{Cause};
ghost use Rattle.texts.specs.Books.{entries_of};
ghost use Rattle.texts.specs.Tokens.{next_token, tokens};
ghost use Rattle.texts.specs.TreeText.{end_fault_lem, is_open, node_answer, sign_fault_lem, tree_fault, tree_scan};
ghost use Rattle.texts.specs.Steps.{scan_on, Stepped};

use crate::reader::Reader;
use crate::token::Token;
use labels::book::Book;
use refusals::{Cause, Layer, Refusal};
use trees::limits::{MAX_DEPTH, MAX_PLACES};
use trees::outline::Record;

/// A tree text that is read by a book: how many nodes are open, whether the innermost is still empty, and how many nodes were read.
#[derive(Clone, Copy)]
pub(crate) struct TreeReader<'a, 'b> {
    book: &'b Book<'b>,
    reader: Reader<'a>,
    depth: u16,
    empty: bool,
    count: usize,
}

// Whether the next token opens a node; the reader then stands behind it.
fn opens(reader: &mut Reader<'_>) -> bool
    ensures test { result ≡ is_open (next_token reader.old.text.now reader.old.at).what }
    ensures moved { reader.new.at ≡ (next_token reader.old.text.now reader.old.at).to }
    ensures same { reader.new.text ≡ reader.old.text }
{
    matches!(reader.next(), Token::Sign(b'('))
}

// A refusal of the token that starts at a byte.
fn refusal(cause: Cause, start: usize) -> Refusal
    ensures { result ≡ tree_fault cause start }
{
    Refusal::at(cause, Layer::TreeText, start)
}

impl<'a, 'b> TreeReader<'a, 'b> {
    /// The start of a text, of which nothing was read.
    pub(crate) fn new(book: &'b Book<'b>, text: &'a [u8]) -> TreeReader<'a, 'b>
        ensures all { scan_on result [] ≡ tree_scan (entries_of book.now) 0 false [] (tokens text.now) }
        ensures none { result.count ≡ 0 }
    {
        TreeReader {
            book,
            reader: Reader::new(text),
            depth: 0,
            empty: false,
            count: 0,
        }
    }

    /// How many nodes were read.
    pub(crate) fn count(&self) -> usize
        ensures { result ≡ self.now.count }
    {
        self.count
    }

    /// The next node, and none at the end of the tree.
    pub(crate) fn next_record(&mut self) -> Result<Option<Record>, Refusal>
        ensures { Stepped self.old self.new result }
    {
        loop {
            let token = self.reader.next();
            let start = self.reader.start();
            match token {
                Token::Word(name) => {
                    if !opens(&mut self.reader) {
                        return Err(refusal(Cause::BadText, start));
                    }
                    let record = self.node(name, start)?;
                    self.depth += 1;
                    self.empty = true;
                    self.count += 1;
                    return Ok(Some(record));
                }
                Token::Quoted(name) => {
                    let record = self.node(name, start)?;
                    self.empty = false;
                    self.count += 1;
                    return Ok(Some(record));
                }
                Token::Sign(byte) => {
                    self.check_sign(byte, start)?;
                    self.depth -= 1;
                    self.empty = false;
                }
                Token::End => {
                    self.check_end(start)?;
                    return Ok(None);
                }
                Token::Variable { .. } | Token::GroupOpen | Token::GroupClose | Token::Fault => {
                    return Err(refusal(Cause::BadText, start));
                }
            }
        }
    }

    // The record of the node with a name, whose token starts at a byte.
    fn node(&self, name: &[u8], start: usize) -> Result<Record, Refusal>
        ensures { result ≡ node_answer (entries_of self.now.book.now) self.now.depth self.now.count name.now start }
    {
        let label = self
            .book
            .label(name)
            .ok_or(refusal(Cause::UnknownName, start))?;
        if self.depth == 0 && self.count > 0 {
            return Err(refusal(Cause::OneTree, start));
        }
        if self.count >= MAX_PLACES || self.depth > MAX_DEPTH {
            return Err(refusal(Cause::TooMany, start));
        }
        Ok(Record {
            depth: self.depth,
            label,
        })
    }

    // Refuses the end of the text, whose token starts at a byte, where no tree or an open one stands before it.
    fn check_end(&self, start: usize) -> Result<(), Refusal>
        ensures { MatchResult result (λ _. end_fault_lem self.now.depth self.now.count ≡ None) (λ f. (cause : Cause) × (end_fault_lem self.now.depth self.now.count ≡ Some cause) × (f ≡ tree_fault cause start)) }
    {
        if self.depth > 0 {
            return Err(refusal(Cause::Unpaired, start));
        }
        if self.count == 0 {
            return Err(refusal(Cause::OneTree, start));
        }
        Ok(())
    }

    // Refuses a single byte, whose token starts there, unless it closes a node that is not empty.
    fn check_sign(&self, byte: u8, start: usize) -> Result<(), Refusal>
        ensures { MatchResult result (λ _. (sign_fault_lem byte self.now.depth self.now.empty ≡ None) × (0 < self.now.depth)) (λ f. (cause : Cause) × (sign_fault_lem byte self.now.depth self.now.empty ≡ Some cause) × (f ≡ tree_fault cause start)) }
    {
        if byte != b')' {
            return Err(refusal(Cause::BadText, start));
        }
        if self.depth == 0 || self.empty {
            return Err(refusal(Cause::Unpaired, start));
        }
        Ok(())
    }
}
