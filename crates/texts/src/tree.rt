// The reading of tree text into an outline.
ghost use Rattle.std.specs.Prelude.{◌≡◌, false, List, [], length, Ok, Err, MatchResult};
ghost use Rattle.labels.specs.Entries.{read_book};
ghost use Rattle.trees.specs.declared.record.Record.{Record as Kept};
ghost use Rattle.texts.specs.Books.{entries_of};
ghost use Rattle.texts.specs.Tokens.{tokens};
ghost use Rattle.texts.specs.TreeText.{tree_scan, tree_answer, tree_slots};

use labels::book::Book;
use reading::TreeReader;
use refusals::{Cause, Layer, Refusal};
use trees::outline::Record;

mod reading;

// Checks a text, and counts the nodes of its tree.
fn count_nodes(book: &Book<'_>, text: &[u8]) -> Result<usize, Refusal>
    ensures { MatchResult result (λ n. ((rs : List Kept) × (tree_scan (entries_of book.now) 0 false [] (tokens text.now) ≡ Ok rs) × (n ≡ length rs))) (λ f. tree_scan (entries_of book.now) 0 false [] (tokens text.now) ≡ Err f) }
{
    let mut nodes = TreeReader::new(book, text);
    while let Some(_record) = nodes.next_record()? {}
    Ok(nodes.count())
}

// Writes the tree of a text that was checked into as many records as it has nodes.
fn write_nodes(book: &Book<'_>, text: &[u8], records: &mut [Record])
    requires { (rs : List Kept) × (tree_scan (entries_of book.now) 0 false [] (tokens text.now) ≡ Ok rs) × (length rs ≡ length records.old) }
    ensures { tree_scan (entries_of book.now) 0 false [] (tokens text.now) ≡ Ok records.new }
{
    let mut nodes = TreeReader::new(book, text);
    for slot in records.iter_mut() {
        // There are as many nodes as slots, so each slot has one.
        *slot = nodes.next_record().unwrap().unwrap();
    }
}

/// Reads tree text into the start of the records, and answers how many nodes the tree has. A faulty book is refused first; a refusal writes nothing.
pub fn read_tree(book: &[u8], text: &[u8], records: &mut [Record]) -> Result<usize, Refusal>
    ensures value { result ≡ tree_answer (read_book book.now) (tokens text.now) (length records.old) }
    ensures written { records.new ≡ tree_slots (read_book book.now) (tokens text.now) records.old }
{
    let (book, checked) = Book::open(book);
    checked?;
    let count = count_nodes(&book, text)?;
    if count > records.len() {
        return Err(Refusal::at(Cause::NoRoom, Layer::Tree, 0));
    }
    write_nodes(&book, text, &mut records[..count]);
    Ok(count)
}
