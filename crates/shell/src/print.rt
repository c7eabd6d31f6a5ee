// Answers as text.
use crate::failure::Failure;
use labels::book::Book;
use std::alloc::Global;
use std::io::Write;
use std::{fmt, io};
use trees::Tree;

/// Bytes that are written as pairs of hexadecimal digits.
#[derive(Clone, Copy)]
pub(crate) struct Hex<'a>(pub(crate) &'a [u8]);

impl fmt::Display for Hex<'_> {
    fn fmt<W: fmt::Write>(&self, f: &mut fmt::Formatter<W>) -> fmt::Result {
        for byte in self.0 {
            write!(f, "{byte:02X}")?;
        }
        Ok(())
    }
}

/// Writes the name of a label, or its number where the book has none.
fn print_label<W: Write>(out: &mut W, book: &Book<'_>, label: u16) -> io::Result<()> {
    match book.name(label) {
        Some(name) => out.write_all(name),
        None => write!(out, "#{label}"),
    }
}

/// Writes a line for each place of a tree, indented by its depth.
pub(crate) fn print_tree<T: Tree, W: Write>(
    heap: Global,
    out: &mut W,
    tree: &T,
    book: &Book<'_>,
) -> Result<(), Failure> {
    let places = tree.places();
    writeln!(out, "ok {places} places")?;

    // The ends of the subtrees that a place lies in.
    let mut ends = Vec::new(heap);
    for place in 0..places {
        ends.retain(|end| *end > place);
        let indent = ends.len().saturating_mul(2);
        write!(out, "{place} {:indent$}", "")?;
        print_label(out, book, tree.label(place)?)?;
        let size = tree.size(place)?;
        writeln!(out, " {size}")?;
        ends.push(place.saturating_add(size))?;
    }
    Ok(())
}
