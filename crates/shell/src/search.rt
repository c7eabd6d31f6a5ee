// A pattern text, and what it finds in trees of any make.
use crate::failure::Failure;
use matching::match_at;
use patterns::limits::MAX_VARIABLES;
use patterns::{Element, Pattern};
use std::alloc::{AllocError, Global};
use std::io::Write;
use std::{array, io};
use texts::pattern::{read_pattern, variable_name};
use trees::Tree;

/// A pattern, and the text that it was read from.
#[derive(Drop)]
pub(crate) struct Search<'a> {
    pattern: Pattern,
    text: &'a [u8],
}

// The number of a variable.
fn number_of(element: &Element) -> Option<usize> {
    match element {
        Element::Variable { number, .. } => Some(usize::from(*number)),
        Element::Lexeme(_) | Element::Group { .. } => None,
    }
}

// Writes names, each with the place behind it.
fn print_bindings<W: Write>(
    out: &mut W,
    names: &[&[u8]],
    places: &[Option<usize>],
) -> io::Result<()> {
    let mut bound = names
        .iter()
        .zip(places)
        .filter_map(|(name, place)| Some((name, (*place)?)))
        .peekable();
    if bound.peek().is_none() {
        return out.write_all(b"no variable");
    }
    for (number, (name, place)) in bound.enumerate() {
        if number > 0 {
            out.write_all(b", ")?;
        }
        out.write_all(name)?;
        write!(out, " {place}")?;
    }
    Ok(())
}

impl<'a> Search<'a> {
    /// Reads a pattern text by a label book.
    #[inline(never)]
    pub(crate) fn read(book: &[u8], text: &'a [u8]) -> Result<Search<'a>, Failure> {
        let pattern = read_pattern(book, text)?;
        Ok(Search { pattern, text })
    }

    // How many variables the pattern has; they are numbered from 0.
    fn variables(&self) -> usize {
        let elements = self.pattern.elements();
        let last = elements.iter().filter_map(number_of).max();
        last.map_or(0, |number| number.saturating_add(1))
    }

    // The names of the variables. Each is looked for in the text, so this is asked only where they are written.
    fn names(&self) -> [&'a [u8]; MAX_VARIABLES] {
        let variables = self.variables();
        array::from_fn(|number| {
            if number < variables {
                variable_name(self.text, number).unwrap_or(b"")
            } else {
                b""
            }
        })
    }

    /// Writes how many elements the pattern has, and the names of its variables.
    pub(crate) fn print<W: Write>(&self, out: &mut W) -> io::Result<()> {
        let elements = self.pattern.count();
        let variables = self.variables();
        write!(out, "ok {elements} elements, {variables} variables")?;
        for (number, name) in self.names().iter().enumerate().take(variables) {
            out.write_all(if number == 0 { b": " } else { b" " })?;
            out.write_all(name)?;
        }
        out.write_all(b"\n")
    }

    /// Writes the bindings of a match at a place, and the steps.
    pub(crate) fn print_match<T: Tree, W: Write>(
        &self,
        out: &mut W,
        tree: &T,
        place: usize,
    ) -> Result<(), Failure> {
        let found = match_at(tree, &self.pattern, place)?;
        out.write_all(b"ok ")?;
        print_bindings(out, &self.names(), &found.places)?;
        let steps = found.steps;
        writeln!(out, " in {steps} steps")?;
        Ok(())
    }

    // For each place of a tree at which the pattern matches a row, one behind the other: the place, and that of each variable.
    // A row has no more room than its variables need, so that many findings take little memory.
    fn rows<T: Tree>(&self, heap: Global, tree: &T) -> Result<Vec<Option<usize>>, AllocError> {
        let variables = self.variables();
        let mut rows = Vec::new(heap);
        for place in 0..tree.places() {
            if let Ok(found) = match_at(tree, &self.pattern, place) {
                rows.push(Some(place))?;
                for bound in found.places.iter().take(variables) {
                    rows.push(*bound)?;
                }
            }
        }
        Ok(rows)
    }

    /// Writes each place at which the pattern matches, with its bindings.
    pub(crate) fn print_found<T: Tree, W: Write>(
        &self,
        heap: Global,
        out: &mut W,
        tree: &T,
    ) -> io::Result<()> {
        let rows = self.rows(heap, tree)?;
        let rows = rows.chunks(self.variables().saturating_add(1));
        let count = rows.len();
        writeln!(out, "ok {count} found")?;
        if count == 0 {
            return Ok(());
        }
        let names = self.names();
        for row in rows {
            if let [Some(place), places @ ..] = row {
                write!(out, "{place}: ")?;
                print_bindings(out, &names, places)?;
                out.write_all(b"\n")?;
            }
        }
        Ok(())
    }
}
