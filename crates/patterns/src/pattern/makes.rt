// How a pattern is made of a row, and what can be asked of it.
ghost use Rattle.std.specs.Prelude.{◌≡◌, length, is_some, IfSome, Decides};
ghost use Rattle.patterns.specs.Elements.{elements_of, WellFormed, IsPattern};

use crate::check::is_pattern;
use crate::pattern::Pattern;
use crate::row::{Element, Row};

impl Pattern {
    /// The pattern of a row, exactly if the row is a pattern.
    pub fn from_row(row: Row) -> Option<Pattern>
        ensures test { Decides (is_some result) (IsPattern row) }
        ensures same { IfSome result (λ p. p.row ≡ row) }
    {
        // Kept as an `if`: in a closure handed to `then` the facts of the type found no proof.
        if is_pattern(&row) {
            Some(Pattern { row })
        } else {
            None
        }
    }

    /// The row of the pattern.
    pub fn row(&self) -> Row
        ensures value { result ≡ self.now.row }
        ensures sound { IsPattern result }
    {
        self.row
    }

    /// How many elements the pattern has.
    pub fn count(&self) -> usize
        ensures { result ≡ length (elements_of self.now.row) }
    {
        self.elements().len()
    }

    /// The elements of the pattern, in preorder.
    pub fn elements(&self) -> &[Element]
        ensures value { result.now ≡ elements_of self.now.row }
        ensures sound { WellFormed result.now }
    {
        &self.row.elements[..self.row.count]
    }
}
