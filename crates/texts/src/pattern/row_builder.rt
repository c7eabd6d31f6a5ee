// A row to which elements are added.
ghost use Rattle.std.specs.Prelude.{◌≡◌, ◌-◌, ◌<◌, ◌≤◌, length, slice_set};
ghost use Rattle.patterns.specs.declared.row.Element.TheVariants.{Group};
ghost use Rattle.patterns.specs.Elements.{elements_of};
ghost use Rattle.texts.specs.Rows.{Put};

use patterns::limits::MAX_ELEMENTS;
use patterns::{Element, Row};
use refusals::Cause;

/// A row that counts no more elements than it has slots.
// Kept as an array with a count: a pattern is made from a plain row, and no heap is used in reading.
#[derive(Clone, Copy)]
pub(crate) struct RowBuilder {
    pub(crate) row: Row,
    ghost few: { row.count ≤ 64 },
    ghost full: { length row.elements ≡ 64 },
}

impl RowBuilder {
    /// A row of no elements.
    pub(crate) fn new() -> RowBuilder
        ensures { result.row.count ≡ 0 }
    {
        RowBuilder {
            row: Row {
                elements: [Element::Lexeme(0); MAX_ELEMENTS],
                count: 0,
            },
        }
    }

    /// How many elements there are.
    pub(crate) fn count(&self) -> usize
        ensures { result ≡ self.now.row.count }
    {
        self.row.count
    }

    /// Puts an element behind the others.
    pub(crate) fn push(&mut self, element: Element) -> Result<(), Cause>
        ensures { Put self.old.row element self.new.row result }
    {
        let count = self.row.count;
        if count >= MAX_ELEMENTS {
            return Err(Cause::TooMany);
        }
        self.row.elements[count] = element;
        self.row.count = count + 1;
        Ok(())
    }

    /// Gives the group at a place its size, up to the last element.
    pub(crate) fn end_group(&mut self, group: usize)
        requires { group < self.old.row.count }
        ensures elements { elements_of self.new.row ≡ slice_set (elements_of self.old.row) group (Group (self.old.row.count - group)) }
        ensures count { self.new.row.count ≡ self.old.row.count }
    {
        // Kept as a cast: it is proved to lose nothing, and `try_from` would add a refusal that cannot come.
        let size = (self.row.count - group) as u8;
        self.row.elements[group] = Element::Group { size };
    }
}
