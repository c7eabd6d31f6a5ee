// How patterns come to a shelf, and are made again of its rows.
ghost use Rattle.std.specs.Prelude.{◌≡◌, ◌<◌, ◌≤◌, [], ◌∷◌, ◌++◌, length, IfOk, slice_index_or};
ghost use Rattle.patterns.specs.Elements.{elements_of};
ghost use Rattle.sessions.specs.Shelves.{shelf_view};

use crate::shelf::Shelf;
use patterns::Pattern;
use std::alloc::{AllocError, Global};

/// How many patterns a shelf has room for.
pub(crate) const PATTERNS: usize = 16;

impl Shelf {
    /// An empty shelf.
    pub(crate) fn new(heap: Global) -> Result<Shelf, AllocError>
        ensures { IfOk result (λ s. shelf_view s ≡ []) }
    {
        let rows = Vec::with_capacity(heap, PATTERNS)?;
        Ok(Shelf { rows })
    }

    /// How many patterns the shelf holds.
    pub(crate) fn count(&self) -> usize
        ensures { (result ≡ length (shelf_view self.now)) × (result ≤ 16) }
    {
        self.rows.len()
    }

    /// Puts a pattern behind the others.
    pub(crate) fn add(&mut self, pattern: &Pattern)
        requires { length (shelf_view self.old) < 16 }
        ensures { shelf_view self.new ≡ shelf_view self.old ++ (elements_of pattern.now.row ∷ []) }
    {
        self.rows.push_reserved(pattern.row());
    }

    /// A pattern, by its number.
    pub(crate) fn pattern(&self, number: usize) -> Pattern
        requires { number < length (shelf_view self.now) }
        ensures { elements_of result.row ≡ slice_index_or (shelf_view self.now) number [] }
    {
        Pattern::from_row(self.rows[number]).unwrap()
    }
}
