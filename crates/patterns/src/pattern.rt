// The type of the rows that are patterns.
mod makes;

ghost use Rattle.std.specs.Prelude.{ℕ, ◌<◌, ◌≤◌, length};
ghost use Rattle.patterns.specs.Elements.{extent, least_extent, number_of, element_at, elements_of, ends, around, Nested};

use crate::row::Row;

/// A row that is a pattern: 1 to 64 elements, paired groups, something in each level, groups at most 16 deep, variables below 16.
#[derive(Clone, Copy)]
pub struct Pattern {
    row: Row,
    ghost counted: { row.count ≤ length row.elements },
    ghost few: { row.count ≤ 64 },
    ghost some: { 1 ≤ row.count },
    ghost numbered: { (i : ℕ) → i < length (elements_of row) → number_of (element_at (elements_of row) i) < 16 },
    ghost sized: { (i : ℕ) → i < length (elements_of row) → least_extent (element_at (elements_of row) i) ≤ extent (element_at (elements_of row) i) },
    ghost inside: { (i : ℕ) → i < length (elements_of row) → ends (elements_of row) i ≤ length (elements_of row) },
    ghost nested: { Nested (elements_of row) },
    ghost shallow: { (i : ℕ) → i < length (elements_of row) → around (elements_of row) i i ≤ 16 },
}
