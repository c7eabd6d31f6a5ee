// Patterns: rows of elements, the check of a row, and the type of the rows that passed it.
#![tactic(auto)]

pub mod check;
pub mod limits;
pub mod pattern;
pub mod row;

pub use pattern::Pattern;
pub use row::{Element, Row};
