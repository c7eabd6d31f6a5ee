// The shelf: the patterns of a session, as plain rows.
mod rows;

ghost use Rattle.std.specs.Prelude.{◌≤◌, vec_len, vec_capacity};
ghost use Rattle.sessions.specs.Kept.{EachPattern};

use patterns::Row;
pub(crate) use rows::PATTERNS;

/// Up to 16 rows, each of which is a pattern. The room for them is taken when the shelf is made.
#[derive(Drop)]
pub(crate) struct Shelf {
    // Kept as plain rows: it is one of the forms of code that docs/DECISIONS.md lists, and a pattern is made of a row after a check.
    rows: Vec<Row>,
    ghost room: { 16 ≤ vec_capacity rows },
    ghost few: { vec_len rows ≤ 16 },
    ghost kept: { ∥ EachPattern rows.items ∥₁ },
}
