// The marks of the last rebuild, and what happened since.
mod notes;
mod tries;

ghost use Rattle.std.specs.Prelude.{◌≡◌, ◌≤◌, length, vec_len};

use crate::shelf::PATTERNS;

/// What is kept of a place: whether it was touched since the last rebuild, and which patterns are marked there.
#[derive(Clone, Copy)]
pub(crate) struct Mark {
    touched: bool,
    matched: [bool; PATTERNS],
    ghost wide: { length matched ≡ 16 },
}

// Kept as clauses of three methods: a pattern's number below 16 is what the shelf's count gives them, so a type for it would be made
// anew at each call.
/// A mark for each place; how many patterns the last rebuild tried; and whether anything changed since. All room is taken when
/// the marks are made.
#[derive(Drop)]
pub(crate) struct Marks {
    tried: usize,
    places: Vec<Mark>,
    stale: bool,
    ghost few: { vec_len places ≤ 4096 },
}
