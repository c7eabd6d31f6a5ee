// The entries of a journal: clicks, and what their changes replaced.

/// A click: how many changes belong to it.
// Kept as a count beside the table of changes: it is one of the forms of code that docs/DECISIONS.md lists, and all room is taken at once.
#[derive(Clone, Copy, PartialEq, Eq, Debug)]
pub struct Click {
    pub changes: usize,
}

/// A change, by what puts it back: the place, and the label that stood there.
#[derive(Clone, Copy, PartialEq, Eq, Debug)]
pub struct Replaced {
    pub place: usize,
    pub label: u16,
}
