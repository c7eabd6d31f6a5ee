// A record of an outline.

/// How deep a node lies, and its label.
#[derive(Clone, Copy, PartialEq, Eq, Debug)]
pub struct Record {
    pub depth: u16,
    pub label: u16,
}
