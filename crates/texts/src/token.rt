// The tokens of a text.

/// A token, which is the part of the text that it was read from.
#[derive(Clone, Copy, PartialEq, Eq, Debug)]
pub enum Token<'a> {
    /// A longest run of letters, digits, underscores and points.
    Word(&'a [u8]),
    /// What stands between two quotes.
    Quoted(&'a [u8]),
    /// The name of a variable, behind the constructor that it may have.
    Variable {
        constructor: Option<&'a [u8]>,
        name: &'a [u8],
    },
    /// One other byte; a percent sign where the text has two.
    Sign(u8),
    GroupOpen,
    GroupClose,
    /// A byte, a quote or a percent sign that no rule allows.
    Fault,
    End,
}
