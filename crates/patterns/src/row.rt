// The elements of a pattern, and rows of them.
ghost use Rattle.std.specs.Prelude.{◌≡◌, ◌<◌, ◌≤◌, Decides};
ghost use Rattle.patterns.specs.Elements.{extent, least_extent, number_of};

use crate::limits::{MAX_ELEMENTS, MAX_VARIABLES};

/// An element of a pattern: a leaf with a label, a variable that may name a constructor, or a group.
/// The size of a group counts the group itself and all that stands in it.
#[derive(Clone, Copy, PartialEq, Eq, Debug)]
pub enum Element {
    Lexeme(u16),
    Variable {
        number: u8,
        constructor: Option<u16>,
    },
    Group {
        size: u8,
    },
}

impl Element {
    // How many elements there are from this one to the end of what stands in it.
    pub(crate) fn extent(self) -> usize
        ensures value { result ≡ extent self }
        ensures bound { result < 256 }
    {
        match self {
            Element::Lexeme(_) | Element::Variable { .. } => 1,
            Element::Group { size } => usize::from(size),
        }
    }

    // Whether a variable is one of 16, and a group has something in it.
    pub(crate) fn is_sized(self) -> bool
        ensures { Decides result ((number_of self < 16) × (least_extent self ≤ extent self)) }
    {
        match self {
            Element::Lexeme(_) => true,
            Element::Variable { number, .. } => usize::from(number) < MAX_VARIABLES,
            Element::Group { size } => size >= 2,
        }
    }
}

/// Elements in preorder: the first `count` of the slots. The other slots mean nothing.
// Kept as an array with a count: plain rows are one of the forms of code that docs/DECISIONS.md lists.
#[derive(Clone, Copy, PartialEq, Eq, Debug)]
pub struct Row {
    pub elements: [Element; MAX_ELEMENTS],
    pub count: usize,
}
