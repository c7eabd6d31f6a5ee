// What a call answers when it refuses: the cause, the layer that found it, the byte and the steps.
#![tactic(auto)]

ghost use Rattle.std.specs.Prelude.{◌≡◌, Some};
ghost use Rattle.refusals.specs.Numbers.{cause_number, layer_number, numbers, refused};
ghost use Rattle.refusals.specs.Words.{cause_words, refusal_words};

use std::error::Error;
use std::fmt;

/// Why a call was refused. The number of each case is part of the format of a refusal.
#[derive(Clone, Copy, PartialEq, Eq, Debug)]
pub enum Cause {
    WrongClick = 1,
    ClickOpen = 2,
    Stale = 3,
    NoSuchPattern = 4,
    NoSuchPlace = 5,
    ShelfFull = 6,
    JournalFull = 7,
    NothingToUndo = 8,
    BadLength = 9,
    BadLabel = 10,
    BadName = 11,
    BadText = 12,
    UnknownName = 13,
    Unpaired = 14,
    OneTree = 15,
    TooMany = 16,
    NoRoom = 17,
    NoMatch = 18,
    NoMemory = 27,
}

/// Which layer made the check that failed.
#[derive(Clone, Copy, PartialEq, Eq, Debug)]
pub enum Layer {
    Book = 1,
    Image = 2,
    TreeText = 3,
    Pattern = 4,
    Tree = 5,
    Session = 6,
}

/// A refusal; byte and steps are 0 where they do not apply.
#[derive(Clone, Copy, PartialEq, Eq, Debug)]
pub struct Refusal {
    pub cause: Cause,
    pub layer: Layer,
    pub byte: usize,
    pub steps: u32,
}

impl Cause {
    /// The number by which the cause is known.
    pub fn number(self) -> u8
        ensures { result ≡ cause_number self }
    {
        self as u8
    }
}

impl Layer {
    /// The number by which the layer is known.
    pub fn number(self) -> u8
        ensures { result ≡ layer_number self }
    {
        self as u8
    }
}

impl Refusal {
    /// A refusal at a byte, before any step was taken.
    pub fn at(cause: Cause, layer: Layer, byte: usize) -> Refusal
        ensures { result ≡ refused cause layer byte 0 }
    {
        Refusal {
            cause,
            layer,
            byte,
            steps: 0,
        }
    }

    /// The four numbers by which the refusal is known: cause, layer, byte and steps.
    pub fn numbers(self) -> (u8, u8, usize, u32)
        ensures { result ≡ numbers self }
    {
        (
            self.cause.number(),
            self.layer.number(),
            self.byte,
            self.steps,
        )
    }
}

/// The cause in words.
impl fmt::Display for Cause {
    ghost output = { λ c. Some (cause_words c) };

    fn fmt<W: fmt::Write>(&self, f: &mut fmt::Formatter<W>) -> fmt::Result {
        f.write_str(match self {
            Cause::WrongClick => "wrong click",
            Cause::ClickOpen => "click open",
            Cause::Stale => "stale",
            Cause::NoSuchPattern => "no such pattern",
            Cause::NoSuchPlace => "no such place",
            Cause::ShelfFull => "shelf full",
            Cause::JournalFull => "journal full",
            Cause::NothingToUndo => "nothing to undo",
            Cause::BadLength => "bad length",
            Cause::BadLabel => "bad label",
            Cause::BadName => "bad name",
            Cause::BadText => "bad text",
            Cause::UnknownName => "unknown name",
            Cause::Unpaired => "unpaired",
            Cause::OneTree => "one tree",
            Cause::TooMany => "too many",
            Cause::NoRoom => "no room",
            Cause::NoMatch => "no match",
            Cause::NoMemory => "no memory",
        })
    }
}

/// The cause by number and in words, and then layer, byte and steps.
impl fmt::Display for Refusal {
    ghost output = { λ r. Some (refusal_words r) };

    fn fmt<W: fmt::Write>(&self, f: &mut fmt::Formatter<W>) -> fmt::Result {
        let number = self.cause.number();
        let layer = self.layer.number();
        write!(
            f,
            "refused {number} {} (layer {layer}, byte {}, steps {})",
            self.cause, self.byte, self.steps
        )
    }
}

impl Error for Refusal {}

#[cfg(test)]
mod tests {
    use super::*;

    #[test]
    fn numbers_of_causes(rt: HostRuntime) {
        assert_eq!(rt; Cause::WrongClick.number(), 1);
        assert_eq!(rt; Cause::NoMatch.number(), 18);
        assert_eq!(rt; Cause::NoMemory.number(), 27);
        assert_eq!(rt; Layer::Session.number(), 6);
    }
}
