// The names of the variables of a pattern text.
ghost use Rattle.std.specs.Prelude.{◌≡◌, ◌<◌, [], IfSome};
ghost use Rattle.std.specs.Option.{option_map};
ghost use Rattle.texts.specs.PatternText.{number_in, number_for, names_with, name_numbered};
ghost use Rattle.texts.specs.PatternSteps.{names_in};

use arrayvec::ArrayVec;
use patterns::limits::MAX_VARIABLES;
use refusals::Cause;

/// The names in the order of their first appearance, each the part of the text where it first stands.
#[derive(Drop)]
pub(crate) struct Names<'a> {
    parts: ArrayVec<&'a [u8], MAX_VARIABLES>,
}

impl<'a> Names<'a> {
    /// No names.
    pub(crate) fn new() -> Names<'a>
        ensures { names_in result ≡ [] }
    {
        Names {
            parts: ArrayVec::new(),
        }
    }

    /// The number of a name. No two names are the same, so it is as well sought from the back, as the definition does.
    fn find(&self, name: &[u8]) -> Option<usize>
        ensures value { result ≡ number_in (names_in self.now) name.now }
        ensures below { IfSome result (λ n. n < 16) }
    {
        self.parts.as_slice().iter().rposition(|part| *part == name)
    }

    /// The number of a name; a new one is kept.
    pub(crate) fn number(&mut self, name: &'a [u8]) -> Result<u8, Cause>
        ensures value { result ≡ number_for (names_in self.old) name.now }
        ensures names { names_in self.new ≡ names_with (names_in self.old) name.now }
    {
        // Kept as casts, here and below: they are proved to lose nothing.
        if let Some(number) = self.find(name) {
            return Ok(number as u8);
        }
        if self.parts.is_full() {
            return Err(Cause::TooMany);
        }
        let number = self.parts.len();
        self.parts.push(name);
        Ok(number as u8)
    }

    /// The name with a number, which is the part of the text where it first stands.
    pub(crate) fn name(&self, number: usize) -> Option<&'a [u8]>
        ensures { option_map (λ x. x.now) result ≡ name_numbered (names_in self.now) number }
    {
        self.parts.as_slice().get(number).copied()
    }
}
