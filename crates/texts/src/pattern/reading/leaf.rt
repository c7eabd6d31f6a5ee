// The elements of a pattern that are no groups.
ghost use Rattle.std.specs.Prelude.{◌≡◌, true, is_ok};
ghost use Rattle.std.specs.Option.{option_map};
ghost use Rattle.texts.specs.Books.{entries_of};
ghost use Rattle.texts.specs.Tokens.{shape};
ghost use Rattle.texts.specs.PatternText.{known_label, leaf_of, lexeme_of, names_after, variable_of_lem, names_with};
ghost use Rattle.texts.specs.PatternSteps.{names_in, OnlyNames};

use crate::pattern::reading::PatternReader;
use crate::token::Token;
use patterns::Element;
use refusals::Cause;

impl<'a, 'b> PatternReader<'a, 'b> {
    // The label that has a name.
    fn label_of(&self, name: &[u8]) -> Result<u16, Cause>
        ensures { result ≡ known_label (entries_of self.now.book.now) name.now }
    {
        self.book.label(name).ok_or(Cause::UnknownName)
    }

    // The lexeme with a name.
    fn lexeme(&self, name: &[u8]) -> Result<Element, Cause>
        ensures { result ≡ lexeme_of (entries_of self.now.book.now) name.now }
    {
        Ok(Element::Lexeme(self.label_of(name)?))
    }

    // The variable with a name, of which the number is kept.
    fn variable(&mut self, constructor: Option<&[u8]>, name: &'a [u8]) -> Result<Element, Cause>
        ensures value { result ≡ variable_of_lem (entries_of self.old.book.now) (names_in self.old.names) (option_map (λ x. x.now) «constructor».entry) name.now }
        ensures names { is_ok result ≡ true → names_in self.new.names ≡ names_with (names_in self.old.names) name.now }
        ensures others { OnlyNames self.old self.new }
    {
        // Kept as a match: a closure that calls `label_of` has no contract that says so, and `map` with `transpose` found no proof.
        let constructor = match constructor {
            Some(constructor) => Some(self.label_of(constructor)?),
            None => None,
        };
        let number = self.names.number(name)?;
        Ok(Element::Variable {
            number,
            constructor,
        })
    }

    /// The element of a token that is no group.
    pub(crate) fn leaf(&mut self, token: Token<'a>) -> Result<Element, Cause>
        ensures value { result ≡ leaf_of (entries_of self.old.book.now) (names_in self.old.names) (shape token.entry) }
        ensures names { is_ok result ≡ true → names_in self.new.names ≡ names_after (names_in self.old.names) (shape token.entry) }
        ensures others { OnlyNames self.old self.new }
    {
        match token {
            Token::Word(name) | Token::Quoted(name) => self.lexeme(name),
            Token::Sign(byte) => self.lexeme(&[byte]),
            Token::Variable { constructor, name } => self.variable(constructor, name),
            Token::Fault => Err(Cause::BadText),
            Token::GroupOpen | Token::GroupClose | Token::End => Err(Cause::Unpaired),
        }
    }
}
