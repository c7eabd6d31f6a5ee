// How a reader reads its next token.
ghost use Rattle.std.specs.Prelude.{◌≡◌, ◌+◌, ◌<◌, ◌≤◌, length};
ghost use Rattle.std.specs.Option.{option_map};
ghost use Rattle.texts.specs.Tokens.{shape, next_token, quoted_at, percent_at, constructed_at, variable_at, lexed};
ghost use Rattle.texts.specs.Reading.{Reads};

use crate::bytes::{char_at, is_blank, is_name, is_word, run_end};
use crate::reader::Reader;
use crate::token::Token;
use labels::names::{LONGEST_NAME, is_name_byte};

const LONGEST_VARIABLE: usize = 16;

impl<'a> Reader<'a> {
    /// The next token, after blanks; the reader then stands behind it.
    #[tactic(auto, unfolding(crate::specs::Tokens::next_token))]
    pub fn next(&mut self) -> Token<'a>
        ensures token { shape result ≡ (next_token self.old.text.now self.old.at).what }
        ensures start { self.new.start ≡ (next_token self.old.text.now self.old.at).start }
        ensures moved { self.new.at ≡ (next_token self.old.text.now self.old.at).to }
        ensures same { self.new.text ≡ self.old.text }
    {
        let text = self.text;
        let start = run_end(text, self.at, is_blank);
        self.start = start;
        let Some(byte) = text.get(start) else {
            return self.read(Token::End, start);
        };
        if is_word(*byte) {
            let end = run_end(text, start, is_word);
            return self.read(Token::Word(&text[start..end]), end);
        }
        match char::from(*byte) {
            '\'' => self.quoted(start),
            '%' => self.percent(start),
            '!'..='~' => self.read(Token::Sign(*byte), start + 1),
            _ => self.read(Token::Fault, start + 1),
        }
    }

    // A token that ends at a byte, where the reader then stands.
    fn read(&mut self, token: Token<'a>, end: usize) -> Token<'a>
        requires { end ≤ length self.old.text.now }
        ensures { Reads (lexed (shape token.entry) end) self.old result self.new }
    {
        self.at = end;
        token
    }

    // The token of the quote at a byte.
    fn quoted(&mut self, from: usize) -> Token<'a>
        requires { from < length self.old.text.now }
        ensures { Reads (quoted_at self.old.text.now from) self.old result self.new }
    {
        let text = self.text;
        let first = from + 1;
        let end = run_end(text, first, is_name_byte);
        match char_at(text, end) {
            Some('\'') if end > first && end - first <= LONGEST_NAME => {
                self.read(Token::Quoted(&text[first..end]), end + 1)
            }
            _ => self.read(Token::Fault, first),
        }
    }

    // The token of the percent sign at a byte.
    fn percent(&mut self, from: usize) -> Token<'a>
        requires { from < length self.old.text.now }
        ensures { Reads (percent_at self.old.text.now from) self.old result self.new }
    {
        match char_at(self.text, from + 1) {
            Some('%') => self.read(Token::Sign(b'%'), from + 2),
            Some('(') => self.read(Token::GroupOpen, from + 2),
            Some(')') => self.read(Token::GroupClose, from + 2),
            Some('<') => self.constructed(from),
            Some('a'..='z' | 'A'..='Z' | '_') => self.variable(None, from, from + 1),
            _ => self.read(Token::Fault, from + 1),
        }
    }

    // The token of a percent sign with a constructor.
    fn constructed(&mut self, from: usize) -> Token<'a>
        requires { from + 1 < length self.old.text.now }
        ensures { Reads (constructed_at self.old.text.now from) self.old result self.new }
    {
        let text = self.text;
        let first = from + 2;
        let end = run_end(text, first, is_word);
        match char_at(text, end) {
            Some('>') if end > first => self.variable(Some(&text[first..end]), from, end + 1),
            _ => self.read(Token::Fault, from + 1),
        }
    }

    // The token of a percent sign, whose variable name starts at a byte behind it.
    fn variable(&mut self, constructor: Option<&'a [u8]>, from: usize, first: usize) -> Token<'a>
        requires { (from < first) × (first ≤ length self.old.text.now) }
        ensures { Reads (variable_at self.old.text.now (option_map (λ x. x.now) «constructor».entry) from first) self.old result self.new }
    {
        let text = self.text;
        let end = run_end(text, first, is_name);
        match char_at(text, first) {
            Some('a'..='z' | 'A'..='Z' | '_') if end - first <= LONGEST_VARIABLE => {
                let name = &text[first..end];
                self.read(Token::Variable { constructor, name }, end)
            }
            _ => self.read(Token::Fault, from + 1),
        }
    }
}
