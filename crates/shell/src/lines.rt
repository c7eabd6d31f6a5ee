// The lines of a script.
ghost use Rattle.std.specs.Prelude.{◌≡◌, ◌≢◌, [], length, All, MatchOption};
ghost use Rattle.std.specs.Iterator.{at_most};
ghost use Rattle.shell.specs.Pieces.{BeginsWithLine, Cut};

/// What stands before the first of some byte in a text, and what stands behind it.
pub(crate) fn split_once(text: &[u8], byte: u8) -> Option<(&[u8], &[u8])>
    ensures { MatchOption result (All (λ b. b ≢ byte) text.now) (λ p. Cut text.now byte p.0.now p.1.now) }
{
    let at = text.iter().position(|other| *other == byte)?;
    Some((&text[..at], &text[at + 1..]))
}

/// The lines of a text that is not read yet, each without the byte 10 that ends it.
#[derive(Drop)]
pub(crate) struct Lines<'a> {
    text: &'a [u8],
}

impl<'a> Lines<'a> {
    pub(crate) fn new(text: &'a [u8]) -> Lines<'a> {
        Lines { text }
    }
}

impl<'a> Iterator for Lines<'a> {
    type Item = &'a [u8];

    ghost next_gives = { λ s r t. MatchOption r ((s.text.now ≡ []) × (t.text.now ≡ [])) (λ line. BeginsWithLine s.text.now line.now t.text.now) };

    ghost remaining = { λ s. at_most (length s.text.now) };

    fn next(&mut self) -> Option<&'a [u8]> {
        let text = self.text;
        match split_once(text, b'\n') {
            Some((line, rest)) => {
                self.text = rest;
                Some(line)
            }
            None if text.is_empty() => None,
            None => {
                self.text = &[];
                Some(text)
            }
        }
    }
}

/// Whether a line holds only blanks.
pub(crate) fn is_blank(line: &[u8]) -> bool {
    line.iter().all(|byte| *byte == b' ' || *byte == b'\t')
}
