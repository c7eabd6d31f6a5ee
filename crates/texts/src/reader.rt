// The reader, which goes over a lent text and keeps its place in it.
mod next;

ghost use Rattle.std.specs.Prelude.{◌≡◌, ◌≤◌, length};

/// A text, where its last token starts, and where the next begins.
#[derive(Clone, Copy)]
pub struct Reader<'a> {
    text: &'a [u8],
    start: usize,
    at: usize,
    ghost within: { at ≤ length text.now },
}

impl<'a> Reader<'a> {
    /// A reader at the start of a text.
    pub fn new(text: &'a [u8]) -> Reader<'a>
        ensures text { result.text.now ≡ text.now }
        ensures at { result.at ≡ 0 }
    {
        Reader {
            text,
            start: 0,
            at: 0,
        }
    }

    /// Where the last token starts.
    pub fn start(&self) -> usize
        ensures { result ≡ self.now.start }
    {
        self.start
    }

    /// Where the last token ends.
    pub fn at(&self) -> usize
        ensures { result ≡ self.now.at }
    {
        self.at
    }
}
