// Kinds of bytes, where a run of them ends, and the character at a place.
ghost use Rattle.std.specs.Prelude.{◌≡◌, ◌<◌, ◌≤◌, ◌↔◌, ℕ, Bool, length, slice_index, IsSome};
ghost use Rattle.std.specs.Option.{unwrap_or};
ghost use Rattle.texts.specs.Bytes.{blank, namey, run_end, wordy};

/// Whether a byte is a space, a tab or the end of a line.
pub(crate) fn is_blank(byte: u8) -> bool
    ensures { result ≡ blank byte }
{
    matches!(byte, b' ' | b'\t' | b'\n')
}

/// Whether a byte may stand in the name of a variable.
pub(crate) fn is_name(byte: u8) -> bool
    ensures { result ≡ namey byte }
{
    matches!(byte, b'a'..=b'z' | b'A'..=b'Z' | b'0'..=b'9' | b'_')
}

/// Whether a byte may stand in a word.
pub(crate) fn is_word(byte: u8) -> bool
    ensures { result ≡ wordy byte }
{
    is_name(byte) || byte == b'.'
}

/// Where the longest run from a byte on ends of the bytes that pass a test.
pub(crate) fn run_end<F: Fn(u8) -> bool>(text: &[u8], from: usize, test: F) -> usize
    ghost passes: { ℕ → Bool }
    requires callable { F.IsAlwaysCallable test }
    requires tests { (byte : ℕ) (passed : Bool) → F.post test byte passed → passed ≡ passes byte }
    requires inside { from ≤ length text.now }
    ensures value { result ≡ run_end passes text.now from }
    ensures within { result ≤ length text.now }
{
    from + text[from..].iter().take_while(|byte| test(**byte)).count()
}

/// The character at a place, and none behind the end.
pub(crate) fn char_at(text: &[u8], at: usize) -> Option<char>
    ensures value { unwrap_or result 0 ≡ slice_index text.now at }
    ensures inside { IsSome result ↔ (at < length text.now) }
{
    text.get(at).map(|byte| char::from(*byte))
}
