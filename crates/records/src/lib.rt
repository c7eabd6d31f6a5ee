// The head of a record of a label book.
#![tactic(auto)]

ghost use Rattle.std.specs.Prelude.{◌≡◌, Some};
ghost use Rattle.records.specs.Heads.{head_bytes, head_of};

/// What a record begins with: its length, which counts the whole record, and its kind.
#[derive(Clone, Copy, PartialEq, Eq, Debug)]
pub struct Head {
    pub length: u32,
    pub kind: u16,
}

/// The head of the record that these bytes begin with, if there are six bytes.
pub fn read_head(bytes: &[u8]) -> Option<Head>
    ensures { result ≡ head_of bytes.now }
{
    let (length, rest) = bytes.split_first_chunk::<4>()?;
    let kind = rest.first_chunk::<2>()?;
    Some(Head {
        length: u32::from_le_bytes(*length),
        kind: u16::from_le_bytes(*kind),
    })
}

impl Head {
    /// The six bytes of the head, which read back as it.
    pub fn bytes(self) -> [u8; 6]
        ensures value { result ≡ head_bytes self }
        ensures back { head_of result ≡ Some self }
    {
        let [a, b, c, d] = self.length.to_le_bytes();
        let [low, high] = self.kind.to_le_bytes();
        [a, b, c, d, low, high]
    }
}
