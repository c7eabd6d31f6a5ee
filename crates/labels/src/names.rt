// What a name may be, and the hash by which it is looked for.
ghost use Rattle.std.specs.Prelude.{◌≡◌, ◌<◌};
ghost use Rattle.std.specs.List.{list_all};
ghost use Rattle.labels.specs.Entries.{name_byte, good_name};
ghost use Rattle.labels.specs.Index.{bucket_of};

/// The greatest number of bytes of a name.
pub const LONGEST_NAME: usize = 64;

/// Bytes that are looked for as a name, and their bucket.
#[derive(Clone, Copy)]
pub(crate) struct Key<'a> {
    pub(crate) name: &'a [u8],
    pub(crate) bucket: usize,
    ghost hashed: { bucket ≡ bucket_of name.now },
    ghost small: { bucket < 4096 },
}

/// Whether a byte may stand in a name.
pub fn is_name_byte(byte: u8) -> bool
    ensures { result ≡ name_byte byte }
{
    byte.is_ascii_graphic() && byte != b'\''
}

fn are_name_bytes(bytes: &[u8]) -> bool
    ensures { result ≡ list_all name_byte bytes.now }
{
    bytes.iter().all(|byte| is_name_byte(*byte))
}

/// Whether these bytes are a name.
pub(crate) fn is_good_name(name: &[u8]) -> bool
    ensures { result ≡ good_name name.now }
{
    (1..=LONGEST_NAME).contains(&name.len()) && are_name_bytes(name)
}

/// The bucket of a name.
fn bucket(name: &[u8]) -> usize
    ensures value { result ≡ bucket_of name.now }
    ensures bound { result < 4096 }
{
    let hash = name.iter().fold(0u32, |hash, byte| {
        hash.wrapping_add(u32::from(*byte)).wrapping_mul(2654435761)
    });
    // Kept as a cast: it is proved to lose nothing.
    (hash / 1048576) as usize
}

impl<'a> Key<'a> {
    /// The key of a name.
    pub(crate) fn of(name: &'a [u8]) -> Key<'a>
        ensures { result.name.now ≡ name.now }
    {
        Key {
            name,
            bucket: bucket(name),
        }
    }
}
