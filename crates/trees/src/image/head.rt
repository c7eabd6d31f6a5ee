// The record of a place in an image: six bytes, and then the records under it.
ghost use Rattle.std.specs.Prelude.{◌≡◌, ◌+◌, ◌*◌, ◌<◌, ◌≤◌, length, MatchOption};
ghost use Rattle.trees.specs.Images.{length_in, label_in};

use crate::limits::RECORD_BYTES;
use records::{Head, read_head};

/// The head of the record of a place, whose kind is the label of the place. There is none where the bytes end before it.
pub(crate) fn head_at(bytes: &[u8], place: usize) -> Option<Head>
    ensures { MatchOption result (length bytes.now < 6 * place + 6) (λ head. (6 * place + 6 ≤ length bytes.now) × (head.length ≡ length_in bytes.now place) × (head.kind ≡ label_in bytes.now place)) }
{
    let (records, _) = bytes.as_chunks::<RECORD_BYTES>();
    read_head(records.get(place)?)
}
