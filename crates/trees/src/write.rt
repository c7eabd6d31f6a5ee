// Writing any tree as an image.
ghost use Rattle.std.specs.Prelude.{◌≡◌, ◌<◌, ◌≤◌, length, take, MatchResult};
ghost use Rattle.trees.specs.Forest.{label_at, size_at};
ghost use Rattle.trees.specs.Images.{node_bytes};
ghost use Rattle.trees.specs.Writing.{ReadsBack, write_answer, written};

use crate::Tree;
use crate::limits::RECORD_BYTES;
use records::Head;
use refusals::{Cause, Layer, Refusal};

/// The record of a node.
fn record_of(label: u16, size: usize) -> [u8; RECORD_BYTES]
    requires { size ≤ 4096 }
    ensures { result ≡ node_bytes (record { label = label; size = size }) }
{
    // Kept as a cast: it is proved to lose nothing.
    let length = (RECORD_BYTES * size) as u32;
    Head {
        length,
        kind: label,
    }
    .bytes()
}

/// Writes a tree as an image into the beginning of some bytes, and answers how many it took.
pub fn write_image<T: Tree>(tree: &T, out: &mut [u8]) -> Result<usize, Refusal>
    ensures answer { result ≡ write_answer (T.Meant.meaning tree.now) out.old }
    ensures bytes { out.new ≡ written (T.Meant.meaning tree.now) out.old }
    ensures back { MatchResult result (λ n. ReadsBack (T.Meant.meaning tree.now) (take n out.new)) (λ _. out.new ≡ out.old) }
{
    let places = tree.places();
    if out.len() < RECORD_BYTES * places {
        return Err(Refusal::at(Cause::NoRoom, Layer::Image, 0));
    }
    // Kept as an index: what `chunks_exact_mut` or `as_chunks_mut` lends is not known in `out` afterwards, so `bytes` was left open.
    for place in 0..places {
        let label = tree.label(place).unwrap();
        let size = tree.size(place).unwrap();
        let start = RECORD_BYTES * place;
        out[start..start + RECORD_BYTES].copy_from_slice(&record_of(label, size));
    }
    Ok(RECORD_BYTES * places)
}
