// The check of an image's bytes: one walk, with the ends of the open subtrees in a vector of fixed room.
ghost use Rattle.std.specs.Prelude.{◌≡◌, ◌*◌, ◌/◌, ◌^◌, ◌<◌, length, None, Some, MatchResult, reverse};
ghost use Rattle.refusals.specs.declared.Cause.{Cause};
ghost use Rattle.refusals.specs.declared.Layer.TheVariants.{Image as ImageLayer};
ghost use Rattle.refusals.specs.Numbers.{refused};
ghost use Rattle.trees.specs.Images.{image_answer, length_in, place_fault};
ghost use Rattle.trees.specs.Laws.{OneImage, TakesImages};
ghost use Rattle.trees.specs.Opened.{popped};

use crate::image::head::head_at;
use crate::limits::{MAX_DEPTH, MAX_LABEL, MAX_LEVELS, MAX_PLACES, RECORD_BYTES};
use arrayvec::ArrayVec;
use refusals::{Cause, Layer, Refusal};

/// The ends of the subtrees around a place, the innermost last.
type Ends = ArrayVec<usize, MAX_LEVELS>;

/// Takes off the ends that lie at or before a place.
fn close(ends: &mut Ends, place: usize)
    ensures { reverse ends.new.items ≡ popped place (reverse ends.old.items) }
{
    while ends.last().is_some_and(|end| *end <= place) {
        ends.pop();
    }
}

/// The refusal of the record of a place.
fn refusal(cause: Cause, place: usize) -> Refusal
    requires { 6 * place < 2 ^ 64 }
    ensures { result ≡ refused cause ImageLayer (6 * place) 0 }
{
    Refusal::at(cause, Layer::Image, RECORD_BYTES * place)
}

/// The size that the record of a place gives, where it lies at a depth and has to end before a place, or what is wrong with it.
fn checked_size(bytes: &[u8], place: usize, depth: usize, end: usize) -> Result<usize, Refusal>
    requires { 6 * place < length bytes.now }
    ensures { MatchResult result
        (λ size. (place_fault bytes.now place depth end ≡ None) × (size ≡ length_in bytes.now place / 6))
        (λ f. (cause : Cause) × (place_fault bytes.now place depth end ≡ Some cause) × (f ≡ refused cause ImageLayer (6 * place) 0)) }
{
    if place > 0 && depth == 0 {
        return Err(refusal(Cause::OneTree, place));
    }
    let head = head_at(bytes, place).ok_or(refusal(Cause::BadLength, place))?;
    let length = head.length as usize;
    let size = length / RECORD_BYTES;
    if length < RECORD_BYTES || place + size > end || length % RECORD_BYTES > 0 {
        Err(refusal(Cause::BadLength, place))
    } else if head.kind > MAX_LABEL {
        Err(refusal(Cause::BadLabel, place))
    } else if place >= MAX_PLACES || depth > usize::from(MAX_DEPTH) {
        Err(refusal(Cause::TooMany, place))
    } else {
        Ok(size)
    }
}

/// Checks bytes, and answers how many places their tree has.
#[tactic(auto, using(crate::proofs::ImageOf::one_image))]
pub fn check_image(bytes: &[u8]) -> Result<usize, Refusal>
    ensures value { result ≡ image_answer bytes.now }
    ensures exact { TakesImages bytes.now result }
    ensures one { OneImage }
{
    if bytes.is_empty() {
        return Err(refusal(Cause::OneTree, 0));
    }
    let whole = bytes.len() / RECORD_BYTES;
    let mut ends = Ends::new();
    for place in 0..bytes.len().div_ceil(RECORD_BYTES) {
        close(&mut ends, place);
        let end = ends.last().copied().unwrap_or(whole);
        let size = checked_size(bytes, place, ends.len(), end)?;
        ends.push(place + size);
    }
    Ok(whole)
}
