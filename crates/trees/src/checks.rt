// The checks of a place that is asked for and of a label that is put.
ghost use Rattle.std.specs.Prelude.{◌≡◌, ◌<◌, ◌≤◌, MatchResult};
ghost use Rattle.trees.specs.Questions.{label_too_large, no_such_place};

use crate::limits::MAX_LABEL;
use refusals::{Cause, Layer, Refusal};

/// Refuses a place outside a tree of so many places.
pub(crate) fn check_place(places: usize, place: usize) -> Result<(), Refusal>
    ensures { MatchResult result (λ _. place < places) (λ refusal. (places ≤ place) × (refusal ≡ no_such_place)) }
{
    if place < places {
        Ok(())
    } else {
        Err(Refusal::at(Cause::NoSuchPlace, Layer::Tree, 0))
    }
}

/// Refuses a label that is too large.
pub(crate) fn check_label(label: u16) -> Result<(), Refusal>
    ensures { MatchResult result (λ _. label < 32768) (λ refusal. (32768 ≤ label) × (refusal ≡ label_too_large)) }
{
    if label <= MAX_LABEL {
        Ok(())
    } else {
        Err(Refusal::at(Cause::BadLabel, Layer::Tree, 0))
    }
}
