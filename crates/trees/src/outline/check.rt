// The check of an outline's records.
ghost use Rattle.std.specs.Prelude.{◌≡◌, ◌<◌, ◌≤◌, None, Some, MatchResult};
ghost use Rattle.refusals.specs.declared.Cause.{Cause};
ghost use Rattle.refusals.specs.declared.Layer.TheVariants.{Tree as OutlineLayer};
ghost use Rattle.refusals.specs.Numbers.{refused};
ghost use Rattle.trees.specs.Outlines.{record_fault, outline_answer};
ghost use Rattle.trees.specs.Laws.{TakesOutlines};

use crate::limits::{MAX_DEPTH, MAX_LABEL, MAX_PLACES};
use crate::record::Record;
use refusals::{Cause, Layer, Refusal};

/// The refusal of the record of a number.
fn refusal(cause: Cause, number: usize) -> Refusal
    ensures { result ≡ refused cause OutlineLayer number 0 }
{
    Refusal::at(cause, Layer::Tree, number)
}

/// Checks the record of a number, whose depth may be up to a limit.
fn check_record(number: usize, limit: u16, record: Record) -> Result<(), Refusal>
    ensures { MatchResult result (λ _. record_fault number limit «record» ≡ None) (λ f. (cause : Cause) × (record_fault number limit «record» ≡ Some cause) × (f ≡ refused cause OutlineLayer number 0)) }
{
    if number > 0 && record.depth == 0 {
        Err(refusal(Cause::OneTree, number))
    } else if record.depth > limit {
        Err(refusal(Cause::BadLength, number))
    } else if record.label > MAX_LABEL {
        Err(refusal(Cause::BadLabel, number))
    } else if number >= MAX_PLACES || record.depth > MAX_DEPTH {
        Err(refusal(Cause::TooMany, number))
    } else {
        Ok(())
    }
}

/// Checks records, and answers how many places their tree has.
pub fn check_outline(records: &[Record]) -> Result<usize, Refusal>
    ensures value { result ≡ outline_answer records.now }
    ensures exact { TakesOutlines records.now result }
{
    if records.is_empty() {
        return Err(refusal(Cause::OneTree, 0));
    }
    let mut limit = 0u16;
    for (i, entry) in records.iter().enumerate() {
        check_record(i, limit, *entry)?;
        limit = entry.depth + 1;
    }
    Ok(records.len())
}
