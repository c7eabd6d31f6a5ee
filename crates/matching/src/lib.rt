// How a pattern is matched at a place of a tree, and the laws of matching.
#![tactic(auto)]

ghost use Rattle.std.specs.Prelude.{◌≡◌};
ghost use Rattle.patterns.specs.Elements.{elements_of};
ghost use Rattle.matching.specs.Answers.{no_match, match_answer, MatchLaws};
ghost use Rattle.matching.specs.Rows.{EightRows, EachRule};

mod binding;
mod choice;
mod comparison;
mod found;
mod level;
mod matcher;
mod nodes;
mod rule;

pub use found::Match;
use found::Mismatch;
use matcher::Matcher;
use nodes::Node;
use patterns::Pattern;
use patterns::limits::MAX_VARIABLES;
use refusals::{Cause, Layer, Refusal};
use trees::Tree;

/// Matches a pattern at a place of a tree: the bindings and the steps.
// Inlined, so that a caller that asks only whether there is a match does not wait for the bindings to be moved.
#[inline(always)]
pub fn match_at<T: Tree>(tree: &T, pattern: &Pattern, place: usize) -> Result<Match, Refusal>
    ensures answer { result ≡ match_answer (T.Meant.meaning tree.now) (elements_of pattern.now.row) place }
    ensures laws { MatchLaws (T.Meant.meaning tree.now) (elements_of pattern.now.row) place result }
{
    let label = tree.label(place)?;
    let size = tree.size(place)?;
    let mut matcher = Matcher {
        tree,
        found: Match {
            places: [None; MAX_VARIABLES],
            steps: 0,
        },
    };
    let first = Some(Node { label, size });
    // A match, since the refusal tells the steps that the matcher has counted.
    match matcher.match_level(pattern.elements(), first, place, place + size) {
        Ok(()) => Ok(matcher.found),
        Err(Mismatch) => Err(no_match(matcher.found.steps)),
    }
}

// The refusal of a match that fails after so many steps.
fn no_match(steps: u32) -> Refusal
    ensures { result ≡ no_match steps }
{
    Refusal {
        cause: Cause::NoMatch,
        layer: Layer::Pattern,
        byte: 0,
        steps,
    }
}

/// How many worked matches the rules are held to: each has the bindings and the steps that its row says.
pub fn worked_rows() -> u8
    ensures rows { EightRows }
    ensures more { EachRule }
    ensures count { result ≡ 19 }
{
    19
}
