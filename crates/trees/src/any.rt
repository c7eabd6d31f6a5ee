// What is done with trees of any make, by their questions alone.
ghost use Rattle.std.specs.Prelude.{◌≡◌, ◌<◌, true, length, IfOk, MatchResult, slice_index_or};
ghost use Rattle.trees.specs.Forest.{label_at, no_node, relabel, same, same_node};
ghost use Rattle.trees.specs.Laws.{Alike, MakesAgree, RelabelGoesBack, RelabelKeepsTheLaw, SameIsEqual};
ghost use Rattle.trees.specs.Questions.{replace_answer};

use crate::{ChangeableTree, Tree};
use refusals::Refusal;

/// Whether two trees answer alike at a place.
fn same_at<A: Tree, B: Tree>(a: &A, b: &B, place: usize) -> bool
    ensures { place < length (A.Meant.meaning a.now) → place < length (B.Meant.meaning b.now) → result ≡ same_node (slice_index_or (A.Meant.meaning a.now) place no_node) (slice_index_or (B.Meant.meaning b.now) place no_node) }
{
    a.label(place) == b.label(place) && a.size(place) == b.size(place)
}

/// Whether two trees, of whatever makes, are the same tree: just then they answer every question alike.
#[tactic(auto, using(crate::proofs::Same::same_is_equal, crate::proofs::Comparing::makes_agree))]
pub fn same_tree<A: Tree, B: Tree>(a: &A, b: &B) -> bool
    ensures value { result ≡ same (A.Meant.meaning a.now) (B.Meant.meaning b.now) }
    ensures alike { ((result ≡ true → Alike (A.Meant.meaning a.now) (B.Meant.meaning b.now))) × ((Alike (A.Meant.meaning a.now) (B.Meant.meaning b.now) → result ≡ true)) }
    ensures equal { SameIsEqual }
    ensures makes { MakesAgree }
{
    a.places() == b.places() && (0..a.places()).all(|place| same_at(a, b, place))
}

/// Puts a label at a place, and answers the label that stood there, which takes the change back.
#[tactic(auto, using(crate::proofs::Relabel::relabel_goes_back, crate::proofs::Relabel::relabel_keeps_the_law))]
pub fn replace_label<T: ChangeableTree>(
    tree: &mut T,
    place: usize,
    label: u16,
) -> Result<u16, Refusal>
    ensures answer { result ≡ replace_answer (T.Meant.meaning tree.old) place label }
    ensures done { MatchResult result (λ old. T.Meant.meaning tree.new ≡ relabel (T.Meant.meaning tree.old) place label) (λ _. tree.new ≡ tree.old) }
    ensures back { IfOk result (λ old. relabel (T.Meant.meaning tree.new) place old ≡ T.Meant.meaning tree.old) }
    ensures laws { (RelabelGoesBack) × (RelabelKeepsTheLaw) }
{
    let old = tree.label(place)?;
    tree.put(place, label)?;
    Ok(old)
}
