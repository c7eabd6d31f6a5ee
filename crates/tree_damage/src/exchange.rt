// What can be done with any tree whose labels can be changed.
ghost use Rattle.std.specs.Prelude.{◌≡◌, length, MatchResult};
ghost use Rattle.trees.specs.Forest.{label_at};
ghost use Rattle.trees.specs.Images.{image_meaning};
ghost use Rattle.tree_damage.specs.Exchange.{exchange_answer, exchanged};

use refusals::Refusal;
use trees::image::Image;
use trees::{ChangeableTree, Tree};

/// The label of the first place, which every tree has.
pub fn root_label<T: Tree>(tree: &T) -> u16
    ensures { result ≡ label_at (T.Meant.meaning tree.now) 0 }
{
    tree.label(0).unwrap()
}

/// The label of the first place of the tree that is made of some bytes.
pub fn root_of(bytes: &mut [u8]) -> u16
    ensures { result ≡ label_at (image_meaning bytes.old) 0 }
{
    let tree = Image::new(bytes);
    root_label(&tree)
}

/// Exchanges the labels of two places. Both fit, since every tree's labels do.
pub fn exchange<T: ChangeableTree>(tree: &mut T, a: usize, b: usize) -> Result<(), Refusal>
    ensures answer { result ≡ exchange_answer (T.Meant.meaning tree.old) a b }
    ensures done { MatchResult result (λ _. T.Meant.meaning tree.new ≡ exchanged (T.Meant.meaning tree.old) a b) (λ _. tree.new ≡ tree.old) }
{
    let first = tree.label(a)?;
    let second = tree.label(b)?;
    tree.put(a, second)?;
    tree.put(b, first)
}
