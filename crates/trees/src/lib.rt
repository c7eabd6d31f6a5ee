// Trees of labels, known by their questions alone.
#![tactic(auto)]

ghost use Rattle.std.specs.Prelude.{◌≡◌, length, MatchResult};
ghost use Rattle.trees.specs.Forest.{Forest, Law, relabel};
ghost use Rattle.trees.specs.Questions.{label_answer, size_answer, put_answer};

use refusals::Refusal;

pub mod any;
mod checks;
pub mod image;
pub mod limits;
pub mod outline;
mod record;
pub mod write;

/// What a tree means: its nodes in preorder, which keep the law of every tree.
/// A trait of its own, with no method, so that each make proves the law by itself.
pub trait Meant {
    ghost meaning: { Self → Forest };

    ghost lawful: { (t : Self) → Law (meaning t) };
}

/// A tree, known by three questions.
pub trait Tree: Meant {
    /// How many places the tree has.
    fn places(&self) -> usize
        ensures { result ≡ length (Self.Meant.meaning self.now) };

    /// The label at a place.
    fn label(&self, place: usize) -> Result<u16, Refusal>
        ensures { result ≡ label_answer (Self.Meant.meaning self.now) place };

    /// The number of nodes of the subtree at a place.
    fn size(&self, place: usize) -> Result<usize, Refusal>
        ensures { result ≡ size_answer (Self.Meant.meaning self.now) place };
}

/// A tree whose labels can be changed.
pub trait ChangeableTree: Tree {
    /// Puts a label at a place, and alters nothing else; a refusal alters nothing.
    fn put(&mut self, place: usize, label: u16) -> Result<(), Refusal>
        ensures answer { result ≡ put_answer (Self.Meant.meaning self.old) place label }
        ensures done { MatchResult result (λ _. Self.Meant.meaning self.new ≡ relabel (Self.Meant.meaning self.old) place label) (λ _. self.new ≡ self.old) };
}
