// The tree of a script, whose bytes or records the desk owns, and the tree that is lent from them.
ghost use Rattle.shell.specs.AnyTree.{any_kept, any_tree};

use crate::failure::Failure;
use refusals::Refusal;
use trees::image::Image;
use trees::outline::{Outline, Record};
use trees::{Meant, Tree};

/// The bytes of an image, or the records of an outline.
#[derive(Drop)]
pub(crate) enum Store {
    Image(Vec<u8>),
    Outline(Vec<Record>),
}

/// A tree of either make.
#[derive(Drop)]
pub(crate) enum AnyTree<'a> {
    Image(Image<'a>),
    Outline(Outline<'a>),
}

impl Store {
    /// The tree that stands in the bytes or records.
    pub(crate) fn tree(&mut self) -> AnyTree<'_> {
        match self {
            Store::Image(bytes) => AnyTree::Image(Image::new(bytes.as_mut_slice())),
            Store::Outline(records) => AnyTree::Outline(Outline::new(records.as_mut_slice())),
        }
    }

    /// The make of the tree.
    pub(crate) fn make(&self) -> &'static str {
        match self {
            Store::Image(_) => "image",
            Store::Outline(_) => "outline",
        }
    }
}

/// The tree of a script, if there is one.
pub(crate) fn tree_of(store: &mut Option<Store>) -> Result<AnyTree<'_>, Failure> {
    Ok(store.as_mut().ok_or(Failure::NoTree)?.tree())
}

impl Meant for AnyTree<'_> {
    ghost meaning = { any_tree };

    ghost lawful = { any_kept };
}

impl Tree for AnyTree<'_> {
    fn places(&self) -> usize {
        match self {
            AnyTree::Image(tree) => tree.places(),
            AnyTree::Outline(tree) => tree.places(),
        }
    }

    fn label(&self, place: usize) -> Result<u16, Refusal> {
        match self {
            AnyTree::Image(tree) => tree.label(place),
            AnyTree::Outline(tree) => tree.label(place),
        }
    }

    fn size(&self, place: usize) -> Result<usize, Refusal> {
        match self {
            AnyTree::Image(tree) => tree.size(place),
            AnyTree::Outline(tree) => tree.size(place),
        }
    }
}
