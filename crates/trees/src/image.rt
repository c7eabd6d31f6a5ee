// The image, a tree over lent bytes that tell each subtree's length.
ghost use Rattle.std.specs.Prelude.{◌≡◌, ◌<◌, is_none, is_ok};
ghost use Rattle.std.specs.Option.{ForSome};
ghost use Rattle.trees.specs.Images.{image_answer};

mod check;
mod head;
mod tree;

pub use check::check_image;

/// A tree over lent bytes. Of faulty bytes it is a single leaf, whose label is held beside them.
#[derive(Drop)]
pub struct Image<'a> {
    bytes: &'a mut [u8],
    leaf: Option<u16>,
    ghost checked: { is_none leaf ≡ is_ok (image_answer bytes.now) },
    ghost low: { ForSome leaf (λ label. label < 32768) },
}
