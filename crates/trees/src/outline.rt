// The outline, a tree over lent records that tell each node's depth.
ghost use Rattle.std.specs.Prelude.{◌≡◌, ◌<◌, is_none, is_ok};
ghost use Rattle.std.specs.Option.{ForSome};
ghost use Rattle.trees.specs.Outlines.{outline_answer};

pub use crate::record::Record;

mod check;
mod tree;

pub use check::check_outline;

/// A tree over lent records. Of faulty records it is a single leaf, whose label is held beside them.
#[derive(Drop)]
pub struct Outline<'a> {
    records: &'a mut [Record],
    leaf: Option<u16>,
    ghost checked: { is_none leaf ≡ is_ok (outline_answer records.now) },
    ghost low: { ForSome leaf (λ label. label < 32768) },
}
