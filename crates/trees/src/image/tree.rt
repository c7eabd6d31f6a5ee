// The image is a tree whose labels can be changed.
ghost use Rattle.std.specs.Prelude.{◌≡◌, ◌<◌, false, length, None, MatchResult, is_none};
ghost use Rattle.trees.specs.Forest.{Forest, Law, relabel};
ghost use Rattle.trees.specs.Images.{image_meaning, image_nodes, image_of};
ghost use Rattle.trees.specs.Questions.{put_answer};
ghost use Rattle.trees.specs.Made.{image_tree};
ghost use Rattle.trees.specs.ImagePuts.{image_kept};

use crate::checks::{check_label, check_place};
use crate::image::Image;
use crate::image::check::check_image;
use crate::image::head::head_at;
use crate::limits::RECORD_BYTES;
use crate::{ChangeableTree, Meant, Tree};
use refusals::Refusal;

impl<'a> Image<'a> {
    /// The tree of these bytes, or a leaf with label 0 beside them if they are faulty.
    pub fn new(bytes: &'a mut [u8]) -> Image<'a>
        ensures meaning { image_tree result ≡ image_meaning bytes.old }
        ensures same { (m : Forest) → Law m → bytes.old ≡ image_of m → image_tree result ≡ m }
        ensures untouched { result.bytes.now ≡ bytes.old }
    {
        let leaf = check_image(bytes).err().map(|_| 0);
        Image { bytes, leaf }
    }
}

impl Image<'_> {
    /// Stores a label in the record of a place. It is two bytes, and the bytes are an image after each.
    fn store(&mut self, place: usize, label: u16)
        requires { (place < length (image_nodes self.old.bytes.now)) × ((place < 4096) × ((label < 32768) × (self.old.leaf ≡ None))) }
        ensures nodes { image_nodes self.new.bytes.now ≡ relabel (image_nodes self.old.bytes.now) place label }
        ensures beside { self.new.leaf ≡ self.old.leaf }
    {
        let [low, high] = label.to_le_bytes();
        self.bytes[RECORD_BYTES * place + 4] = low;
        self.bytes[RECORD_BYTES * place + 5] = high;
    }
}

impl Meant for Image<'_> {
    ghost meaning = { image_tree };

    ghost lawful = { λ t. image_kept t.leaf t.bytes.now t.checked t.low };
}

// Kept as methods of their own beside the outline's: what differs is how each make stores and reads, and a trait for that would repeat the questions.
impl Tree for Image<'_> {
    fn places(&self) -> usize {
        match self.leaf {
            None => self.bytes.len() / RECORD_BYTES,
            Some(_) => 1,
        }
    }

    fn label(&self, place: usize) -> Result<u16, Refusal> {
        check_place(self.places(), place)?;
        match self.leaf {
            None => Ok(head_at(self.bytes, place).unwrap().kind),
            Some(label) => Ok(label),
        }
    }

    fn size(&self, place: usize) -> Result<usize, Refusal> {
        check_place(self.places(), place)?;
        match self.leaf {
            None => Ok(head_at(self.bytes, place).unwrap().length as usize / RECORD_BYTES),
            Some(_) => Ok(1),
        }
    }
}

impl ChangeableTree for Image<'_> {
    fn put(&mut self, place: usize, label: u16) -> Result<(), Refusal>
        ensures answer { result ≡ put_answer (image_tree self.old) place label }
        ensures done { MatchResult result (λ _. image_tree self.new ≡ relabel (image_tree self.old) place label) (λ _. self.new ≡ self.old) }
        ensures flag { is_none self.new.leaf ≡ is_none self.old.leaf }
        ensures beside { is_none self.old.leaf ≡ false → self.new.bytes.now ≡ self.old.bytes.now }
    {
        check_place(self.places(), place)?;
        check_label(label)?;
        match self.leaf {
            None => self.store(place, label),
            Some(_) => self.leaf = Some(label),
        }
        Ok(())
    }
}
