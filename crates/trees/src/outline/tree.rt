// The outline is a tree whose labels can be changed.
ghost use Rattle.std.specs.Prelude.{◌≡◌, ◌<◌, ◌≤◌, false, length, MatchResult, is_none, nat_lt};
ghost use Rattle.std.specs.List.{take_while};
ghost use Rattle.trees.specs.Forest.{Forest, Law, relabel, size_at};
ghost use Rattle.trees.specs.Outlines.{outline_meaning, outline_nodes, outline_of};
ghost use Rattle.trees.specs.Questions.{put_answer};
ghost use Rattle.trees.specs.Made.{outline_tree};
ghost use Rattle.trees.specs.OutlinePuts.{outline_kept};

use crate::checks::{check_label, check_place};
use crate::outline::Outline;
use crate::outline::check::check_outline;
use crate::record::Record;
use crate::{ChangeableTree, Meant, Tree};
use refusals::Refusal;

/// How many of the first records lie deeper than a depth.
fn deeper(records: &[Record], depth: u16) -> usize
    ensures { result ≡ length (take_while (λ r. nat_lt depth r.depth) records.now) }
{
    records
        .iter()
        .take_while(|record| record.depth > depth)
        .count()
}

/// How many nodes the subtree at a place has: its record and the deeper ones that follow.
fn span(records: &[Record], place: usize) -> usize
    requires { (place < length records.now) × (length records.now ≤ 4096) }
    ensures { result ≡ size_at (outline_nodes records.now) place }
{
    1 + deeper(&records[place + 1..], records[place].depth)
}

impl<'a> Outline<'a> {
    /// The tree of these records, or a leaf with label 0 beside them if they are faulty.
    pub fn new(records: &'a mut [Record]) -> Outline<'a>
        ensures meaning { outline_tree result ≡ outline_meaning records.old }
        ensures same { (m : Forest) → Law m → records.old ≡ outline_of m → outline_tree result ≡ m }
        ensures untouched { result.records.now ≡ records.old }
    {
        let leaf = check_outline(records).err().map(|_| 0);
        Outline { records, leaf }
    }
}

impl Meant for Outline<'_> {
    ghost meaning = { outline_tree };

    ghost lawful = { λ t. outline_kept t.leaf t.records.now t.checked t.low };
}

// Kept as methods of their own beside the image's: what differs is how each make stores and reads, and a trait for that would repeat the questions.
impl Tree for Outline<'_> {
    fn places(&self) -> usize {
        match self.leaf {
            None => self.records.len(),
            Some(_) => 1,
        }
    }

    fn label(&self, place: usize) -> Result<u16, Refusal> {
        check_place(self.places(), place)?;
        match self.leaf {
            None => Ok(self.records[place].label),
            Some(label) => Ok(label),
        }
    }

    fn size(&self, place: usize) -> Result<usize, Refusal> {
        check_place(self.places(), place)?;
        match self.leaf {
            None => Ok(span(self.records, place)),
            Some(_) => Ok(1),
        }
    }
}

impl ChangeableTree for Outline<'_> {
    fn put(&mut self, place: usize, label: u16) -> Result<(), Refusal>
        ensures answer { result ≡ put_answer (outline_tree self.old) place label }
        ensures done { MatchResult result (λ _. outline_tree self.new ≡ relabel (outline_tree self.old) place label) (λ _. self.new ≡ self.old) }
        ensures flag { is_none self.new.leaf ≡ is_none self.old.leaf }
        ensures beside { is_none self.old.leaf ≡ false → self.new.records.now ≡ self.old.records.now }
    {
        check_place(self.places(), place)?;
        check_label(label)?;
        match self.leaf {
            None => self.records[place].label = label,
            Some(_) => self.leaf = Some(label),
        }
        Ok(())
    }
}
