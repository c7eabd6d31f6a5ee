// Rebuilds: what is marked is brought up to date.
ghost use Rattle.std.specs.Prelude.{◌≡◌, OnErr};
ghost use Rattle.runs.specs.Session.{turn, rebuild as to_rebuild};
ghost use Rattle.sessions.specs.View.{view, steps_answer};

use crate::session::Session;
use refusals::Refusal;
use trees::ChangeableTree;

impl<T: ChangeableTree> Session<T> {
    /// Tries each pattern wherever it is new or the subtree was touched since the last rebuild, marks where it matches, and
    /// answers the sum of the steps.
    pub fn rebuild(&mut self) -> Result<u32, Refusal>
        ensures turns { (view T.Meant.meaning self.new, steps_answer result) ≡ turn (view T.Meant.meaning self.old) to_rebuild }
        ensures same { OnErr result (self.new ≡ self.old) }
    {
        self.closed()?;
        Ok(self.marks.rebuild(&self.tree, &self.shelf))
    }
}
