// How the elements of a level are matched with the nodes between two places.
ghost use Rattle.std.specs.Prelude.{◌≡◌, ◌+◌, ◌-◌, ◌*◌, ◌≤◌};
ghost use Rattle.trees.specs.Windows.{Fits};
ghost use Rattle.matching.specs.Rules.{tick, walks};
ghost use Rattle.matching.specs.Levels.{Level, Known};
ghost use Rattle.matching.specs.Answers.{ended};

use crate::found::Mismatch;
use crate::matcher::Matcher;
use crate::nodes::Node;
use crate::rule::Rule;
use patterns::Element;
use trees::Tree;

impl<'t, T: Tree> Matcher<'t, T> {
    // Matches elements with the nodes between two places, rule after rule; the first node may be known.
    pub(crate) fn match_level(
        &mut self,
        elements: &[Element],
        first: Option<Node>,
        place: usize,
        end: usize,
    ) -> Result<(), Mismatch>
        requires level { Level elements.now }
        requires known { Known (T.Meant.meaning self.old.tree.now) place first }
        requires fits { Fits (T.Meant.meaning self.old.tree.now) place end }
        requires room { self.old.found.steps + 2 * (end - place) ≤ 8192 }
        ensures answer { ended result self.new.found ≡ tick self.old.found.steps (walks (T.Meant.meaning self.old.tree.now) elements.now place end self.old.found.places) }
        ensures brief { self.new.found.steps ≤ self.old.found.steps + 2 * (end - place) }
        ensures tree { self.new.tree ≡ self.old.tree }
    {
        let mut rest = elements;
        let mut at = place;
        let mut ahead = first;
        // Kept as `while`: each rule says how far it goes on, so there is nothing to go over.
        while at < end {
            // Kept as a `match`, as the `if` of `look_behind`.
            let node = match ahead {
                Some(node) => node,
                None => self.node_at(at),
            };
            let choice = self.choose_rule(rest, node, at, end);
            ahead = None;
            match choice.rule {
                Rule::Done => return Ok(()),
                Rule::Stuck => return Err(Mismatch),
                Rule::BothGo => {
                    self.found.steps += 1;
                    rest = &rest[1..]; // the lexeme goes
                    at += 1;
                }
                Rule::BindBeforeLexeme { variable } => {
                    self.found.steps += 1;
                    self.bind_variable(variable, at, node.size)?;
                    rest = &rest[2..]; // the variable and the lexeme go
                    at = at + node.size + 1;
                }
                Rule::BindBeforeInner { variable } | Rule::BindLast { variable } => {
                    self.found.steps += 1;
                    let bound = self.bind_variable(variable, at, node.size);
                    bound?; // a tree that differs ends the level
                    rest = &rest[1..]; // the variable goes
                    at += node.size;
                    ahead = choice.next;
                }
                Rule::Enter { size } => {
                    self.found.steps += 1;
                    let size = usize::from(size);
                    self.match_level(&rest[1..size], None, at + 1, at + node.size)?;
                    rest = &rest[size..]; // the group goes
                    at += node.size;
                }
                Rule::Open => {
                    self.found.steps += 1;
                    at += 1;
                }
            }
        }
        if rest.is_empty() {
            Ok(())
        } else {
            Err(Mismatch)
        }
    }
}
