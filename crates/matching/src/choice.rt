// Which rule is chosen.
ghost use Rattle.std.specs.Prelude.{◌≡◌, ◌+◌, ◌≤◌, length, if◌then◌else◌, None, nat_lt};
ghost use Rattle.trees.specs.Windows.{win};
ghost use Rattle.matching.specs.Levels.{Known};
ghost use Rattle.matching.specs.Rules.{next, choose_last, choose_inner, choose_leaf};

use crate::matcher::Matcher;
use crate::nodes::{Node, Seen};
use crate::rule::Rule;
use patterns::Element;
use trees::Tree;

// The rule at a leaf.
fn choose_at_leaf(elements: &[Element], label: u16) -> Rule
    ensures { result ≡ choose_leaf elements.now label }
{
    match elements {
        [Element::Lexeme(lexeme), ..] if *lexeme == label => Rule::BothGo,
        _ => Rule::Stuck,
    }
}

// The rule at an inner node that suits a variable, by the elements behind the variable and by what follows.
fn choose_behind(variable: u8, elements: &[Element], next: Option<Seen>) -> Rule
    ensures { result ≡ choose_last variable elements.now next }
{
    match (next, elements) {
        (Some(Seen::Inner), _) => Rule::BindBeforeInner { variable },
        (None, []) => Rule::BindLast { variable },
        (Some(Seen::Leaf(label)), [Element::Lexeme(expected), ..]) if *expected == label => {
            Rule::BindBeforeLexeme { variable }
        }
        _ => Rule::Open,
    }
}

/// A rule, and the node behind the one that it was chosen at, if that was asked for.
#[derive(Clone, Copy, PartialEq, Eq, Debug)]
pub struct Choice {
    pub rule: Rule,
    pub next: Option<Node>,
}

// A rule that was chosen without a look behind the node.
fn at_once(rule: Rule) -> Choice
    ensures rule { result.rule ≡ rule }
    ensures next { result.next ≡ None }
{
    Choice { rule, next: None }
}

impl<'t, T: Tree> Matcher<'t, T> {
    // The rule at an inner node that suits a variable, by the elements behind the variable and the node behind the node's tree.
    fn look_behind(&self, variable: u8, elements: &[Element], behind: usize, end: usize) -> Choice
        requires { end ≤ length (T.Meant.meaning self.now.tree.now) }
        ensures rule { result.rule ≡ choose_last variable elements.now (next (win (T.Meant.meaning self.now.tree.now) behind end)) }
        ensures known { Known (T.Meant.meaning self.now.tree.now) behind result.next }
    {
        // Kept as an `if`: nothing is known of what a closure that asks the tree answers, unless `node_at`'s clauses are written out at it.
        let node = if behind < end {
            Some(self.node_at(behind))
        } else {
            None
        };
        Choice {
            rule: choose_behind(variable, elements, node.map(Node::seen)),
            next: node,
        }
    }

    // The rule for the elements ahead at a node, where the nodes of its level end.
    pub(crate) fn choose_rule(
        &self,
        elements: &[Element],
        node: Node,
        place: usize,
        end: usize,
    ) -> Choice
        requires end { end ≤ length (T.Meant.meaning self.now.tree.now) }
        requires node { place + node.size ≤ end }
        ensures rule { result.rule ≡ (if nat_lt 1 node.size then choose_inner elements.now node.label (win (T.Meant.meaning self.now.tree.now) (place + node.size) end) else choose_leaf elements.now node.label) }
        ensures known { Known (T.Meant.meaning self.now.tree.now) (place + node.size) result.next }
    {
        let label = match node.seen() {
            Seen::Leaf(label) => return at_once(choose_at_leaf(elements, label)),
            Seen::Inner => node.label,
        };
        match elements {
            [] => at_once(Rule::Stuck),
            [Element::Lexeme(_), ..] => at_once(Rule::Open),
            [Element::Group { size }, ..] => at_once(Rule::Enter { size: *size }),
            [
                Element::Variable {
                    number,
                    constructor,
                },
                rest @ ..,
            ] => {
                if constructor.is_none_or(|named| named == label) {
                    self.look_behind(*number, rest, place + node.size, end)
                } else {
                    at_once(Rule::Open)
                }
            }
        }
    }
}
