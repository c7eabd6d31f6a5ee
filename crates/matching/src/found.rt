// What a match finds.
use patterns::limits::MAX_VARIABLES;

/// The place of each variable that has one, and the steps taken.
#[derive(Clone, Copy, PartialEq, Eq, Debug)]
pub struct Match {
    pub places: [Option<usize>; MAX_VARIABLES],
    pub steps: u32,
}

/// That the elements of a pattern do not agree with the nodes.
#[derive(Clone, Copy, PartialEq, Eq, Debug)]
pub struct Mismatch;
