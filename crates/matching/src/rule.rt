// The rules by which a pattern is matched.

/// What is done next with the elements and the nodes ahead, with the variable that is bound or the size of the group that is entered.
#[derive(Clone, Copy, PartialEq, Eq, Debug)]
pub enum Rule {
    Done,
    Stuck,
    BothGo,
    BindBeforeLexeme { variable: u8 },
    BindBeforeInner { variable: u8 },
    BindLast { variable: u8 },
    Enter { size: u8 },
    Open,
}
