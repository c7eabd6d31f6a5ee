// Tree text and pattern text: the reader and its tokens, and what they are read into.
#![tactic(auto)]

mod bytes;
pub mod pattern;
pub mod reader;
pub mod token;
pub mod tree;
