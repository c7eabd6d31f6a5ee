// The limits of patterns.

/// The greatest number of elements of a pattern.
pub const MAX_ELEMENTS: usize = 64;
/// The greatest number of variables of a pattern; their numbers lie below it.
pub const MAX_VARIABLES: usize = 16;
/// How many groups an element may lie in.
pub const MAX_GROUPS: usize = 16;
