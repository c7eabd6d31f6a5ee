// The limits of trees, and the size of a record of an image.

/// The greatest label.
pub const MAX_LABEL: u16 = 32767;
/// The greatest number of places.
pub const MAX_PLACES: usize = 4096;
/// The greatest depth of a place.
pub const MAX_DEPTH: u16 = 63;
/// How many depths there are.
pub const MAX_LEVELS: usize = 64;
/// How many bytes a record of an image has besides the records under it.
pub const RECORD_BYTES: usize = 6;
