// The bounds of a book, as the definitions name them: `maximum_replicas`, `maximum_heights`, `maximum_pending`; and the
// most heights of editions before the third, as `most_heights` has them.
pub const MAXIMUM_REPLICAS: usize = 16;

pub const MAXIMUM_HEIGHTS: usize = 1000;

pub const SHORT_HEIGHTS: usize = 63;

pub const MAXIMUM_PENDING: usize = 32;
