// The fields of a book: reading them where they lie, and writing those of the head.
#![tactic(auto)]

pub mod bounds;
pub mod head;
pub mod height;
pub mod kind;
pub mod names;
pub mod observed;
pub mod pool;
pub mod quorum;
pub mod setting;
pub mod weighing;
