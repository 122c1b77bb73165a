// Changes of a replica's book, in place: each leaves the bytes of the changed state, and touches no byte besides.
#![tactic(auto)]

pub mod fresh;
pub mod height;
pub mod pool;
