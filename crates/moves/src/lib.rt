// Move: the first of the five moves that applies is made.
#![tactic(auto)]

pub mod make_move;
