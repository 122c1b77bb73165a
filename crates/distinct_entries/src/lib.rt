// The distinct entries of a chain, each at its first place: how many they are, whether they fit, and copying them out.
#![tactic(auto)]

pub mod distinct;
