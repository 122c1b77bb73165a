// SHA-256 of FIPS 180-4: `compression` has the step from a hash value and a block of 64 bytes to the next hash value,
// and `digest` the whole. The parts are in the crates sha256_functions, sha256_schedule, sha256_rounds, sha256_padding.
// What each must compute is defined in specs/.
#![tactic(auto)]

mod compression;
mod digest;

pub use digest::sha256;
