// Written by tests/restated --write: what docs/statements has of
// crates/sha256_c/src/lib.rt.
ghost use Rattle.std.specs.Prelude.{◌≡◌, leb, length};
ghost use package.Rattle.sha256_c.specs.Written.{written};
ghost use package.Rattle.sha256_c.specs.DigestCall.{digest_number};

// Writes the digest of the message to the first 32 bytes of `out` and answers true; where `out` is shorter, changes
// nothing and answers false.
pub fn sha256_into(message: &[u8], out: &mut [u8]) -> bool
    ensures answer { result ≡ leb 32 (length out.old) }
    ensures after { out.new ≡ written message.now out.old }
{
    sha256_c::sha256_into(message, out)
}

// The same, with the answer as a call's number, which C gets as it is: 0, or refusal 3 where `out` is shorter.
pub fn digest_into(message: &[u8], out: &mut [u8]) -> usize
    ensures answer { result ≡ digest_number out.old }
    ensures after { out.new ≡ written message.now out.old }
{
    sha256_c::digest_into(message, out)
}
