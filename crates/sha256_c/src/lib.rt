// SHA-256 for programs in C, on byte slices, each a pointer and a length.
#![tactic(auto)]

ghost use Rattle.std.specs.Prelude.{◌≡◌, leb, length};
ghost use Rattle.sha256_c.specs.Written.{written};
ghost use Rattle.sha256_c.specs.DigestCall.{digest_number};

// Writes the digest of the message to the first 32 bytes of `out` and answers true; where `out` is shorter, changes
// nothing and answers false.
pub fn sha256_into(message: &[u8], out: &mut [u8]) -> bool
    ensures answer { result ≡ leb 32 (length out.old) }
    ensures after { out.new ≡ written message.now out.old }
{
    if out.len() < 32 {
        return false;
    }
    out[..32].copy_from_slice(&sha256::sha256(message));
    true
}

// The same, with the answer as a call's number, which C gets as it is: 0, or refusal 3 where `out` is shorter.
pub fn digest_into(message: &[u8], out: &mut [u8]) -> usize
    ensures answer { result ≡ digest_number out.old }
    ensures after { out.new ≡ written message.now out.old }
{
    if sha256_into(message, out) { 0 } else { 3 }
}
