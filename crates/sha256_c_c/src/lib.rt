// The archive for programs in C: what `sha256_c` offers, under the same names and with the same clauses.
#![tactic(auto)]

ghost use Rattle.std.specs.Prelude.{◌≡◌, leb, length};
ghost use Rattle.sha256_c.specs.Written.{written};

// Writes the digest of the message to the first 32 bytes of `out` and answers true; where `out` is shorter, changes
// nothing and answers false.
#[unsafe(no_mangle)]
pub extern "C" fn sha256_into(message: &[u8], out: &mut [u8]) -> bool
    ensures answer { result ≡ leb 32 (length out.old) }
    ensures after { out.new ≡ written message.now out.old }
{
    sha256_c::sha256_into(message, out)
}
