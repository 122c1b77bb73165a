// Written by tests/restated --write: what docs/statements has of
// crates/sha256/src/digest.rt.
ghost use Rattle.std.specs.Prelude.{◌≡◌};
ghost use package.Rattle.sha256.specs.Digest.{sha256};

// SHA-256 of any message.
pub fn sha256(message: &[u8]) -> [u8; 32]
    ensures { result ≡ sha256 message.now }
{
    sha256::sha256(message)
}
