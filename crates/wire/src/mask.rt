// Masks of replicas: who is in one, one replica's bit, and masks that hold none but the first replicas.
ghost use Rattle.std.specs.Prelude.{◌≡◌, cond, ◌^◌, ◌<◌, ◌≤◌};
ghost use Rattle.protocol.specs.Mask.{in_mask, below_bit, mask_limit};
ghost use Rattle.protocol.specs.State.{maximum_replicas};

// Whether replica `s` is in a mask.
pub fn in_mask(mask: usize, s: usize) -> bool
    requires { s < maximum_replicas }
    ensures { result ≡ in_mask mask s }
{
    one_if_in(mask, s) == 1
}

// 1 if replica `s` is in a mask and 0 if not: its bit, moved to the front.
pub fn one_if_in(mask: usize, s: usize) -> usize
    requires { s < maximum_replicas }
    ensures { (result ≡ cond (in_mask mask s) 1 0) × (result ≤ 1) }
{
    (mask >> s) % 2
}

// The mask that holds replica `s` alone.
pub fn bit(s: usize) -> usize
    requires { s ≤ maximum_replicas }
    ensures { (result ≡ 2 ^ s) × (result ≤ mask_limit) }
{
    1 << s
}

// Whether a mask holds none but the first `n` replicas.
pub fn below(n: usize, mask: usize) -> bool
    requires { n ≤ maximum_replicas }
    ensures { result ≡ below_bit n mask }
{
    mask < bit(n)
}
