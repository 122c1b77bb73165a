// The first of three tests that fails, as the number of its refusal.
ghost use Rattle.std.specs.Prelude.{◌≡◌, ◌≤◌};
ghost use Rattle.protocol.specs.Tests.{first_refusal};
ghost use Rattle.frame_refusals.specs.Refusal.{three_rows};
ghost use Rattle.frame_refusals.specs.RefusalNumber.{refusal_of};

// The number of the first of three tests that fails, and 0 where none does.
#[tactic(auto, using(crate::specs::Laws::RefusalNumberLaws::refusal_some), unfolding(crate::specs::RefusalNumber::refusal_of, protocol::specs::Tests::first_refusal))]
pub fn first_refusal(a: usize, p: bool, b: usize, q: bool, c: usize, r: bool) -> usize
    requires { (1 ≤ a) × (1 ≤ b) × (1 ≤ c) }
    ensures { refusal_of result ≡ first_refusal (three_rows a b c p q r) }
{
    if !p {
        return a;
    }
    if !q {
        return b;
    }
    if r { 0 } else { c }
}
