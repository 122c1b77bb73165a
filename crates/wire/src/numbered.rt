// What the documents give a number: a name that has one, or the number itself.
ghost use Rattle.std.specs.Prelude.{ℕ, ◌≡◌};

pub trait Numbered: Copy {
    ghost number: { Self → ℕ };

    fn number(self) -> usize
        ensures { result ≡ number self };
}

// Any number, so that what takes a name takes every number too.
impl Numbered for usize {
    ghost number = { λ n. n };

    fn number(self) -> usize {
        self
    }
}
