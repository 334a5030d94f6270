ghost use Rattle.std.specs.Prelude.{◌≡◌, ℕ};

/// A refusal that has a number.
pub trait Numbered {
    ghost number: { Self → ℕ };

    fn number(self) -> u64
        ensures { result ≡ number self };
}
