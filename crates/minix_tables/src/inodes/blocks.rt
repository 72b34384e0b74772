//! Blocks of zone numbers, as a trait.
ghost use Rattle.std.specs.Prelude.{◌≡◌, ℕ, ◌<◌};

/// The blocks of zone numbers of a volume: each zone seen as 512 numbers.
pub trait ZoneBlocks {
    /// The number at a place of a zone: zone ↦ place ↦ number. Number 0 is a hole.
    ghost entries: { Self → ℕ → ℕ → ℕ };

    /// The number at place `at` of a zone, of 512.
    fn entry(&self, zone: u16, at: u16) -> u16
        requires { at < 512 }
        ensures { result ≡ entries self.now zone at };
}
