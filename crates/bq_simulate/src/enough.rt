//! A sink that may have enough of a simulation before its end.
ghost use Rattle.std.specs.Prelude.{◌≡◌, Bool};

/// What may have enough of a simulation before its end.
pub trait Enough {
    /// Whether it has enough.
    ghost has_enough: { Self → Bool };

    /// Returns whether the sink has enough.
    fn has_enough(&self) -> bool
        ensures { result ≡ Self.has_enough self.now };
}
