// What a measure is.
ghost use Rattle.std.specs.Prelude.{◌≡◌};
ghost use Rattle.measures.specs.Scales.{Scale};

/// A way to value outfits: where values start, how a part extends a value, and whether one value is at most another. The scale is its
/// meaning, with the laws that these owe.
pub trait Measure {
    type Value: Drop;

    ghost scale: { Self → Scale Self.Value };

    /// The value of the empty outfit.
    fn start(&self) -> Self::Value
        ensures { result ≡ (scale self.now).start };

    /// A value extended by a part.
    fn extend(&self, value: &Self::Value, part: u8) -> Self::Value
        ensures { result ≡ (scale self.now).extend value.now part };

    /// Whether one value is at most another.
    fn at_most(&self, a: &Self::Value, b: &Self::Value) -> bool
        ensures { result ≡ (scale self.now).at_most a.now b.now };
}
