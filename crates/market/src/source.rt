// What a book asks for prices.
ghost use Rattle.std.specs.Prelude.{◌≡◌, ℕ, Option};

/// A source of prices. At any moment it means a set of issues with one price each.
pub trait PriceSource {
    /// The letter by which a notice shows this kind of source.
    const LETTER: u8;

    /// The price of each code, if it has one.
    ghost means: { Self → ℕ → Option ℕ };

    /// The letter, as promises cite it. A ghost of the constant's own name would bar every source with a lifetime.
    ghost mark: { ℕ };

    /// The price of a code. What the source means stays as it was, so that a source may cache or count.
    fn consult(&mut self, code: u32) -> Option<u32>
        ensures answer { result ≡ means self.old code }
        ensures meaning_stays { means self.new ≡ means self.old };

    /// The letter of this kind of source, `LETTER`.
    fn source_letter(&self) -> u8
        ensures { result ≡ mark };
}
