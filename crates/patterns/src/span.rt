// The range pattern, which is sound by its type.
ghost use Rattle.std.specs.Prelude.{T};
ghost use Rattle.patterns.specs.Sound.{span_ok};

/// The numbers from low to high, both among them. Low is not above high.
#[derive(Clone, Copy)]
pub struct Span {
    pub low: u16,
    pub high: u16,
    ghost ordered: { T (span_ok low high) },
}
