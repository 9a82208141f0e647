// The ternary pattern, which is sound by its type.
ghost use Rattle.std.specs.Prelude.{T};
ghost use Rattle.patterns.specs.Sound.{ternary_ok};

/// A value under a mask: a key fits if its bits under the mask are the value. No value bit lies outside
/// the mask.
#[derive(Clone, Copy)]
pub struct Ternary {
    pub value: u32,
    pub mask: u32,
    ghost inside: { T (ternary_ok value mask) },
}
