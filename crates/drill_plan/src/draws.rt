//! A linear congruential generator of 64 bits.
ghost use Rattle.std.specs.Prelude.{◌≡◌};
ghost use Rattle.drill_plan.specs.Draws.{next, draw};

/// The generator behind a draw.
pub(crate) fn next(generator: u64) -> u64
    ensures { result ≡ next generator }
{
    generator
        .wrapping_mul(6_364_136_223_846_793_005)
        .wrapping_add(1_442_695_040_888_963_407)
}

/// What is drawn from a generator, which the generator behind it shows in its high bits.
pub(crate) fn draw(generator: u64) -> u32
    ensures { result ≡ draw generator }
{
    (next(generator) >> 33) as u32
}
