// The type of a head of water, and its limit.
ghost use Rattle.std.specs.Prelude.{T};
ghost use Rattle.heads.specs.Range.{within};

mod order;

/// The bit pattern of 100 metres, the largest head.
pub const LARGEST: u32 = 0x42C8_0000;

/// A head of water: 0 to 100 metres, and nothing else.
#[derive(Clone, Copy, PartialEq, PartialOrd)]
pub struct Head {
    metres: f32,
    ghost ok: { T (within metres) },
}
