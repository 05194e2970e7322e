// The parts of the mill.
ghost use Rattle.std.specs.Prelude.{◌≡◌};
ghost use Rattle.mill.specs.Parts.{named};

use sets::parts::Bits;

/// The parts, each as the set that has it alone.
pub const MILL: Bits = 1 << 0;

pub const AXIAL: Bits = 1 << 1;

pub const CROSS: Bits = 1 << 2;

pub const GEARBOX: Bits = 1 << 3;

pub const BRAKE: Bits = 1 << 4;

pub const FLOATGATE: Bits = 1 << 5;

pub const LIFTGATE: Bits = 1 << 6;

// What is known of a part: its name, its price in pence and the bit pattern of its head of water.
#[derive(Clone, Copy)]
pub(crate) struct Fitting {
    pub(crate) name: &'static str,
    pub(crate) pence: u64,
    pub(crate) pattern: u32,
}

// The parts from number 0.
pub(crate) const FITTINGS: [Fitting; 7] = [
    Fitting {
        name: "mill",
        pence: 0,
        pattern: 0,
    },
    // 1.5 metres
    Fitting {
        name: "axial",
        pence: 900_000,
        pattern: 0x3FC0_0000,
    },
    // 0.75 metres
    Fitting {
        name: "cross",
        pence: 700_000,
        pattern: 0x3F40_0000,
    },
    // 0.25 metres
    Fitting {
        name: "gearbox",
        pence: 150_000,
        pattern: 0x3E80_0000,
    },
    Fitting {
        name: "brake",
        pence: 40_000,
        pattern: 0,
    },
    // 2 metres
    Fitting {
        name: "floatgate",
        pence: 60_000,
        pattern: 0x4000_0000,
    },
    // 1.25 metres
    Fitting {
        name: "liftgate",
        pence: 85_000,
        pattern: 0x3FA0_0000,
    },
];

/// The name of a part, by its number.
pub fn name(part: u8) -> &'static str
    ensures { result.now ≡ named part }
{
    FITTINGS
        .get(part as usize)
        .map_or("unnamed", |fitting| fitting.name)
}
