// The fuel as a mixture of gases: its specific heat, the air that it asks and the flue that it gives.
ghost use Rattle.sheet.specs.Shown.{gas as gas_of};
ghost use Rattle.document.specs.Lawful.{GasIn};
ghost use Rattle.burning.specs.Mixture.{WarmthFits, WarmthWith, Warmed, BurningFits, BurningWith, Burns};

use quantity::gas::Share;
use sheet::GASES;

// What the shares come to in specific heat: c at 0 °C and its rise to 100 °C, in 1e-7 kJ/(m³·°C).
#[derive(Drop)]
pub struct Warmth {
    pub cold: i64,
    pub rise: i64,
}

// What a unit of fuel asks and gives: theoretical air in 1e-6 m³, dry flue in 1e-9 m³, vapour in 1e-16/56 kg.
#[derive(Clone, Copy)]
pub struct Burning {
    pub air: i64,
    pub dry: i64,
    pub vapour: i64,
}

// A gas of table A.1: c at 0 and at 100 °C in 0.001 kJ/(m³·°C); and for each share of it, in the units of `Burning`, the theoretical air, the
// dry flue and the vapour.
#[derive(Clone, Copy)]
pub struct Kind {
    pub cold: i64,
    pub hot: i64,
    pub air: i64,
    pub dry: i64,
    pub vapour: i64,
}

// The gases in the gas line's order.
static TABLE_A1: [Kind; GASES] = [
    Kind {
        cold: 1275,
        hot: 1287,
        air: 238,
        dry: 0,
        vapour: 45_000_000_000_000,
    },
    Kind {
        cold: 1296,
        hot: 1300,
        air: 0,
        dry: 100_000,
        vapour: 0,
    },
    Kind {
        cold: 1300,
        hot: 1301,
        air: 238,
        dry: 100_000,
        vapour: 0,
    },
    Kind {
        cold: 1304,
        hot: 1317,
        air: -476,
        dry: 0,
        vapour: 0,
    },
    Kind {
        cold: 1488,
        hot: 1501,
        air: 0,
        dry: 0,
        vapour: 45_000_000_000_000,
    },
    Kind {
        cold: 1597,
        hot: 1697,
        air: 0,
        dry: 100_000,
        vapour: 0,
    },
    Kind {
        cold: 1563,
        hot: 1651,
        air: 952,
        dry: 100_000,
        vapour: 90_000_000_000_000,
    },
    Kind {
        cold: 1869,
        hot: 2103,
        air: 1428,
        dry: 200_000,
        vapour: 90_000_000_000_000,
    },
    Kind {
        cold: 2061,
        hot: 2061,
        air: 1666,
        dry: 200_000,
        vapour: 135_000_000_000_000,
    },
    Kind {
        cold: 3043,
        hot: 3959,
        air: 2380,
        dry: 300_000,
        vapour: 180_000_000_000_000,
    },
    Kind {
        cold: 4122,
        hot: 5250,
        air: 3094,
        dry: 400_000,
        vapour: 225_000_000_000_000,
    },
    Kind {
        cold: 1530,
        hot: 1559,
        air: 714,
        dry: 100_000,
        vapour: 45_000_000_000_000,
    },
    Kind {
        cold: 1777,
        hot: 1860,
        air: 0,
        dry: 100_000,
        vapour: 0,
    },
];

// The specific heat with one gas more.
fn warmth_with(sum: Warmth, kind: Kind, share: Share) -> Warmth
    requires { WarmthFits sum kind share.0 }
    ensures { WarmthWith sum kind share.0 result }
{
    let hundredths = share.0 as i64;
    Warmth {
        cold: sum.cold + kind.cold * hundredths,
        rise: sum.rise + (kind.hot - kind.cold) * hundredths,
    }
}

// The specific heat of a sheet's fuel.
pub fn warmth_of(gas: [Share; GASES]) -> Warmth
    requires { GasIn (gas_of gas) }
    ensures { Warmed (gas_of gas) result }
{
    let mut sum = Warmth { cold: 0, rise: 0 };
    for (kind, share) in TABLE_A1.iter().zip(&gas) {
        sum = warmth_with(sum, *kind, *share);
    }
    sum
}

// The burning with one gas more.
fn burning_with(sum: Burning, kind: Kind, share: Share) -> Burning
    requires { BurningFits sum kind share.0 }
    ensures { BurningWith sum kind share.0 result }
{
    let hundredths = share.0 as i64;
    Burning {
        air: sum.air + kind.air * hundredths,
        dry: sum.dry + kind.dry * hundredths,
        vapour: sum.vapour + kind.vapour * hundredths,
    }
}

// The burning of a sheet's fuel. Not one function with `warmth_of`, which sums other columns into another type: only the line of the loop is the same.
pub fn burning_of(gas: [Share; GASES]) -> Burning
    requires { GasIn (gas_of gas) }
    ensures { Burns (gas_of gas) result }
{
    let mut sum = Burning {
        air: 0,
        dry: 0,
        vapour: 0,
    };
    for (kind, share) in TABLE_A1.iter().zip(&gas) {
        sum = burning_with(sum, *kind, *share);
    }
    sum
}
