// Masses.
ghost use Rattle.std.proofs.Common.{rules};

use limits::Measure;

// The fired ware of a firing, in tenths of a kilogram.
#[derive(Clone, Copy)]
pub struct Product(pub i32);

impl Product {
    pub const LEAST: i32 = 1_000;

    pub const GREATEST: i32 = 1_000_000;
}

impl Measure for Product {
    ghost use Rattle.quantity.specs.declared.mass.TheConstants.Product.{LEAST as least, GREATEST as greatest};

    const LEAST: i32 = Product::LEAST;

    const GREATEST: i32 = Product::GREATEST;

    ghost LEAST = { least };

    ghost GREATEST = { greatest };

    ghost amount = { λ held. held.0 };

    ghost ordered = { Prim.search rules };

    fn of(units: i32) -> Product {
        Product(units)
    }
}

// A mass, in tenths of a kilogram.
#[derive(Clone, Copy)]
pub struct Kilos(pub i32);

impl Kilos {
    pub const LEAST: i32 = 0;

    pub const GREATEST: i32 = 1_000_000;
}

impl Measure for Kilos {
    ghost use Rattle.quantity.specs.declared.mass.TheConstants.Kilos.{LEAST as least, GREATEST as greatest};

    const LEAST: i32 = Kilos::LEAST;

    const GREATEST: i32 = Kilos::GREATEST;

    ghost LEAST = { least };

    ghost GREATEST = { greatest };

    ghost amount = { λ held. held.0 };

    ghost ordered = { Prim.search rules };

    fn of(units: i32) -> Kilos {
        Kilos(units)
    }
}
