// Rule 4, which the lines of ware, setters and parts share: a material from the table has no c of its own, and material 0 has one.
ghost use Rattle.std.specs.Prelude.{◌≡◌, pos};
ghost use Rattle.sheet.specs.Shown.{same, stuff};
ghost use Rattle.due.specs.Taking.{unsuited as unsuitedStuff};

use quantity::heat::SpecificHeat;
use sheet::Stuff;

// Whether a thing has no c of its own.
fn without(c: SpecificHeat) -> bool
    ensures { result ≡ same (pos 0) c.0 }
{
    c.0 == 0
}

// Whether a thing's material and c do not go together.
pub fn unsuited(x: Stuff) -> bool
    ensures { result ≡ unsuitedStuff (stuff x) }
{
    let none = without(x.c);
    if x.material.0 == 0 { none } else { !none }
}
