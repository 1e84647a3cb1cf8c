// The lines `firing`, `product` and `ambient`.
ghost use Rattle.document.specs.Document01.{heading};
ghost use Rattle.due.specs.Place.{Ready};
ghost use Rattle.document.specs.Entries.{paragraphs_of};
ghost use Rattle.due.specs.Said.{GroupRead};
ghost use Rattle.head.specs.Head.{heading_says};

use due::{Heard, Place, measured_line};
use quantity::mass::Product;
use quantity::sheet::FiringNumber;
use quantity::temperature::Ambient;

#[derive(Drop)]
pub struct Heading {
    pub firing: FiringNumber,
    pub product: Product,
    pub ambient: Ambient,
}

// The lines `firing` to `ambient`.
pub fn heading_lines(s: &[u8], p: Place) -> Heard<Heading>
    requires { Ready s.now p }
    ensures { GroupRead s.now p (paragraphs_of heading) result.place (heading_says result.said) }
{
    let firing = measured_line::<FiringNumber>(s, p, b"firing=");
    let product = measured_line::<Product>(s, firing.place, b"product=");
    let ambient = measured_line::<Ambient>(s, product.place, b"ambient=");
    Heard {
        place: ambient.place,
        said: Heading {
            firing: firing.said,
            product: product.said,
            ambient: ambient.said,
        },
    }
}
