// All lines of a sheet, from the first to the last.
#![tactic(auto)]

ghost use Rattle.std.specs.Prelude.{◌≡◌, pos};
ghost use Rattle.document.specs.Rows.{analysed as isAnalysed};
ghost use Rattle.due.specs.Place.{Ready};
ghost use Rattle.lines.specs.All.{head_of, LinesRead};

use blocks::loading_lines;
use due::{Heard, Place, counted_line};
use fuel::{Fuelling, fuelling_lines};
use head::drying::{Drying, drying_lines};
use head::heading::{Heading, heading_lines};
use quantity::sheet::{Closing, Edition};
use sheet::{Head, Sheet};
use stages::staging_lines;
use walls::surface_lines;

// Whether the flue is analysed on sheets of an edition.
fn analysed(edition: Edition) -> bool
    ensures { result ≡ isAnalysed (pos edition.0) }
{
    edition.0 == 2
}

// The head of a sheet, from its first line and the groups above the stages.
fn head_of(edition: Edition, h: Heading, f: Fuelling, d: Drying) -> Head
    ensures { result ≡ head_of edition h f d }
{
    let gas = f.gas;
    Head {
        edition,
        firing: h.firing,
        product: h.product,
        ambient: h.ambient,
        fuel: f.fuel,
        gas,
        moisture: d.moisture,
        ware: d.ware,
        water: d.water,
        clay: d.clay,
    }
}

// All lines, from `sheet` to `end`, group by group: the place after the last line, and all that the lines said; a refused place passes through.
pub fn all_lines(s: &[u8], start: Place) -> Heard<Sheet>
    requires { Ready s.now start }
    ensures { LinesRead s.now start result }
{
    let edition = counted_line::<Edition>(s, start, b"sheet=");
    let heading = heading_lines(s, edition.place);
    let fuelling = fuelling_lines(s, heading.place);
    let drying = drying_lines(s, fuelling.place);
    let stages = staging_lines(s, drying.place, analysed(edition.said));
    let loading = loading_lines(s, stages.place);
    let surfaces = surface_lines(s, loading.place, stages.said.count.0);
    let closing = counted_line::<Closing>(s, surfaces.place, b"end=");
    let readings = surfaces.said.readings;
    Heard {
        place: closing.place,
        said: Sheet {
            head: head_of(edition.said, heading.said, fuelling.said, drying.said),
            stages: stages.said,
            setters: loading.said.setters,
            parts: loading.said.parts,
            sections: surfaces.said.sections,
            readings,
        },
    }
}
