// The functions for C, each under its own name: what is marked here, and nothing else, stands in libhallviska.a (include/hallviska.h).
#![tactic(auto)]

ghost use Rattle.std.specs.Prelude.{◌≡◌, length};
ghost use Rattle.answer.specs.Answer.{answer_of, buffer_of};
ghost use Rattle.logger.specs.Mean.{mean_of};
ghost use Rattle.hallviska.specs.Version.{version};

use kiln::{Answer, balance};
use logger::{Mean, mean_of};

// The header's HALLVISKA_VERSION, which the gate compares.
const VERSION: u32 = 1;

// Which header the library answers by, so that a caller that was compiled with another notices before it reads a wrong field.
#[unsafe(no_mangle)]
pub extern "C" fn hallviska_version() -> u32
    ensures { result ≡ version }
{
    VERSION
}

// The balance of a sheet: the report at the front of the room and its length, or a refusal, and then no byte of the room changes.
#[unsafe(no_mangle)]
pub extern "C" fn hallviska_balance(sheet: &[u8], room: &mut [u8]) -> Answer
    ensures value { result ≡ answer_of sheet.now (length room.old) }
    ensures room_after { room.new ≡ buffer_of sheet.now room.old }
{
    balance(sheet, room)
}

// The mean of a thermocouple logger's readings in tenths of a degree, or the first of them that is refused.
#[unsafe(no_mangle)]
pub extern "C" fn hallviska_mean_of(readings: &[u8]) -> Mean
    ensures { result ≡ mean_of readings.now }
{
    mean_of(readings)
}
