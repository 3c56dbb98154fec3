// The case runner: readings of document 01 taken by running the code, a line each, then the calls of
// the file `stdin`, held to the file `stdout`. What it prints is compared and not proved.
#![tactic(auto)]

mod balances;
mod replay;

use cases_readings::{append_readings, bit_readings, consumer_readings, open_readings};
use std::io;

fn main(rt: HostRuntime) -> io::Result<()> {
    bit_readings(&rt)?;
    open_readings(&rt)?;
    append_readings(&rt)?;
    consumer_readings(&rt)?;
    replay::replay(&rt)
}
