// Runs document 01's pairs at each edge that are not proved, and their neighbours: a line for each, what was asked and what was answered.
#![tactic(auto)]

use room::ceilings::SIZE;
use std::io;

mod asks;
mod cases;
mod lists;

fn main(rt: HostRuntime) -> io::Result<()> {
    let out = rt.stdout();
    cases::rooms(&out)?;
    let mut room = [0u8; SIZE];
    cases::ids(&out, &mut room)?;
    cases::long_keys(&out, &mut room)?;
    cases::long_bounds(&out, &mut room)?;
    cases::active(&out, &mut room)?;
    cases::marks(&out, &mut room)?;
    cases::key_bytes(&out, &mut room)?;
    cases::entries(&out, &mut room)
}
