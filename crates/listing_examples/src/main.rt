//! Reads listings, whole, damaged, and at each limit, and tells what is found; then compiles each example and reads its
//! listing back.
#![tactic(auto)]

mod compiled;
mod damaged;
mod limits;
mod told;

use std::io;

fn main(rt: HostRuntime) -> io::Result<()> {
    damaged::tell(&rt)?;
    limits::tell(&rt)?;
    compiled::tell(&rt)
}
