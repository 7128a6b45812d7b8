// Runs the zkIR program on standard input in the deferred mode, and prints how it stopped and the registers that are not zero.
#![tactic(auto)]

use execute::Mode;
use std::io;

fn main(rt: HostRuntime) -> io::Result<()> {
    console::run_program(&rt, Mode::Deferred)
}
