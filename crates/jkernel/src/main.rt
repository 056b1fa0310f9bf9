//! `jkernel`: a Jupyter kernel of shell arithmetic. It serves the ports of a connection file, replays one peer of the
//! shell channel, or prints the kernelspec, as its command words order.
#![tactic(auto)]

mod arithmetic;
mod laws;

use arithmetic::Arithmetic;
use kernel_program::start;
use std::process::ExitCode;

/// Starts the program of shell arithmetic.
fn main(rt: HostRuntime) -> ExitCode {
    laws::law_kernel_is_of_arithmetic(&Arithmetic);
    start(&rt, rt.process(), &mut rt.stderr(), &Arithmetic)
}
