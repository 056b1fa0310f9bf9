//! What no case tells: numbers and words of faults, the end of numbers, devices that fail or give
//! little at a time, and whole lines of sessions.

mod fault;
mod lines;
mod pieces;
mod worn;
mod written;
