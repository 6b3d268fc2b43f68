//! The judge for programs in C, and for each language that calls C.
//!
//! Each function takes texts as bytes, returns the exit status of the program's command, and writes
//! the lines of the command into the caller's buffer. None starts a thread, waits, or keeps
//! anything after it returned. `include/fcbench.h` declares them.
#![tactic(auto)]

mod answer;
mod check;
mod refute;
mod steps;
mod verify;
