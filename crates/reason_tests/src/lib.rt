//! Tests of the public calls of the crates of reasons that no command reaches. What the commands
//! reach is tested on the built program.
#![tactic(auto)]

#[cfg(test)]
mod ahead;
#[cfg(test)]
mod answers;
#[cfg(test)]
mod texts;
