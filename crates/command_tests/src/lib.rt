//! Tests of the public calls of `command_line`, with devices that fail and bytes that are no text. What a command
//! prints is tested on the built program (`golden/`, `examples/`).
//!
//! The crate has only tests, so that the library is proved without them.
#![tactic(auto)]

#[cfg(test)]
mod answers;
#[cfg(test)]
mod devices;
#[cfg(test)]
mod no_text;
