// The calls for programs in other languages, which `calls_c` exports, each under its name.
//
// An enum can't cross to another language, so an answer is a struct of numbers: `refused` is document
// 01's number, or 0, and what stands beside a refusal is blank. Each call does what the call of the
// same name in the library's other crates does, and its promise is over the same definition.
#![tactic(auto)]

mod flat;
pub mod frames;
pub mod hosts;
pub mod lines;
pub mod list;
pub mod runs;
