//! Trials of how problems are read and what they mean, each crate by itself, with ample memory.
#![tactic(auto)]

#[cfg(test)]
mod forms;
#[cfg(test)]
mod grammar;
#[cfg(test)]
mod lexer;
#[cfg(test)]
mod listed;
#[cfg(test)]
mod meaning;
#[cfg(test)]
mod outside;
#[cfg(test)]
mod problems;
#[cfg(test)]
mod reader;
#[cfg(test)]
mod stutter;
