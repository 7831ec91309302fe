//! Trials of the command line and of its parts.
#![tactic(auto)]

#[cfg(test)]
mod models_runs;
#[cfg(test)]
mod prove_runs;
#[cfg(test)]
mod reports;
#[cfg(test)]
mod running;
#[cfg(test)]
mod runs;
#[cfg(test)]
mod samples;
#[cfg(test)]
mod words;
