//! Trials of the parts of the search, over problems that are read.
#![tactic(auto)]

#[cfg(test)]
mod boards;
#[cfg(test)]
mod branches;
#[cfg(test)]
mod claims;
#[cfg(test)]
mod documents;
#[cfg(test)]
mod few_matches;
#[cfg(test)]
mod finished_boards;
#[cfg(test)]
mod lemmas;
#[cfg(test)]
mod lists;
#[cfg(test)]
mod literals;
#[cfg(test)]
mod many_matches;
#[cfg(test)]
mod matching;
#[cfg(test)]
mod new_boards;
#[cfg(test)]
mod sets;
#[cfg(test)]
mod smaller_sets;
#[cfg(test)]
mod splits;
