//! Tests of the public calls but those with threads, from outside: each is called with ample memory, and its whole answer is compared.
#![tactic(auto)]

#[cfg(test)]
mod descriptions;
#[cfg(test)]
mod drawing;
#[cfg(test)]
mod expanding;
#[cfg(test)]
mod games;
#[cfg(test)]
mod level_texts;
#[cfg(test)]
mod levels;
#[cfg(test)]
mod matching;
#[cfg(test)]
mod one_cell;
#[cfg(test)]
mod open_sessions;
#[cfg(test)]
mod packed_lines;
#[cfg(test)]
mod playing;
#[cfg(test)]
mod recorded_levels;
#[cfg(test)]
mod resting;
#[cfg(test)]
mod running;
#[cfg(test)]
mod sample;
#[cfg(test)]
mod searching;
#[cfg(test)]
mod small_games;
#[cfg(test)]
mod solving;
#[cfg(test)]
mod source_faults;
#[cfg(test)]
mod stepping;
#[cfg(test)]
mod writing;
