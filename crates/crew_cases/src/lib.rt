//! Cases of the top call, over shelves and sinks that fail at each of their calls, and of runs by workers in threads: short circuits whose traces
//! are written by hand, whatever threads are there, and frames that stay short; and single calls that the program doesn't make.
#![tactic(auto)]

#[cfg(test)]
mod calls;
#[cfg(test)]
mod circuits;
#[cfg(test)]
mod failures;
#[cfg(test)]
mod frames;
#[cfg(test)]
mod gates;
#[cfg(test)]
mod meeting;
#[cfg(test)]
mod programs;
#[cfg(test)]
mod reading;
#[cfg(test)]
mod runs;
