//! The cases, a module for each subject.

mod expanding;
mod nets;
mod orders;
mod placing;
mod stimuli;
mod telling;
