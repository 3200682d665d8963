//! The cases, a module for each subject.

mod arranging;
mod codes;
mod sharing;
mod steps;
mod telling;
mod words;
