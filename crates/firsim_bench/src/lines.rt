//! The words of a line that asks for a timing.

use std::env;
use std::str::{FromStr, SplitWhitespace};

/// The words of a line that are not read yet.
#[derive(Drop)]
pub struct Words<'a> {
    left: SplitWhitespace<'a>,
}

impl<'a> Words<'a> {
    /// The words of a line.
    pub fn of(line: &'a str) -> Words<'a> {
        Words {
            left: line.split_whitespace(),
        }
    }

    /// Reads a word.
    pub fn word(&mut self) -> Option<&'a str> {
        self.left.next()
    }

    /// Reads a number.
    pub fn number<N: FromStr>(&mut self) -> Option<N>
    where
        N::Err: Drop,
    {
        self.word()?.parse().ok()
    }
}

/// The words of the command line behind the program's name, with a blank behind each.
pub fn line_of(rt: &HostRuntime) -> Option<String> {
    let mut words = env::args(rt).ok()?;
    words.next()?;
    let mut line = String::new(rt.alloc());
    for word in words {
        line.push_str(word.as_str()).ok()?;
        line.push_str(" ").ok()?;
    }
    Some(line)
}
