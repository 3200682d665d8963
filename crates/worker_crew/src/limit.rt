//! A bound on threads.

/// How many threads an epoch starts beside the caller's at most. Without a bound there is one for each worker.
///
/// What runs circuits has no bound. Tests set one, since a thread that is never refused shows nothing of what the caller then does.
#[derive(Clone, Copy, Debug)]
pub struct ThreadLimit {
    most: usize,
}

impl ThreadLimit {
    /// No bound.
    pub fn none() -> ThreadLimit {
        ThreadLimit { most: usize::MAX }
    }

    /// At most so many threads.
    pub fn at_most(threads: usize) -> ThreadLimit {
        ThreadLimit { most: threads }
    }

    /// The greatest number of threads.
    pub(crate) fn most(self) -> usize {
        self.most
    }
}
