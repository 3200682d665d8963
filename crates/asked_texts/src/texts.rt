//! The faults of texts as a whole, and the two texts that a joined one holds.

ghost use Rattle.std.specs.Prelude.{◌≡◌, ℕ, List, ◌≤◌, length, drop, take, IfSome, IfNone, ◌≢◌, slice_get, Some};
ghost use Rattle.asked_texts.specs.Texts.{IsStimulusLine, IsSplit, HasNone, EndsFirst, whole_name};

/// What is wrong with a circuit's, a stimulus's or a state's text as a whole, or with the words that name its leaves.
#[derive(Clone, Copy, Debug)]
pub enum WholeFault {
    /// The text has more bytes than its limit.
    TooLong,
    /// The joined text has no line `%stimulus`, and a run needs one.
    NoStimulus,
    /// A word names no leaf of the circuit other than a clock.
    WatchUnknown,
}

impl WholeFault {
    /// The fault's name, as its line has it.
    pub fn name(self) -> &'static str
        ensures { result.now ≡ whole_name self }
    {
        match self {
            WholeFault::TooLong => "TooLong",
            WholeFault::NoStimulus => "NoStimulus",
            WholeFault::WatchUnknown => "WatchUnknown",
        }
    }
}

/// The text before the first line that is exactly `%stimulus`, and the text behind that line.
pub fn split(text: &[u8]) -> Option<(&[u8], &[u8])>
    ensures some { IfSome result (λ r. IsSplit text.now r.0.now r.1.now) }
    ensures none { IfNone result (HasNone text.now) }
{
    let mut start = 0;
    'lines: while start < text.len() {
        let rest = &text[start..];
        if let Some(length) = stimulus_line(rest) {
            return Some((&text[..start], &rest[length..]));
        }
        match first_line(rest) {
            Some(length) => start += length,
            None => return None,
        }
    }
    None
}

/// How long the line `%stimulus` is, with its end, where the bytes begin with it.
fn stimulus_line(bytes: &[u8]) -> Option<usize>
    ensures some { IfSome result (λ n. (n ≤ length bytes.now) × IsStimulusLine bytes.now (drop n bytes.now)) }
    ensures none { IfNone result ((after : List ℕ) → IsStimulusLine bytes.now after → ⊥) }
{
    if bytes.starts_with(b"%stimulus\n") {
        Some(10)
    } else if bytes.starts_with(b"%stimulus\r\n") {
        Some(11)
    } else if bytes == b"%stimulus".as_slice() {
        Some(9)
    } else {
        None
    }
}

/// How long the first line is, with its line feed.
fn first_line(bytes: &[u8]) -> Option<usize>
    ensures some { IfSome result (λ n. EndsFirst bytes.now n) }
    ensures none { IfNone result ((k : ℕ) → slice_get bytes.now k ≢ Some 10) }
{
    let feed = bytes.iter().position(|byte| *byte == b'\n')?;
    Some(feed + 1)
}
