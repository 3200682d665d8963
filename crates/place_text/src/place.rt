//! Places as a reader of a text counts them.

ghost use Rattle.std.specs.Prelude.{◌≡◌, ◌<◌, ◌≤◌, ◌-◌, ◌^◌, length, count_by, not};
ghost use Rattle.std.specs.List.{suffix_len};
ghost use Rattle.place_text.specs.Places.{is_feed, place};

/// A place in a text: its line and its column in bytes, both from 1.
#[derive(Clone, Copy, Debug, PartialEq, Eq)]
pub struct Place {
    pub line: u32,
    pub column: u32,
}

/// Which of the texts of a run a fault stands in.
#[derive(Clone, Copy)]
pub enum TextPart {
    Circuit,
    Stimulus,
    /// The state that a run goes on from.
    State,
}

/// The place of an offset in bytes from 0, which may be the text's end. A line ends in a line feed, which belongs to it.
/// Takes no memory.
#[tactic(auto, unfolding(crate::specs::Places::place))]
pub fn place_of(bytes: &[u8], offset: usize) -> Place
    requires within { offset ≤ length bytes.now }
    requires short { length bytes.now < 2 ^ 32 - 1 }
    ensures { result ≡ place bytes.now offset }
{
    let before = &bytes[..offset];
    Place {
        line: feeds(before) as u32 + 1,
        column: since_feed(before) as u32 + 1,
    }
}

/// The number of line feeds.
fn feeds(bytes: &[u8]) -> usize
    ensures count { result ≡ count_by is_feed bytes.now }
    ensures within { result ≤ length bytes.now }
{
    bytes.iter().filter(|byte| **byte == b'\n').count()
}

/// The number of bytes behind the last line feed.
fn since_feed(bytes: &[u8]) -> usize
    ensures count { result ≡ suffix_len (λ byte. not (is_feed byte)) bytes.now }
    ensures within { result ≤ length bytes.now }
{
    bytes
        .iter()
        .rev()
        .take_while(|byte| **byte != b'\n')
        .count()
}
