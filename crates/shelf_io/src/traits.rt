//! The traits of the outside.

ghost use Rattle.std.specs.Prelude.{◌≡◌, ℕ, ◌<◌, ◌≤◌, Bool, true, false, List, Option, length, take, IfOk, OnOk, OnErr};
ghost use Rattle.shelf_io.specs.Outside.{Rose, Texts, OpensText, Takes, Appends};

/// An open or a read that failed.
#[derive(Clone, Copy, Debug, PartialEq, Eq)]
pub struct ShelfFailed;

/// A write that failed.
#[derive(Clone, Copy, Debug, PartialEq, Eq)]
pub struct SinkFailed;

/// Where texts are read by name: one text is open at a time, and is read from its front to its end.
pub trait Shelf {
    /// What each name holds, where the shelf tells it. No call changes it.
    ghost held: { Self → Texts };

    /// What is left of the open text, where the shelf tells it.
    ghost left: { Self → Option (List ℕ) };

    /// Whether a text is open under the name.
    ghost is_open: { Self → List ℕ → Bool };

    /// The count of faults of the name, which never falls and ends at the last u64. Of the counts of the names that a call
    /// has nothing to do with no more is known.
    ghost faults: { Self → List ℕ → ℕ };

    /// Makes the named text the open one, with all of it left. A name that holds no text fails, where the shelf tells its
    /// texts. After a failure no text is open under any name.
    fn open(&mut self, name: &str) -> Result<(), ShelfFailed>
        ensures opened { OnOk result (is_open self.new name.now ≡ true) }
        ensures whole { OnOk result (OpensText (held self.old) name.now (left self.new)) }
        ensures closed { OnErr result ((n : List ℕ) → is_open self.new n ≡ false) }
        ensures rose { OnErr result (Rose (faults self.old name.now) (faults self.new name.now)) }
        ensures holds { held self.new ≡ held self.old }
        ensures never_falls { (n : List ℕ) → faults self.old n ≤ faults self.new n };

    /// Reads the next bytes of the open text into the front of `buf`, and gives how many. The answer 0 means that nothing is
    /// left. A failure leaves what is left as it was.
    fn read(&mut self, buf: &mut [u8]) -> Result<usize, ShelfFailed>
        requires open { (name : List ℕ) × (is_open self.old name ≡ true) }
        requires room { 0 < length buf.old }
        ensures within { IfOk result (λ n. n ≤ length buf.old) }
        ensures taken { IfOk result (λ n. Takes (left self.old) (left self.new) (take n buf.new) n) }
        ensures unread { OnErr result (left self.new ≡ left self.old) }
        ensures rose { OnErr result ((name : List ℕ) → is_open self.old name ≡ true → Rose (faults self.old name) (faults self.new name)) }
        ensures stays { (name : List ℕ) → is_open self.new name ≡ is_open self.old name }
        ensures holds { held self.new ≡ held self.old }
        ensures never_falls { (n : List ℕ) → faults self.old n ≤ faults self.new n };
}

/// Where bytes are written.
pub trait Sink {
    /// What was written, where the sink tells it.
    ghost written: { Self → Option (List ℕ) };

    /// The count of faults, which never falls and ends at the last u64.
    ghost faults: { Self → ℕ };

    /// Appends some bytes from the front of `bytes`, and gives how many: at least 1. A sink that takes nothing fails, and a
    /// failure appends nothing.
    fn write(&mut self, bytes: &[u8]) -> Result<usize, SinkFailed>
        requires { 0 < length bytes.now }
        ensures within { IfOk result (λ n. (0 < n) × (n ≤ length bytes.now)) }
        ensures appended { IfOk result (λ n. Appends (written self.old) (written self.new) (take n bytes.now)) }
        ensures unwritten { OnErr result (written self.new ≡ written self.old) }
        ensures rose { OnErr result (Rose (faults self.old) (faults self.new)) }
        ensures no_fault { OnOk result (faults self.new ≡ faults self.old) }
        ensures never_falls { faults self.old ≤ faults self.new };
}

/// Writes all of the bytes, or where a write fails a prefix of them. Takes no memory of its own.
pub fn put_all<K: Sink>(sink: &mut K, bytes: &[u8]) -> Result<(), SinkFailed>
    ensures all { OnOk result (Appends (K.written sink.old) (K.written sink.new) bytes.now) }
    ensures prefix { OnErr result ((n : ℕ) × Appends (K.written sink.old) (K.written sink.new) (take n bytes.now)) }
    ensures rose { OnErr result (Rose (K.faults sink.old) (K.faults sink.new)) }
    ensures no_fault { OnOk result (K.faults sink.new ≡ K.faults sink.old) }
    ensures never_falls { K.faults sink.old ≤ K.faults sink.new }
{
    let mut done = 0;
    while done < bytes.len() {
        done += sink.write(&bytes[done..])?;
    }
    Ok(())
}
