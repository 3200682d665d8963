//! What every list of steps keeps, and what it gives to a worker that loads a word, as laws. No program needs to call
//! them.

ghost use Rattle.phase_core.specs.Laws.{StaysSound, LoadsTheCycle, EndsWithTheLast};

/// Whatever the steps are, a sound state stays sound.
pub fn stays_sound()
    ensures { StaysSound }
{}

/// In a sound state, a view that arrived and passed `2 * c` times finds in each word its value of cycle c.
pub fn loads_the_cycle()
    ensures { LoadsTheCycle }
{}

/// In a sound state, where a view of all workers has passed `2 * cycles` times, the words are those behind the last cycle.
pub fn ends_with_the_last()
    ensures { EndsWithTheLast }
{}
