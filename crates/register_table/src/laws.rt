//! Which step of the core each call makes, as laws. No program needs to call them.

ghost use Rattle.register_table.specs.Laws.{OpensAsBegin, SharesAsSplit, LooksAsStay, LooksAsPass, ArrivesAsArrive, ReadsAsLoad, PublishesAsPublish, UnitesAsJoin, FinishesAsClose, StaysSound};

/// What each call does to the words of the table and to the views of its posts is one step of the core: `share` splits,
/// a load of the barrier in `pass` stays or passes, `arrive` arrives, `read` loads, `publish` publishes, `unite` joins
/// and `finish` closes. `open` gives the state at the beginning.
pub fn calls_are_steps()
    ensures opens { OpensAsBegin }
    ensures shares { SharesAsSplit }
    ensures stays { LooksAsStay }
    ensures passes { LooksAsPass }
    ensures arrives { ArrivesAsArrive }
    ensures reads { ReadsAsLoad }
    ensures publishes { PublishesAsPublish }
    ensures unites { UnitesAsJoin }
    ensures finishes { FinishesAsClose }
    ensures sound { StaysSound }
{}
