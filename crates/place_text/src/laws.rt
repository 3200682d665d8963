//! Laws of the definitions that the contracts here name. The functions do nothing.

ghost use Rattle.std.specs.Prelude.{◌≡◌, ◌⊎◌, List, None, Ok, Err};
ghost use Rattle.place_text.specs.Order.{Precedes};
ghost use Rattle.place_text.specs.First.{IsFirst, HasNone, Tells};
ghost use Rattle.place_text.specs.Verdicts.{IsVerdict};

use crate::fault::Fault;
use std::marker::Brand;

/// What a stage judges: which faults it has.
pub trait Judged<F> {
    ghost has: { F → Type 0 };
}

impl<F> Judged<F> for Brand {
    ghost has = { λ fault. ⊥ };
}

/// What a stage makes of what it lets pass.
pub trait Making<T> {
    ghost makes: { T → Type 0 };
}

impl<T> Making<T> for Brand {
    ghost makes = { λ made. ⊥ };
}

/// Of two faults one is told, one that is told before a second one is told before what comes behind that, and two of which
/// neither is later are the same.
pub fn the_order_is_total<F: Fault>()
    ensures either { (fault other : F) → Precedes F.place F.rank fault other ⊎ Precedes F.place F.rank other fault }
    ensures further { (fault middle other : F) → Precedes F.place F.rank fault middle → Precedes F.place F.rank middle other → Precedes F.place F.rank fault other }
    ensures same { (fault other : F) → Precedes F.place F.rank fault other → Precedes F.place F.rank other fault → fault ≡ other }
{}

/// At most one fault is the first.
pub fn one_fault_is_first<F: Fault, J: Judged<F>>()
    ensures { (fault other : F) → IsFirst F.place F.rank J.has fault → IsFirst F.place F.rank J.has other → fault ≡ other }
{}

/// Where a list tells all faults, there is a first one, or there is none.
pub fn told_faults_have_a_first<F: Fault, J: Judged<F>>()
    ensures { (faults : List F) → Tells J.has faults → ((fault : F) × IsFirst F.place F.rank J.has fault) ⊎ HasNone J.has }
{}

/// What is made where there is no fault is a verdict, and so are the first fault and want of memory.
pub fn three_answers_are_verdicts<F: Fault, T, J: Judged<F> + Making<T>>()
    ensures passes { (made : T) → J.makes made → HasNone J.has → IsVerdict F.place F.rank J.has J.makes (Ok made) }
    ensures refuses { (given : F) → IsFirst F.place F.rank J.has given → IsVerdict F.place F.rank J.has J.makes (Err given) }
    ensures memory { (given : F) → F.place given ≡ None → IsVerdict F.place F.rank J.has J.makes (Err given) }
{}
