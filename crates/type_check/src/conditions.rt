//! The conditions on the expressions of statements. Each is judged where the expressions that it speaks of have types.

ghost use Rattle.std.specs.Prelude.{◌≡◌, ◌++◌, [], OnOk};
ghost use Rattle.type_check.specs.Expressions.{found_of};
ghost use Rattle.type_check.specs.Parts.{unless, where_typed};
ghost use Rattle.type_check.specs.Statements.{expects, connects, clock_faults, condition_faults, reset_faults, init_faults, sink_faults, source_faults, equal_faults};
ghost use Rattle.type_check.specs.Walks.{Walks};

use crate::fault::TypeFault;
use crate::judge::judge;
use crate::texts::{are_equivalent, push_unless};
use crate::walk::Walk;
use crate::whole::{are_equivalent_at, is_passive_at};
use fir_tree::kinds::{is_clock, is_reset, is_unsigned};
use fir_tree::{Expr, Flow, Part};
use fir_types::FirType;
use module_table::Components;
use place_text::Place;
use std::alloc::{AllocError, Global};

/// A clock of a register.
pub fn expect_clock(alloc: Global, walk: &mut Walk<'_>, clock: &Expr) -> Result<(), AllocError>
    ensures { OnOk result (Walks (expects (clock_faults clock.now.place) clock.now) walk.old walk.new) }
{
    if let Some(part) = judge(alloc, &walk.known, &mut walk.found, clock)? {
        let fault = TypeFault::OperandKind(clock.place);
        push_unless(&mut walk.found.faults, is_clock(&part.typ), fault)?;
    }
    Ok(())
}

/// A condition of an arm.
pub fn expect_condition(
    alloc: Global,
    walk: &mut Walk<'_>,
    condition: &Expr,
) -> Result<(), AllocError>
    ensures { OnOk result (Walks (expects (condition_faults condition.now.place) condition.now) walk.old walk.new) }
{
    if let Some(part) = judge(alloc, &walk.known, &mut walk.found, condition)? {
        let fault = TypeFault::ConditionKind(condition.place);
        push_unless(&mut walk.found.faults, is_unsigned(&part.typ), fault)?;
    }
    Ok(())
}

/// A reset of a register.
pub fn expect_reset(alloc: Global, walk: &mut Walk<'_>, reset: &Expr) -> Result<(), AllocError>
    ensures { OnOk result (Walks (expects (reset_faults reset.now.place) reset.now) walk.old walk.new) }
{
    if let Some(part) = judge(alloc, &walk.known, &mut walk.found, reset)? {
        let fault = TypeFault::ConditionKind(reset.place);
        push_unless(&mut walk.found.faults, is_reset(&part.typ), fault)?;
    }
    Ok(())
}

/// The value of a register of this type after a reset.
pub fn expect_init(
    alloc: Global,
    walk: &mut Walk<'_>,
    typ: &FirType,
    init: &Expr,
) -> Result<(), AllocError>
    ensures { OnOk result (Walks (expects (init_faults typ.now init.now.place) init.now) walk.old walk.new) }
{
    if let Some(part) = judge(alloc, &walk.known, &mut walk.found, init)? {
        let fits = are_equivalent(typ, &part.typ);
        let fault = TypeFault::NotEquivalent(init.place);
        push_unless(&mut walk.found.faults, fits, fault)?;
    }
    Ok(())
}

/// What is said to have no value yet: it may be anything.
pub fn invalidate(alloc: Global, walk: &mut Walk<'_>, target: &Expr) -> Result<(), AllocError>
    ensures { OnOk result (Walks (expects (λ part. []) target.now) walk.old walk.new) }
{
    judge(alloc, &walk.known, &mut walk.found, target)?;
    Ok(())
}

/// A connect: the left side may be driven, the right side read, and both have equivalent types.
pub fn connect(
    alloc: Global,
    walk: &mut Walk<'_>,
    left: &Expr,
    right: &Expr,
) -> Result<(), AllocError>
    ensures { OnOk result (Walks (connects left.now right.now) walk.old walk.new) }
{
    let sink = judge(alloc, &walk.known, &mut walk.found, left)?;
    let source = judge(alloc, &walk.known, &mut walk.found, right)?;
    push_sink(&mut walk.found.faults, left.place, &sink)?;
    push_source(&mut walk.found.faults, &walk.known, right, &source)?;
    push_unequal(walk, left, right, &sink, &source)
}

/// Adds a fault where what is driven can only be read.
fn push_sink(faults: &mut Vec<TypeFault>, at: Place, left: &Option<Part>) -> Result<(), AllocError>
    ensures { OnOk result (faults.new.items ≡ faults.old.items ++ where_typed (sink_faults at) left.now) }
{
    if let Some(left) = left {
        let fits = !matches!(left.flow, Flow::Source);
        push_unless(faults, fits, TypeFault::FlowSink(at))?;
    }
    Ok(())
}

/// Adds a fault where what is read can only be driven. A sink without a `flip` can be read.
fn push_source(
    faults: &mut Vec<TypeFault>,
    known: &Components<'_>,
    right: &Expr,
    source: &Option<Part>,
) -> Result<(), AllocError>
    requires { source.now ≡ (found_of known.now.parts right.now).part }
    ensures { OnOk result (faults.new.items ≡ faults.old.items ++ where_typed (source_faults right.now.place) source.now) }
{
    if let Some(part) = source {
        let fits = !matches!(part.flow, Flow::Sink) || is_passive_at(known, right, part);
        push_unless(faults, fits, TypeFault::FlowSource(right.place))?;
    }
    Ok(())
}

/// Adds a fault where the types of both sides are not equivalent.
fn push_unequal(
    walk: &mut Walk<'_>,
    left: &Expr,
    right: &Expr,
    sink: &Option<Part>,
    source: &Option<Part>,
) -> Result<(), AllocError>
    requires sink { sink.now ≡ (found_of walk.old.known.parts left.now).part }
    requires source { source.now ≡ (found_of walk.old.known.parts right.now).part }
    ensures known { OnOk result (walk.new.known ≡ walk.old.known) }
    ensures types { OnOk result (walk.new.found.types.items ≡ walk.old.found.types.items) }
    ensures faults { OnOk result (walk.new.found.faults.items ≡ walk.old.found.faults.items ++ where_typed (λ a. where_typed (equal_faults right.now.place a) source.now) sink.now) }
{
    if let (Some(sink), Some(source)) = (sink, source) {
        let fits = are_equivalent_at(&walk.known, left, right, sink, source);
        let fault = TypeFault::NotEquivalent(right.place);
        push_unless(&mut walk.found.faults, fits, fault)?;
    }
    Ok(())
}
