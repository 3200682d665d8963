//! Whether an AsyncReset may come from anywhere in a circuit.

ghost use Rattle.std.specs.Prelude.{◌≡◌};
ghost use Rattle.std.specs.List.{list_any};
ghost use Rattle.reset_search.specs.Feeds.{is_cast};
ghost use Rattle.reset_search.specs.Sources.{holds_async, field_holds_async, is_a_cast, stmt_source, arm_source, port_source, module_source, has_source};
ghost use Rattle.reset_search.specs.Layers.{memory_holds};

use fir_tree::{Arm, Circuit, Expr, Form, Module, Stmt};
use fir_types::{Field, FirType, MemLine, Port, Shape};
use prim_ops::Prim;

/// Whether an AsyncReset is declared in a circuit, or the source of a node or a connect is an `asAsyncReset`. Takes time in proportion to the
/// circuit, and no memory.
pub fn has_source(circuit: &Circuit) -> bool
    ensures { result ≡ has_source circuit.now }
{
    for holder in circuit.modules.as_slice() {
        if module_source(holder) {
            return true;
        }
    }
    false
}

fn module_source(holder: &Module) -> bool
    ensures { result ≡ module_source holder.now }
{
    ports_source(holder.ports.as_slice()) || any_source(holder.body.as_slice())
}

fn ports_source(ports: &[Port]) -> bool
    ensures { result ≡ list_any port_source ports.now }
{
    for port in ports {
        if holds_async(&port.typ) {
            return true;
        }
    }
    false
}

#[cycle(source)]
fn any_source(statements: &[Stmt]) -> bool
    ensures { result ≡ list_any stmt_source statements.now }
{
    for statement in statements {
        if stmt_source(statement) {
            return true;
        }
    }
    false
}

#[cycle(source)]
fn stmt_source(statement: &Stmt) -> bool
    ensures { result ≡ stmt_source statement.now }
{
    match statement {
        Stmt::Wire(_, typ) => holds_async(typ),
        Stmt::Reg(_, typ, _) => holds_async(typ),
        Stmt::RegReset(_, typ, _, _, _) => holds_async(typ),
        Stmt::Mem(memory) => memory_holds(memory.lines.as_slice()),
        Stmt::Node(_, expr) => is_a_cast(expr),
        Stmt::Connect(left, right) => is_a_cast(left) || is_a_cast(right),
        Stmt::When(arms, other) => any_arm_source(arms.as_slice()) || any_source(other.as_slice()),
        Stmt::Inst(_, _) | Stmt::Invalidate(_) | Stmt::Skip(_) => false,
    }
}

#[cycle(source)]
fn any_arm_source(arms: &[Arm]) -> bool
    ensures { result ≡ list_any arm_source arms.now }
{
    for arm in arms {
        if any_source(arm.body.as_slice()) {
            return true;
        }
    }
    false
}

/// Whether an AsyncReset stands in the type of a memory's elements.
fn memory_holds(lines: &[MemLine]) -> bool
    ensures { result ≡ memory_holds lines.now }
{
    for line in lines {
        if let MemLine::Element(_, typ) = line {
            return holds_async(typ);
        }
    }
    false
}

/// Whether an expression is an `asAsyncReset`, or a choice with one.
#[cycle(cast)]
fn is_a_cast(expr: &Expr) -> bool
    ensures { result ≡ is_a_cast expr.now }
{
    match &expr.form {
        Form::Ref(_, _) | Form::Literal(_, _, _) => false,
        Form::Prim(prim, _, _) => is_cast(*prim),
        Form::Mux(operands) => any_cast(operands.as_slice()),
    }
}

#[cycle(cast)]
fn any_cast(operands: &[Expr]) -> bool
    ensures { result ≡ list_any is_a_cast operands.now }
{
    for operand in operands {
        if is_a_cast(operand) {
            return true;
        }
    }
    false
}

/// Whether an operation is `asAsyncReset`.
pub fn is_cast(prim: Prim) -> bool
    ensures { result ≡ is_cast prim }
{
    matches!(prim, Prim::AsAsyncReset)
}

/// Whether an AsyncReset stands in the text of a type. Takes no memory.
#[cycle(holds)]
fn holds_async(typ: &FirType) -> bool
    ensures { result ≡ holds_async typ.now }
{
    let mut inside = typ;
    loop {
        match &inside.shape {
            Shape::Unsigned(_) | Shape::Signed(_) | Shape::Clock | Shape::Reset => return false,
            Shape::AsyncReset => return true,
            Shape::Bundle(fields) => return any_holds(fields.as_slice()),
            Shape::Vector(element, _) => inside = element.get(),
        }
    }
}

#[cycle(holds)]
fn any_holds(fields: &[Field]) -> bool
    ensures { result ≡ list_any field_holds_async fields.now }
{
    for field in fields {
        if holds_async(&field.typ) {
            return true;
        }
    }
    false
}
