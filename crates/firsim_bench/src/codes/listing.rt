//! The listing of a code.

use flat_code::{Code, Form, Instr, Location, Op, Port, Wide};

/// Writes the numbers of a code's slots, shared words, ports, wide values and instructions, and then each of these three.
pub fn list(rt: &HostRuntime, code: &Code) -> Option<()> {
    let (slots, words) = (code.slots, code.words);
    let (ports, wides) = (code.ports.len(), code.wides.len());
    println!(rt; "{slots} {words} {ports} {wides} {}", code.instrs.len()).ok()?;
    for port in code.ports.as_slice() {
        list_port(rt, port)?;
    }
    for wide in code.wides.as_slice() {
        list_wide(rt, wide)?;
    }
    for instr in code.instrs.as_slice() {
        list_instr(rt, instr)?;
    }
    Some(())
}

/// A region, an address, a source and conditions.
fn list_port(rt: &HostRuntime, port: &Port) -> Option<()> {
    let region = port.region;
    println!(rt;
        "{} {} {} {}",
        region.base,
        region.stride,
        region.depth,
        port.conditions.len()
    )
    .ok()?;
    list_location(rt, port.address)?;
    list_location(rt, port.source)?;
    list_locations(rt, port.conditions.as_slice())
}

/// A form, a target and operands.
fn list_wide(rt: &HostRuntime, wide: &Wide) -> Option<()> {
    let form = form_number(&wide.form);
    println!(rt; "{form} {}", wide.operands.len()).ok()?;
    list_location(rt, wide.target)?;
    list_locations(rt, wide.operands.as_slice())
}

/// Values.
fn list_locations(rt: &HostRuntime, locations: &[Location]) -> Option<()> {
    for location in locations {
        list_location(rt, *location)?;
    }
    Some(())
}

/// A value's width and slots.
fn list_location(rt: &HostRuntime, location: Location) -> Option<()> {
    println!(rt; "{} {} {}", location.width, location.low, location.high).ok()
}

/// An instruction.
fn list_instr(rt: &HostRuntime, instr: &Instr) -> Option<()> {
    let op = op_number(instr.op);
    let (first, second, third) = (instr.first, instr.second, instr.third);
    let (shift, target, mask) = (instr.shift, instr.target, instr.mask);
    println!(rt; "{op} {shift} {first} {second} {third} {target} {mask}").ok()
}

/// The number of an operation.
fn op_number(op: Op) -> u32 {
    match op {
        Op::Constant => 0,
        Op::Load => 1,
        Op::LoadAt => 2,
        Op::Input => 3,
        Op::InputHigh => 4,
        Op::Keep => 5,
        Op::Add => 6,
        Op::Sub => 7,
        Op::And => 8,
        Op::Or => 9,
        Op::Xor => 10,
        Op::Not => 11,
        Op::Equal => 12,
        Op::Less => 13,
        Op::Mux => 14,
        Op::Right => 15,
        Op::Join => 16,
        Op::Extend => 17,
        Op::Publish => 18,
        Op::PublishAt => 19,
        Op::Wide => 20,
        Op::Mul => 21,
        Op::Quotient => 22,
        Op::Remainder => 23,
        Op::IsMask => 24,
        Op::Below => 25,
        Op::Parity => 26,
        Op::RightBy => 27,
        Op::RightSigned => 28,
        Op::Left => 29,
        Op::LeftBy => 30,
    }
}

/// The number of a form.
fn form_number(form: &Form) -> u32 {
    match form {
        Form::Apply(..) => 0,
        Form::Choose => 1,
        Form::Select => 2,
        Form::Load(_) => 3,
        Form::Fit => 4,
        Form::Gate => 5,
        Form::Pick(_) => 6,
    }
}
