//! Operations: the widths and the values of their results, and which parameters fit.

use super::telling::expect;
use bit_words::{Kind, Value, from_words};
use prim_ops::{Prim, Width, arity, kind_of, params_fit, value_of, width_of};

/// The width of `dshl` on two UInts.
fn shifted_width(first: u8, second: u8) -> Option<Width> {
    let kinds = [Kind::Unsigned, Kind::Unsigned];
    if arity(Prim::Dshl) != (2, 0) || kind_of(Prim::Dshl, &kinds).is_none() {
        return None;
    }
    let widths = [Width::Bits(first), Width::Bits(second)];
    Some(width_of(Prim::Dshl, &kinds, &widths, &[]))
}

#[test]
fn a_shift_has_a_width(rt: HostRuntime) {
    for (first, second, wanted) in [(1, 7, Width::Bits(128)), (2, 7, Width::Over)] {
        let width = shifted_width(first, second);
        expect(&rt, (first, second), width, Some(wanted));
    }
}

#[test]
fn operations_have_their_values(rt: HostRuntime) {
    let one = from_words(Kind::Unsigned, 4, 1, 0);
    let two = from_words(Kind::Unsigned, 4, 2, 0);
    expect(&rt, "1 - 2", told(difference(one, two)), Some((5, 31)));
    for (case, prim, kind, width, bits, params, wanted) in [
        (
            "-(-8)",
            Prim::Neg,
            Kind::Signed,
            4,
            8,
            [].as_slice(),
            (5, 8),
        ),
        (
            "-5 by 1",
            Prim::Shr,
            Kind::Signed,
            4,
            11,
            [1].as_slice(),
            (3, 5),
        ),
        (
            "15 by 9",
            Prim::Shr,
            Kind::Unsigned,
            4,
            15,
            [9].as_slice(),
            (1, 0),
        ),
        (
            "no bits",
            Prim::Andr,
            Kind::Unsigned,
            0,
            0,
            [].as_slice(),
            (1, 1),
        ),
    ] {
        let value = on_one(prim, from_words(kind, width, bits, 0), params);
        expect(&rt, case, told(value), Some(wanted));
    }
}

/// The width and the bits of a value.
fn told(value: Option<Value>) -> Option<(u8, u128)> {
    let value = value?;
    Some((value.width, value.bits))
}

/// The value of an operation on one operand, where there is one.
fn on_one(prim: Prim, operand: Value, params: &[u128]) -> Option<Value> {
    if params.len() > 2 || arity(prim) != (1, params.len() as u32) {
        return None;
    }
    let kind = kind_of(prim, &[operand.kind])?;
    if !params_fit(prim, &[operand.width], params) {
        return None;
    }
    match width_of(prim, &[operand.kind], &[Width::Bits(operand.width)], params) {
        Width::Bits(width) => Some(value_of(prim, &[operand], params)).filter(|value| value.kind
            == kind
            && value.width == width),
        Width::Over => None,
    }
}

/// The first value less the second.
fn difference(first: Value, second: Value) -> Option<Value> {
    if arity(Prim::Sub) != (2, 0) {
        return None;
    }
    let kinds = [first.kind, second.kind];
    let kind = kind_of(Prim::Sub, &kinds)?;
    let widths = [Width::Bits(first.width), Width::Bits(second.width)];
    match width_of(Prim::Sub, &kinds, &widths, &[]) {
        Width::Bits(width) => Some(value_of(Prim::Sub, &[first, second], &[])).filter(
            |value| value.kind == kind && value.width == width,
        ),
        Width::Over => None,
    }
}

#[test]
fn parameters_have_ranges(rt: HostRuntime) {
    for (width, high, low, answer) in [
        (8, 7, 0, true),
        (8, 8, 0, false),
        (8, 3, 4, false),
        (8, 0, 0, true),
        (0, 0, 0, false),
    ] {
        let fit = params_fit(Prim::Bits, &[width], &[high, low]);
        expect(&rt, (width, high, low), fit, answer);
    }
    let head = params_fit(Prim::Head, &[8], &[8]);
    let tail = params_fit(Prim::Tail, &[8], &[9]);
    let pad = params_fit(Prim::Pad, &[8], &[u128::MAX]);
    expect(&rt, "one parameter", (head, tail, pad), (true, false, true));
}
