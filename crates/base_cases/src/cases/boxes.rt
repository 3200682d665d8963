//! Lists and boxes that contracts see as what they hold, and the decimal text of a value.

use super::telling::expect;
use bit_words::{Boxed, Kind, List, Shared, SharedList, Value, from_words, push_decimal};
use std::test::Fail;

#[test]
fn lists_and_boxes(rt: HostRuntime) -> Result<(), Fail> {
    let mut row: List<Value> = List::new(rt.alloc());
    expect(&rt, "an empty list", row.is_empty(), true);
    row.push(from_words(Kind::Unsigned, 8, 200, 0))?;
    let first = row.get(0).map(|value| value.bits);
    expect(&rt, "a list of one", (row.len(), first), (1, Some(200)));
    expect(&rt, "past the end", row.get(1).is_none(), true);
    let again = List::from_vec(row.into_vec());
    expect(&rt, "the same list", again.as_slice().len(), 1);
    let mut copied: List<u32> = List::from_slice(rt.alloc(), &[3, 4])?;
    copied.set(1, 9);
    expect(&rt, "a set item", copied.as_slice(), &[3, 9]);
    let boxed = Boxed::new(rt.alloc(), 7_u32)?;
    expect(&rt, "a box", *boxed.get(), 7);
    Ok(())
}

#[test]
fn one_value_has_several_owners(rt: HostRuntime) -> Result<(), Fail> {
    let list: List<u32> = List::from_slice(rt.alloc(), &[3, 4])?;
    let shared: SharedList<u32> = Shared::new(rt.alloc(), list)?;
    let again = shared.share()?;
    expect(&rt, "the first owner", shared.as_slice(), &[3, 4]);
    expect(&rt, "the second owner", again.get().as_slice(), &[3, 4]);
    expect(&rt, "its list", (again.len(), again.is_empty()), (2, false));
    Ok(())
}

#[test]
fn a_value_has_a_decimal_text(rt: HostRuntime) -> Result<(), Fail> {
    let mut out = Vec::from_slice(rt.alloc(), b"= ")?;
    push_decimal(&mut out, from_words(Kind::Signed, 64, 1 << 63, 0))?;
    let wanted = "= -9223372036854775808";
    expect(
        &rt,
        "the least of 64 bits",
        out.as_slice(),
        wanted.as_bytes(),
    );
    Ok(())
}
