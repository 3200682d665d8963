//! Places in order.

ghost use Rattle.std.specs.Prelude.{◌≡◌, ◌+◌, ◌++◌, IfOk, OnOk};
ghost use Rattle.fir_types.specs.Spots.{size};
ghost use Rattle.reset_search.specs.Feeds.{declared_from, node_from, where_async, asyncs_among, between, pairs, fed_by};

use bit_words::List;
use fir_types::{FirType, size};
use reset_search::{Feed, Ground, Spot, Word};
use std::alloc::{AllocError, Global};

/// What the places and the feeds of a circuit may take, in units of 8 bytes; more is a want of memory. A place of a component is one unit, and
/// a feed two.
pub const MOST_UNITS: usize = 32_000_000;

/// The greatest number of a place; more places are a want of memory.
const MOST_PLACES: usize = 16_000_000;

/// What is left of some units. More than there are are a want of memory.
pub fn spend(left: &mut usize, units: usize) -> Result<(), AllocError> {
    match left.checked_sub(units) {
        Some(rest) => {
            *left = rest;
            Ok(())
        }
        None => Err(AllocError),
    }
}

/// How many ground places a type has. More than may be are a want of memory.
pub fn places_of(typ: &FirType) -> Result<usize, AllocError>
    ensures { IfOk result (λ count. count ≡ size typ.now) }
{
    let count = size(typ);
    if count > MOST_PLACES {
        return Err(AllocError);
    }
    Ok(count)
}

/// Adds so many places of the text from a number on, and takes the number behind them.
pub fn push_declared(
    spots: &mut List<Spot>,
    next: &mut usize,
    count: usize,
) -> Result<(), AllocError>
    ensures spots { OnOk result (spots.new ≡ spots.old ++ declared_from next.old count) }
    ensures next { OnOk result (next.new ≡ next.old + count) }
{
    let Some(end) = next.checked_add(count) else {
        return Err(AllocError);
    };
    if end > MOST_PLACES {
        return Err(AllocError);
    }
    let first = *next;
    for offset in 0..count {
        spots.push(Spot::Declared((first + offset) as u32))?;
    }
    *next = end;
    Ok(())
}

/// The same of places of nodes.
pub fn push_nodes(spots: &mut List<Spot>, next: &mut usize, count: usize) -> Result<(), AllocError>
    ensures spots { OnOk result (spots.new ≡ spots.old ++ node_from next.old count) }
    ensures next { OnOk result (next.new ≡ next.old + count) }
{
    let Some(end) = next.checked_add(count) else {
        return Err(AllocError);
    };
    if end > MOST_PLACES {
        return Err(AllocError);
    }
    let first = *next;
    for offset in 0..count {
        spots.push(Spot::OfNode((first + offset) as u32))?;
    }
    *next = end;
    Ok(())
}

/// Adds places.
pub fn push_spots(spots: &mut List<Spot>, more: &[Spot]) -> Result<(), AllocError>
    ensures { OnOk result (spots.new ≡ spots.old ++ more.now) }
{
    for spot in more {
        spots.push(*spot)?;
    }
    Ok(())
}

/// Adds those of some places that the text calls AsyncReset.
pub fn push_asyncs(
    asyncs: &mut List<Spot>,
    grounds: &[Ground],
    spots: &[Spot],
) -> Result<(), AllocError>
    ensures { OnOk result (asyncs.new ≡ asyncs.old ++ asyncs_among grounds.now spots.now) }
{
    let mut rest = spots;
    for ground in grounds {
        let Some((spot, more)) = rest.split_first() else {
            return Ok(());
        };
        push_async(asyncs, ground.word, *spot)?;
        rest = more;
    }
    Ok(())
}

fn push_async(asyncs: &mut List<Spot>, word: Word, spot: Spot) -> Result<(), AllocError>
    ensures { OnOk result (asyncs.new ≡ asyncs.old ++ where_async word spot) }
{
    match word {
        Word::OfAsync => asyncs.push(spot),
        Word::OfUint | Word::OfSint | Word::OfReset => Ok(()),
    }
}

/// Adds the feeds between the leaves of two sides.
pub fn push_pairs(
    feeds: &mut List<Feed>,
    grounds: &[Ground],
    left: &[Spot],
    right: &[Spot],
) -> Result<(), AllocError>
    ensures { OnOk result (feeds.new ≡ feeds.old ++ pairs grounds.now left.now right.now) }
{
    let mut lefts = left;
    let mut rights = right;
    for ground in grounds {
        let Some((one, ones)) = lefts.split_first() else {
            return Ok(());
        };
        let Some((other, others)) = rights.split_first() else {
            return Ok(());
        };
        push_between(feeds, *ground, *one, *other)?;
        lefts = ones;
        rights = others;
    }
    Ok(())
}

/// Adds the feed of a pair of leaves: from right to left, and where they are flipped from left to right.
fn push_between(
    feeds: &mut List<Feed>,
    ground: Ground,
    left: Spot,
    right: Spot,
) -> Result<(), AllocError>
    ensures { OnOk result (feeds.new ≡ feeds.old ++ between ground left right) }
{
    if !ground.leaf {
        return Ok(());
    }
    let (from, to) = if ground.flip {
        (left, right)
    } else {
        (right, left)
    };
    feeds.push(Feed { from, to })
}

/// Adds the feeds from some places to others, one beside another.
pub fn push_fed(feeds: &mut List<Feed>, sources: &[Spot], owns: &[Spot]) -> Result<(), AllocError>
    ensures { OnOk result (feeds.new ≡ feeds.old ++ fed_by sources.now owns.now) }
{
    let mut rest = owns;
    for source in sources {
        let Some((own, more)) = rest.split_first() else {
            return Ok(());
        };
        feeds.push(Feed {
            from: *source,
            to: *own,
        })?;
        rest = more;
    }
    Ok(())
}
