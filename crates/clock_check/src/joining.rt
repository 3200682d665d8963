//! The links of modules at their paths, for the search.

ghost use Rattle.std.specs.Prelude.{◌≡◌, ◌||◌, OnOk};
ghost use Rattle.std.specs.List.{list_any};
ghost use Rattle.fir_meaning.specs.Components.{FlatLeaf};
ghost use Rattle.clock_check.specs.Flats.{is_within};
ghost use Rattle.clock_check.specs.Searched.{sinks_at};
ghost use Rattle.clock_check.specs.Joins.{joins};

use crate::flat_key::flat_key;
use crate::search::FlatSinks;
use crate::walk::Link;
use indexmap::IndexMap;
use std::alloc::{AllocError, Global};

/// Adds the links of the module at a path, where these are the module's instances, each with its module.
pub fn add_links(
    alloc: Global,
    sinks: &mut FlatSinks,
    targets: &IndexMap<u32, u32>,
    path: &[u32],
    links: &[Link],
) -> Result<(), AllocError>
    ensures { OnOk result ((x y : FlatLeaf) → is_within (sinks_at sinks.new.sinks.entries y) x ≡ (is_within (sinks_at sinks.old.sinks.entries y) x || list_any (joins targets.now.entries path.now x y) links.now)) }
{
    for link in links {
        add_link(alloc, sinks, targets, path, link)?;
    }
    Ok(())
}

fn add_link(
    alloc: Global,
    sinks: &mut FlatSinks,
    targets: &IndexMap<u32, u32>,
    path: &[u32],
    link: &Link,
) -> Result<(), AllocError>
    ensures { OnOk result ((x y : FlatLeaf) → is_within (sinks_at sinks.new.sinks.entries y) x ≡ (is_within (sinks_at sinks.old.sinks.entries y) x || joins targets.now.entries path.now x y link.now)) }
{
    let sink = flat_key(alloc, targets, path, &link.sink)?;
    let source = flat_key(alloc, targets, path, &link.source)?;
    sinks.add(alloc, source, sink)
}
