//! Levels of definitions that refer to one another, under their names.

ghost use Rattle.std.specs.Prelude.{OnOk, map};
ghost use Rattle.graphql_cycles.specs.Levels.{AddsLevel};

use graphql_name_tables::places::{Places, add_if_new};
use graphql_nodes::Name;
use std::alloc::AllocError;

/// The level under each name that has one. A definition of a level refers only to such of lower levels, from 0 up: so it leads
/// to no cycle, and no path from it has more references than its level says.
pub(super) type Levels<'schema> = Places<'schema>;

/// How many levels are looked for. A path from a definition that has one of them goes through no more definitions than this,
/// which is what the searches for cycles allow.
pub(super) const LEVELS: usize = 32;

/// Puts names at a level, where they have none. The only error is a failed allocation.
pub(super) fn add_level<'schema>(
    levels: &mut Levels<'schema>,
    names: &[&'schema Name],
    level: usize,
) -> Result<(), AllocError>
    ensures { OnOk result (AddsLevel levels.old levels.new (map (λ name. name.now) names.now) level) }
{
    for name in names {
        add_if_new(levels, name, level)?;
    }
    Ok(())
}
