// All instances of a card placed on engines of two kinds (request 2026-13): the split between the kinds that uses the fewest engines, and each kind's
// part of it by that kind's own table.
#![tactic(auto)]

ghost use Rattle.std.specs.Prelude.{◌≡◌};
ghost use Rattle.partition.specs.Lent.{lent};
ghost use Rattle.table.specs.Table.{filled_to};
ghost use Rattle.kinds.specs.Mixing.{mixed_placement, MayMix};
ghost use Rattle.kinds.specs.Inner.{BothShow};

use kinds::Mixed;
use system::{COLUMN_LIMIT, System};

mod joining;
mod split;

// The placement by the tables of both kinds: the load of the best column goes to the first kind, all the rest to the second.
fn mixed_by(
    rows: &[u16],
    predecessors: &[u16],
    first: System,
    rows2: &[u16],
    predecessors2: &[u16],
    second: System,
) -> Option<Mixed>
    requires { BothShow first second rows.now predecessors.now rows2.now predecessors2.now }
    ensures { result ≡ mixed_placement first second }
{
    let last = table_code::columns_of(first) - 1;
    let best = split::best_split(rows, rows2, last, first.engines, second.engines);
    let rest = last - best;
    let given = loads_code::load_of(first, best);
    let left = loads_code::load_of(second, rest);
    let one = table_code::placed_by(rows, predecessors, first, first.engines, given)?;
    let other = table_code::placed_by(rows2, predecessors2, second, second.engines, left)?;
    Some(joining::joined(one, other, first.engines))
}

// Places all instances on the engines of two kinds whose types have the same ceilings. The lent parts are filled for the first kind; they hold one kind
// only, so that the second has parts of this function's own, 16 KB, which are long enough for every system.
pub fn place_mixed(
    rows: &mut [u16],
    predecessors: &mut [u16],
    first: System,
    second: System,
) -> Option<Mixed>
    requires { MayMix first second (lent rows.old predecessors.old) }
    ensures { (lent rows.new predecessors.new
        ≡ filled_to first first.engines (lent rows.old predecessors.old))
        × (result ≡ mixed_placement first second) }
{
    let mut rows2 = [0u16; COLUMN_LIMIT];
    let mut predecessors2 = [0u16; COLUMN_LIMIT];
    table_code::fill_parts(rows, predecessors, first, first.engines);
    table_code::fill_parts(&mut rows2, &mut predecessors2, second, second.engines);
    mixed_by(
        &rows[..],
        &predecessors[..],
        first,
        &rows2,
        &predecessors2,
        second,
    )
}
