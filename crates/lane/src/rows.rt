// The surface rows: guaranteed braking, hardest braking, most acceleration.
ghost use Rattle.std.specs.Prelude.{◌≡◌, false, map, ◌≤◌};
ghost use Rattle.lane.specs.Surface.{row_in, sound_row, unsound};
ghost use Rattle.lane.specs.Layout.{surface_in, table_from, tables_in};
ghost use Rattle.lane.specs.Rules.{road_no};

use crate::{HIGHEST_RATE, Lane, Road, Row, SURFACES, Table, layout, rules};

fn sound(row: [u64; 3]) -> bool
    ensures { result ≡ sound_row (surface_in row) }
{
    (1 <= row[0])
        & (row[0] <= row[1])
        & (row[1] <= HIGHEST_RATE)
        & (1 <= row[2])
        & (row[2] <= HIGHEST_RATE)
}

// A row of a table that was read is unsound. The lane's own tables have a loop of their own below: one for both would take each row through a
// closure, or copy the lane's table first.
pub(crate) fn unsound(table: Table) -> bool
    ensures { result ≡ unsound (map surface_in table) }
{
    for row in table {
        if !sound(row) {
            return true;
        }
    }
    false
}

// A row of a table of the lane is unsound. The rows are read in place, so that check 21 copies no table.
pub(crate) fn unsound_in(l: &Lane, table: usize) -> bool
    requires { table ≤ 9 }
    ensures { result ≡ unsound (table_from table l.now) }
{
    for code in 0..SURFACES {
        if !sound(layout::surface_at(l, table, code)) {
            return true;
        }
    }
    false
}

// The row in force, of which 32 bits hold every number.
pub(crate) fn row_in(l: &Lane, road: Road) -> Row
    requires { (road_no road ≡ 0) × (unsound (table_from 1 l.now) ≡ false) }
    ensures { result ≡ row_in (tables_in l.now) road }
{
    let row = layout::surface_at(l, layout::IN_FORCE, road.surface as usize);
    Row {
        guaranteed: rules::narrow(row[0]),
        hardest: rules::narrow(row[1]),
        most: rules::narrow(row[2]),
    }
}
