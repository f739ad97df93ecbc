// A table of surface rows as text, put and read.
ghost use Rattle.std.specs.Prelude.{◌≡◌, true, false, MatchOption, map, List, [], ◌∷◌, ℕ, ◌+◌, ◌≤◌, length};
ghost use Rattle.text.specs.Groups.{Got, got, missing, group_in, groups_in};
ghost use Rattle.text.specs.Lines.{written};
ghost use Rattle.lane.specs.Layout.{surface_in, table_from};
ghost use Rattle.lane.specs.Table.{row_keys, row_text, table_text, table_in, bad_table, rows_loaded};

use crate::{Lane, SURFACES, Table, layout, rows};
use text::Lines;

// The keys of a row's lines: guaranteed braking, hardest braking, most acceleration.
const GUARANTEED: [u8; 2] = *b"b=";

const HARDEST: [u8; 2] = *b"B=";

const MOST: [u8; 2] = *b"A=";

// How long a row's lines are.
fn row_length(row: [u64; 3]) -> usize
    ensures { (result ≡ length (row_text (surface_in row))) × (result ≤ 69) }
{
    9 + text::decimal_length(row[0]) + text::decimal_length(row[1]) + text::decimal_length(row[2])
}

// How long the text of a table of the lane is.
pub(crate) fn text_length(l: &Lane, table: usize) -> usize
    requires { table ≤ 9 }
    ensures { (result ≡ length (table_text (table_from table l.now))) × (result ≤ 552) }
{
    let mut n: usize = 0;
    for code in 0..SURFACES {
        n += row_length(layout::surface_at(l, table, code));
    }
    n
}

fn put_row(out: &mut [u8], at: usize, row: [u64; 3]) -> usize
    requires { at + length (row_text (surface_in row)) ≤ length out.old }
    ensures out_after { out.new ≡ written at (row_text (surface_in row)) out.old }
    ensures value { result ≡ at + length (row_text (surface_in row)) }
{
    let guaranteed = text::put_decimal_line(out, at, &GUARANTEED, row[0]);
    let hardest = text::put_decimal_line(out, guaranteed, &HARDEST, row[1]);
    text::put_decimal_line(out, hardest, &MOST, row[2])
}

// The text of a table of the lane put at a place of the buffer, into which it fits, and the place after it.
pub(crate) fn put_text(l: &Lane, table: usize, out: &mut [u8], at: usize) -> usize
    requires { (table ≤ 9) × (at + length (table_text (table_from table l.now)) ≤ length out.old) }
    ensures out_after { out.new ≡ written at (table_text (table_from table l.now)) out.old }
    ensures value { result ≡ at + length (table_text (table_from table l.now)) }
{
    let mut place = at;
    for code in 0..SURFACES {
        place = put_row(out, place, layout::surface_at(l, table, code));
    }
    place
}

// A row's numbers, where its lines come next.
fn read_row(lines: &mut Lines) -> Option<[u64; 3]>
    ensures { MatchOption result (group_in row_keys lines.old.rest.now ≡ missing) (λ row. group_in row_keys lines.old.rest.now ≡ got row lines.new.rest.now) }
{
    let guaranteed = lines.number(&GUARANTEED, u64::MAX)?;
    let hardest = lines.number(&HARDEST, u64::MAX)?;
    let most = lines.number(&MOST, u64::MAX)?;
    Some([guaranteed, hardest, most])
}

// The rows of a table, where their lines come next.
pub(crate) fn read(lines: &mut Lines) -> Option<Table>
    ensures { MatchOption result (groups_in row_keys 8 lines.old.rest.now ≡ missing) (λ table. groups_in row_keys 8 lines.old.rest.now ≡ got table lines.new.rest.now) }
{
    let mut table = [[0u64; 3]; SURFACES];
    for row in table.iter_mut() {
        *row = read_row(lines)?;
    }
    Some(table)
}

// The rows of a table text, where nothing follows them and each is sound.
pub(crate) fn loaded(text: &[u8]) -> Option<Table>
    ensures { MatchOption result (bad_table (table_in text.now) ≡ true) (λ table. (bad_table (table_in text.now) ≡ false) × (rows_loaded (table_in text.now) ≡ map surface_in table)) }
{
    let mut lines = Lines { rest: text };
    let table = read(&mut lines)?;
    if !lines.rest.is_empty() {
        return None;
    }
    if rows::unsound(table) {
        return None;
    }
    Some(table)
}
