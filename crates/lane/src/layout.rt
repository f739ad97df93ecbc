// Which word of a lane is where: no other module knows more of it than the names of the two tables.
ghost use Rattle.std.specs.Prelude.{◌≡◌, List, map, ℕ, ◌≤◌, ◌<◌, length, get_or, set};
ghost use Rattle.lane.specs.Surface.{row_of};
ghost use Rattle.lane.specs.Layout.{surface_in, table_from, tables_in, figures_in, records_in, with_code, empty_words};
ghost use Rattle.lane.specs.Calls.{none};

use crate::{Carrier, Lane, ROW_WORDS, ROWS, Road, SURFACES, Table};

// The first rows of the two tables: of the surface rows in force, and of those for the next start.
pub(crate) const IN_FORCE: usize = 1;

pub(crate) const NEXT: usize = 9;

// The row of the first record.
const FIRST: usize = 25;

// The house rows, code after code: the three numbers of each, and free words.
const HOUSE: [[u64; ROW_WORDS]; SURFACES] = [
    [64, 128, 32, 0, 0, 0, 0, 0],
    [56, 120, 32, 0, 0, 0, 0, 0],
    [48, 112, 24, 0, 0, 0, 0, 0],
    [40, 96, 24, 0, 0, 0, 0, 0],
    [32, 96, 16, 0, 0, 0, 0, 0],
    [16, 64, 12, 0, 0, 0, 0, 0],
    [6, 48, 8, 0, 0, 0, 0, 0],
    [1, 255, 1, 0, 0, 0, 0, 0],
];

// The empty lane: the house rows in both tables, and zeros.
pub(crate) fn clear(l: &mut Lane)
    ensures { l.new ≡ empty_words }
{
    *l = [[0; ROW_WORDS]; ROWS];
    l[IN_FORCE..NEXT].copy_from_slice(&HOUSE);
    l[NEXT..NEXT + SURFACES].copy_from_slice(&HOUSE);
}

// What the first row holds.
#[derive(Clone, Copy)]
pub(crate) struct Figures {
    pub(crate) started: bool,
    pub(crate) road: Road,
    pub(crate) cycle: u64,
    pub(crate) count: usize,
}

#[tactic(auto, using(crate::proofs::checks::Records::records_long))]
pub(crate) fn figures_of(l: &Lane) -> Figures
    ensures value { result ≡ figures_in l.now }
    ensures l_len { length (records_in l.now) ≡ 64 }
{
    Figures {
        started: l[0][0] == 1,
        road: Road {
            surface: l[0][1],
            end: l[0][2],
            limit: l[0][3],
        },
        cycle: l[0][4],
        count: l[0][5] as usize,
    }
}

// The first row put anew; its free words stay.
pub(crate) fn put_figures(l: &mut Lane, f: Figures)
    ensures l_after { figures_in l.new ≡ f }
    ensures l_unchanged { tables_in l.new ≡ tables_in l.old }
    ensures l_unchanged_2 { records_in l.new ≡ records_in l.old }
{
    let started = if f.started { 1 } else { 0 };
    let road = f.road;
    let row = l[0];
    l[0] = [
        started,
        road.surface,
        road.end,
        road.limit,
        f.cycle,
        f.count as u64,
        row[6],
        row[7],
    ];
}

// The cycle number and the count put anew.
pub(crate) fn put_count(l: &mut Lane, cycle: u64, count: usize)
    ensures l_after { figures_in l.new ≡ record { started = (figures_in l.old).started; road = (figures_in l.old).road; cycle = cycle; count = count } }
    ensures l_unchanged { tables_in l.new ≡ tables_in l.old }
    ensures l_unchanged_2 { records_in l.new ≡ records_in l.old }
{
    let row = l[0];
    l[0] = [
        row[0],
        row[1],
        row[2],
        row[3],
        cycle,
        count as u64,
        row[6],
        row[7],
    ];
}

// The surface code put anew, and no other word.
pub(crate) fn put_code(l: &mut Lane, code: u64)
    ensures { l.new ≡ with_code code l.old }
{
    let mut row = l[0];
    row[1] = code;
    l[0] = row;
}

// The numbers of a surface row of a table.
pub(crate) fn surface_at(l: &Lane, table: usize, code: usize) -> [u64; 3]
    requires { (table ≤ 9) × (code < 8) }
    ensures { surface_in result ≡ row_of (table_from table l.now) code }
{
    let row = l[table + code];
    [row[0], row[1], row[2]]
}

// A surface row put in a row of the lane; the free words of that row are put back, which takes no instruction.
fn put_surface(l: &mut Lane, at: usize, surface: [u64; 3])
    requires { at < 89 }
    ensures { (w : List ℕ) × ((l.new ≡ set l.old at w) × (surface_in w ≡ surface_in surface)) }
{
    let row = l[at];
    l[at] = [
        surface[0], surface[1], surface[2], row[3], row[4], row[5], row[6], row[7],
    ];
}

// The rows for the next start put anew.
pub(crate) fn put_next(l: &mut Lane, table: Table)
    ensures l_unchanged { figures_in l.new ≡ figures_in l.old }
    ensures l_after { tables_in l.new ≡ record { in_force = (tables_in l.old).in_force; next = map surface_in table } }
    ensures l_unchanged_2 { records_in l.new ≡ records_in l.old }
{
    for code in 0..SURFACES {
        put_surface(l, NEXT + code, table[code]);
    }
}

// The rows for the next start put in force, row by row: a loop for both would have to copy the table first.
pub(crate) fn put_in_force(l: &mut Lane)
    ensures l_unchanged { figures_in l.new ≡ figures_in l.old }
    ensures l_after { tables_in l.new ≡ record { in_force = (tables_in l.old).next; next = (tables_in l.old).next } }
    ensures l_unchanged_2 { records_in l.new ≡ records_in l.old }
{
    for code in 0..SURFACES {
        let surface = surface_at(l, NEXT, code);
        put_surface(l, IN_FORCE + code, surface);
    }
}

// The record of no carrier.
pub(crate) fn no_carrier() -> Carrier
    ensures { result ≡ none }
{
    Carrier {
        number: 0,
        position: 0,
        speed: 0,
        length: 0,
        rate: 0,
    }
}

// The record at a place.
pub(crate) fn carrier_at(l: &Lane, place: usize) -> Carrier
    requires { place < 64 }
    ensures { result ≡ get_or (records_in l.now) place none }
{
    let row = l[FIRST + place];
    Carrier {
        number: row[0],
        position: row[1],
        speed: row[2],
        length: row[3],
        rate: row[4],
    }
}

// A record put at a place; the free words of its row stay, which takes no instruction.
pub(crate) fn put_carrier(l: &mut Lane, place: usize, c: Carrier)
    requires { place < 64 }
    ensures l_unchanged { (figures_in l.new ≡ figures_in l.old) × (tables_in l.new ≡ tables_in l.old) }
    ensures l_after { records_in l.new ≡ set (records_in l.old) place c }
{
    let row = l[FIRST + place];
    l[FIRST + place] = [
        c.number, c.position, c.speed, c.length, c.rate, row[5], row[6], row[7],
    ];
}

// The record at one place copied to another.
pub(crate) fn copy_record(l: &mut Lane, from: usize, to: usize)
    requires { (from < 64) × (to < 64) }
    ensures l_unchanged { (figures_in l.new ≡ figures_in l.old) × (tables_in l.new ≡ tables_in l.old) }
    ensures l_after { records_in l.new ≡ set (records_in l.old) to (get_or (records_in l.old) from none) }
{
    let c = carrier_at(l, from);
    put_carrier(l, to, c);
}
