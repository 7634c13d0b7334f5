// Rows of one width, each read into words of its own, and the trucks, which are such rows of 160 words.
#![tactic(auto)]

ghost use Rattle.std.specs.Prelude.{◌≡◌, List, ℕ, ◌*◌, ◌≤◌, length, Ok};
ghost use Rattle.meaning.specs.Reader.{Reader, line, times};
ghost use Rattle.meaning.specs.Files.{truck_line, docks_line, truck_lines};
ghost use Rattle.meaning.specs.Table.{truck_words};
ghost use Rattle.lines.specs.Progress.{ReadInto};
ghost use Rattle.trucks.specs.Rows.{rows, ReadsRow, dock_words};

use lines::{Cursor, Progress, counted_line, identifiers_line, judged, stored_line};
use ranges::{LAST_DAY, truck_in_range};
use table::clear;
use table::layout::{
    BEHIND_DOCKS, DOCK_COUNTS, PLANT_DOCKS, PRODUCTS, SUPPLIER_DOCKS, SUPPLIERS, TRUCK_WORDS,
};

// ---- rows

// So many rows of one width, one after another, each read into the part of the words that it is lent. The words behind them are zero. The
// clause takes any reader that finds the words of a row as `read_row` does. (By place and not by `chunks_exact_mut`: of the words of its
// rows nothing is known any more once they are handed back.)
pub fn read_rows<'a, F: Fn(Cursor<'a>, &mut [u32]) -> Progress<'a>>(
    here: Cursor<'a>,
    width: usize,
    count: usize,
    part: &mut [u32],
    read_row: F,
) -> Progress<'a>
    requires room { width * count ≤ length part.old }
    requires row { (at : _) (row : _) → length row.now ≡ width → F.pre read_row at row }
    ensures { (reader : Reader (List ℕ)) → ReadsRow (F.post read_row) width reader
        → ReadInto (times count reader) (rows (length part.old) (λ words. words)) (Ok here.entry) result part.new }
{
    clear(part);
    let mut next = here;
    for k in 0..count {
        let first = width * k;
        next = read_row(next, &mut part[first..first + width])?;
    }
    Ok(next)
}

// ---- trucks

// One `docks=` line for each supplier. The eight counts stand first, then the docks of each supplier in a row of their own. (Not by
// `read_rows`: each row's count is stored too, which stands among other words. By place for the same reason as there.)
fn read_docks<'a>(here: Cursor<'a>, suppliers: usize, part: &mut [u32]) -> Progress<'a>
    requires { (suppliers ≤ 8) × (length part.old ≡ 72) }
    ensures { ReadInto (times suppliers (line docks_line)) dock_words (Ok here.entry) result part.new }
{
    clear(part);
    let mut next = here;
    for k in 0..suppliers {
        let first = 8 + SUPPLIER_DOCKS * k;
        let row = &mut part[first..first + SUPPLIER_DOCKS];
        let docks = identifiers_line(Ok(next), b"docks=", row)?;
        part[k] = docks.value as u32;
        next = docks.next;
    }
    Ok(next)
}

// The truck's own line.
fn read_truck_fields<'a>(here: Cursor<'a>, part: &mut [u32]) -> Progress<'a>
    requires { length part.old ≡ 20 }
    ensures { ReadInto (line truck_line) (λ ns. ns) (Ok here.entry) result part.new }
{
    let stored = stored_line(Ok(here), b"truck=", PRODUCTS, part);
    judged(stored, truck_in_range(part, LAST_DAY))
}

// All lines of a truck, into its 160 words.
fn read_truck<'a>(here: Cursor<'a>, part: &mut [u32]) -> Progress<'a>
    requires { length part.old ≡ 160 }
    ensures { ReadInto truck_lines truck_words (Ok here.entry) result part.new }
{
    // Whatever stood in the truck's words before, nothing of it is left.
    clear(&mut part[0..TRUCK_WORDS]);
    let row = read_truck_fields(here, &mut part[0..PRODUCTS])?;
    let products = counted_line(Ok(row), b"products=", &mut part[PRODUCTS..SUPPLIERS])?;
    let suppliers = counted_line(
        Ok(products.next),
        b"suppliers=",
        &mut part[SUPPLIERS..DOCK_COUNTS],
    )?;
    let docks = read_docks(
        suppliers.next,
        suppliers.value,
        &mut part[DOCK_COUNTS..PLANT_DOCKS],
    )?;
    let plant_docks = counted_line(
        Ok(docks),
        b"plantdocks=",
        &mut part[PLANT_DOCKS..BEHIND_DOCKS],
    )?;
    Ok(plant_docks.next)
}

// The trucks one after another. The words of trucks that the instance lacks are zero.
pub fn read_trucks<'a>(p: Progress<'a>, count: usize, part: &mut [u32]) -> Progress<'a>
    requires { 160 * count ≤ length part.old }
    ensures { ReadInto (times count truck_lines) (rows (length part.old) truck_words) p.entry result part.new }
{
    let here = p?;
    read_rows(here, TRUCK_WORDS, count, part, read_truck)
}
