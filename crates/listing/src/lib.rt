// The two files of a filled table, written out line by line. Table and writer are handed on as two: a struct of both would hold a `&mut` of a struct
// that holds one, and no call would be shorter.
#![tactic(auto)]

ghost use mathlib.Core.List.{[], ◌∷◌, flat_map};
ghost use Rattle.std.specs.Prelude.{◌≤◌, ◌<◌, length};
ghost use Rattle.meaning.specs.Model.{truck_numbered};
ghost use Rattle.meaning.specs.Print.{printed_truck, printed_instance, printed_plan};
ghost use Rattle.table.specs.Filled.{TruckNumber, stack_at};
ghost use Rattle.printing.specs.Wrote.{Wrote, line_bytes};
ghost use Rattle.printing.specs.Appended.{HasRoom, Appended};
ghost use Rattle.listing.specs.Parts.{lines_of, head_bytes, stack_bytes};
ghost use Rattle.table.specs.Held.{instance_of, stacks_of};

use printing::Writer;
use table::Table;

// A line with one number.
fn write_one(key: &[u8], number: u32, out: &mut Writer<'_>)
    requires { HasRoom (line_bytes key.now (number ∷ [])) out.old }
    ensures { Appended (line_bytes key.now (number ∷ [])) out.old out.new }
{
    let numbers = [number];
    out.line(key, &numbers);
}

// ---- the instance file

// The first five lines, of one number each.
fn write_head(table: Table<'_>, out: &mut Writer<'_>)
    requires { HasRoom (head_bytes (instance_of table)) out.old }
    ensures { Appended (head_bytes (instance_of table.entry)) out.old out.new }
{
    write_one(b"transport=", table.transport_coefficient(), out);
    write_one(b"inventory=", table.inventory_coefficient(), out);
    write_one(b"extra=", table.extra_coefficient(), out);
    write_one(b"items=", table.item_count(), out);
    write_one(b"trucks=", table.truck_count(), out);
}

// A line for each item. (One function over a closure for this loop and the three like it would be longer than they are.)
fn write_items(table: Table<'_>, out: &mut Writer<'_>)
    requires { HasRoom (lines_of "item=" (instance_of table).items) out.old }
    ensures { Appended (lines_of "item=" (instance_of table.entry).items) out.old out.new }
{
    for n in 0..table.item_count() {
        out.line(b"item=", table.item_fields(n + 1));
    }
}

// The docks of each supplier of a truck, a line for each.
fn write_docks(table: Table<'_>, n: u32, out: &mut Writer<'_>)
    requires { TruckNumber (instance_of table) n × HasRoom (lines_of "docks=" (truck_numbered (instance_of table) n).docks) out.old }
    ensures { Appended (lines_of "docks=" (truck_numbered (instance_of table.entry) n).docks)
        out.old out.new }
{
    let visited = table.suppliers(n);
    for passed in 0..visited.len() {
        out.line(b"docks=", table.docks(n, passed + 1));
    }
}

// The lines of a truck.
fn write_truck(table: Table<'_>, n: u32, out: &mut Writer<'_>)
    requires { TruckNumber (instance_of table) n × HasRoom (printed_truck (truck_numbered (instance_of table) n)) out.old }
    ensures { Appended (printed_truck (truck_numbered (instance_of table.entry) n)) out.old out.new }
{
    out.line(b"truck=", table.truck_fields(n));
    out.line(b"products=", table.products(n));
    out.line(b"suppliers=", table.suppliers(n));
    write_docks(table, n, out);
    out.line(b"plantdocks=", table.plant_docks(n));
}

// The lines of each truck.
fn write_trucks(table: Table<'_>, out: &mut Writer<'_>)
    requires { HasRoom (flat_map printed_truck (instance_of table).trucks) out.old }
    ensures { Appended (flat_map printed_truck (instance_of table.entry).trucks) out.old out.new }
{
    for n in 0..table.truck_count() {
        write_truck(table, n + 1, out);
    }
}

// The instance file, from the first byte that is lent on. It answers how many bytes it wrote.
pub fn write_instance(table: Table<'_>, out: &mut [u8]) -> usize
    requires { length (printed_instance (instance_of table)) ≤ length out.old }
    ensures { Wrote (printed_instance (instance_of table.entry)) out.old out.new result }
{
    let mut file = Writer::new(out);
    write_head(table, &mut file);
    write_items(table, &mut file);
    write_trucks(table, &mut file);
    file.len()
}

// ---- the plan file

// The two lines of a stack, which goes by its place in the file, from 0.
fn write_stack(table: Table<'_>, s: usize, out: &mut Writer<'_>)
    requires { (s < length (stacks_of table)) × HasRoom (stack_bytes (stack_at (stacks_of table) s)) out.old }
    ensures { Appended (stack_bytes (stack_at (stacks_of table.entry) s)) out.old out.new }
{
    out.line(b"stack=", table.stack_fields(s));
    out.line(b"load=", table.load(s));
}

// The two lines of each stack.
fn write_stacks(table: Table<'_>, out: &mut Writer<'_>)
    requires { HasRoom (flat_map stack_bytes (stacks_of table)) out.old }
    ensures { Appended (flat_map stack_bytes (stacks_of table.entry)) out.old out.new }
{
    for s in 0..table.stack_count() {
        write_stack(table, s, out);
    }
}

// The plan file, from the first byte that is lent on. It answers how many bytes it wrote.
pub fn write_plan(table: Table<'_>, out: &mut [u8]) -> usize
    requires { length (printed_plan (stacks_of table)) ≤ length out.old }
    ensures { Wrote (printed_plan (stacks_of table.entry)) out.old out.new result }
{
    let mut file = Writer::new(out);
    write_one(b"stacks=", table.stack_count() as u32, &mut file);
    write_stacks(table, &mut file);
    file.len()
}
