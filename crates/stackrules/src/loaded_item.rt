// An item of a stack, as the rules on items read it.

ghost use Rattle.std.specs.Prelude.{◌*◌, ◌<◌, length};
ghost use Rattle.table.specs.Filled.{ItemNumber};
ghost use Rattle.table.specs.Held.{instance_of, stacks_of};
ghost use Rattle.stackrules.specs.Props.{known_prop};

use table::Table;

// An item by its number and a stack by its place in the plan's file, with the table that both are of.
#[derive(Clone, Copy)]
pub struct LoadedItem<'a> {
    pub table: Table<'a>,
    pub place: usize,
    pub number: u32,
    pub ghost known: { (place < length (stacks_of table)) × ItemNumber (instance_of table) number } by { known_prop (instance_of table) (stacks_of table) place number },
}
