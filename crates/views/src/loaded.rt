// The load of a stack, as what is worked out from it reads it.

ghost use Rattle.table.specs.Filled.{LoadOfItems};
ghost use Rattle.table.specs.Held.{instance_of};
ghost use Rattle.views.specs.Props.{of_items_prop};

use table::Table;

// The load of a stack: the numbers of its items, bottom first, with the table that they are items of.
#[derive(Clone, Copy)]
pub struct StackLoad<'a> {
    pub table: Table<'a>,
    pub items: &'a [u32],
    pub ghost of_items: { LoadOfItems (instance_of table) items.now } by { of_items_prop (instance_of table) items.now },
}
