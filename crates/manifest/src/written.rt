// A manifest that is written, as the rules read it.

ghost use Rattle.manifest.specs.Manifest.{HoldsRows};
ghost use Rattle.manifest.specs.Props.{holds_prop};

use crate::row::Row;
use table::Table;

// A filled table and the rows of its stacks.
#[derive(Clone, Copy)]
pub struct Manifest<'a> {
    pub table: Table<'a>,
    pub rows: &'a [Row],
    pub ghost holds: { HoldsRows table.named.limits table.named.words.now rows.now } by { holds_prop table.named.limits table.named.words.now rows.now },
}
