// The stacks of one used truck along its trailer.

ghost use Rattle.placement.specs.Placed.{RowsByX};
ghost use Rattle.placement.specs.Props.{by_x_prop};

use manifest::{Block, Row};

// The rows of a manifest, the block of a used truck's stacks in them, and their places by ascending x, counted from the block's start. All
// rows and the block stand side by side, and no slice of the block alone: what is promised speaks of places in all rows, as in `pairrules`, and
// the places in a slice would each have to be moved by where it begins.
#[derive(Clone, Copy)]
pub struct Trailer<'a> {
    pub rows: &'a [Row],
    pub on: Block,
    pub along: &'a [u32],
    pub ghost sorted: { RowsByX rows.now on along.now } by { by_x_prop rows.now on along.now },
}
