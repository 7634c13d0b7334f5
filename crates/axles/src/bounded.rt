// The numbers that the sums and the axles are worked out from, within the bounds of a filled table, so that no sum or product overflows.

ghost use Rattle.axles.specs.Weights.{BoundedAxles, BoundedRows};
ghost use Rattle.axles.specs.Props.{axles_prop, rows_prop};

use crate::AxleData;
use manifest::Row;

// The stacks of a used truck, by their rows.
#[derive(Clone, Copy)]
pub struct Load<'a> {
    pub rows: &'a [Row],
    pub ghost bounded: { BoundedRows rows.now } by { rows_prop rows.now },
}

// The axles of its truck, by what its line says of them.
#[derive(Clone, Copy)]
pub struct Axles {
    pub line: AxleData,
    pub ghost bounded: { BoundedAxles line } by { axles_prop line },
}
