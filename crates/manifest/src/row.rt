// What is kept of a stack, for what the rules ask of it again and again.

use views::{Footprint, Rank};

// The row of a stack in the manifest.
#[derive(Clone, Copy)]
pub struct Row {
    pub index: u32, // its place in the plan's file, from 0
    pub number: u32,
    pub truck: u32,
    pub copy: u32,
    pub footprint: Footprint,
    pub weight: u32,
    pub plant_docks: u32, // how many it has
    pub rank: Rank,
}

// A row that is not written yet.
pub const NO_ROW: Row = Row {
    index: 0,
    number: 0,
    truck: 0,
    copy: 0,
    footprint: Footprint {
        x: 0,
        xe: 0,
        y: 0,
        ye: 0,
    },
    weight: 0,
    plant_docks: 0,
    rank: Rank {
        supplier: 0,
        dock: 0,
        supplier_order: 0,
        dock_order: 0,
        lowest: 0,
        highest: 0,
    },
};
