// What the rules see of a stack: small structs by value, worked out from its fields and its load. The table is asked for items and trucks
// only, so a stack that stands in no table has the same measures.
#![tactic(auto)]

ghost use Rattle.std.specs.Prelude.{◌≡◌, [], ◌∷◌, ◌*◌, ◌≤◌, ◌<◌, length, get_or, drop};
ghost use Rattle.meaning.specs.Lists.{sum, listed, order_in};
ghost use Rattle.meaning.specs.Model.{item, truck_of, truck_numbered, IL, IW, IG, IU, IK};
ghost use Rattle.meaning.specs.Measures.{bottom, docks_of};
ghost use Rattle.meaning.specs.Rules.{plant_dock_count};
ghost use Rattle.table.specs.Filled.{stack_at, ItemNumber, TruckNumber, item_most, truck_most};
ghost use Rattle.views.specs.Views.{position_of, PositionInRange, extent_of, footprint_from, size_of, load_only};
ghost use Rattle.views.specs.Views.{plant_dock_orders, range_with, range_of, rank_of, plant_docks_from};
ghost use Rattle.table.specs.Held.{instance_of, stacks_of};

use table::{Table, fields, order_in};

pub mod loaded;

pub use loaded::StackLoad;

// Where a stack stands, and which way it is turned.
#[derive(Clone, Copy)]
pub struct Position {
    pub x: u32,
    pub y: u32,
    pub orientation: u32,
}

// The extent of a stack along the trailer and across it.
#[derive(Clone, Copy)]
pub struct Extent {
    pub along: u32,
    pub across: u32,
}

// The ground that a stack takes: from x to xe along the trailer, from y to ye across it.
#[derive(Clone, Copy)]
pub struct Footprint {
    pub x: u32,
    pub xe: u32,
    pub y: u32,
    pub ye: u32,
}

// The weight and the height of a stack.
#[derive(Clone, Copy)]
pub struct Size {
    pub weight: u32,
    pub height: u32,
}

// What the loading order P4 compares: supplier and supplier dock, their loading orders, and the lowest and the highest loading order of the
// plant docks.
#[derive(Clone, Copy)]
pub struct Rank {
    pub supplier: u32,
    pub dock: u32,
    pub supplier_order: u32,
    pub dock_order: u32,
    pub lowest: u32,
    pub highest: u32,
}

// ---- fields of a stack of the table. That a place or a truck's number is one of the table's stays a clause here, at the table's accessors
// and at the loading orders, as an index is asked to be one of its slice: a struct of the table and the number would be made for one
// question. Where an item or a stack is asked several, such a struct keeps it (`LoadedItem` and `ListedStack` in stackrules).

// A field of a stack's bottom item.
pub fn bottom_field(table: Table<'_>, s: usize, field: usize) -> u32
    requires { (s < length (stacks_of table)) × (field < 16) }
    ensures { (result ≡ get_or (bottom (instance_of table.entry) (stack_at (stacks_of table.entry) s)) field 0)
        × (result ≤ item_most field) }
{
    let items = table.load(s);
    table.item_field(items[0], field)
}

// A field of the truck that a stack is on.
pub fn stack_truck_field(table: Table<'_>, s: usize, field: usize) -> u32
    requires { (s < length (stacks_of table)) × (field < 20) }
    ensures { (result ≡ get_or (truck_of (instance_of table.entry) (stack_at (stacks_of table.entry) s)).fields field
        0) × (result ≤ truck_most field) }
{
    table.truck_field(table.stack_truck(s), field)
}

// Where a stack stands.
pub fn read_position(table: Table<'_>, s: usize) -> Position
    requires { s < length (stacks_of table) }
    ensures { (result ≡ position_of (stack_at (stacks_of table.entry) s)) × PositionInRange result }
{
    Position {
        x: table.stack_field(s, fields::X),
        y: table.stack_field(s, fields::Y),
        orientation: table.stack_field(s, fields::ORIENTATION),
    }
}

// ---- the ground

// How far a stack reaches along the trailer and across it, by length and width of its bottom item. An orientation stays the file's number
// (document 01), which the ranges keep 1 or 2: but for the rule that compares it with a forced one (0 for none), it is asked here alone, where
// an enum would be made and matched at once.
fn extent_of(length: u32, width: u32, orientation: u32) -> Extent
    requires { (1 ≤ orientation) × (orientation ≤ 2) }
    ensures { result ≡ extent_of length width orientation }
{
    if orientation == 1 {
        return Extent {
            along: length,
            across: width,
        };
    }
    Extent {
        along: width,
        across: length,
    }
}

// The ground of a stack, by its position and by length and width of its bottom item.
fn footprint_from(position: Position, length: u32, width: u32) -> Footprint
    requires { PositionInRange position × (length ≤ 20000) × (width ≤ 20000) }
    ensures { result ≡ footprint_from position length width }
{
    let extent = extent_of(length, width, position.orientation);
    Footprint {
        x: position.x,
        xe: position.x + extent.along,
        y: position.y,
        ye: position.y + extent.across,
    }
}

// ---- loading orders on a truck; 0 for what is not listed

// The loading order of a supplier.
pub fn supplier_order(table: Table<'_>, truck: u32, supplier: u32) -> usize
    requires { TruckNumber (instance_of table) truck }
    ensures { (result ≡ order_in (truck_numbered (instance_of table.entry) truck).suppliers supplier)
        × (result ≤ length (truck_numbered (instance_of table.entry) truck).suppliers) × (result ≤ 8) }
{
    order_in(table.suppliers(truck), supplier)
}

// The loading order of a dock among the docks of a supplier, who is given by the loading order. What is not listed has the order 0, and not
// none: that is its loading order in the rules, which compare with it (decision 13 in docs/DECISIONS.md).
fn dock_order(table: Table<'_>, truck: u32, supplier: usize, dock: u32) -> usize
    requires { TruckNumber (instance_of table) truck × (supplier ≤ length (truck_numbered (instance_of table) truck).suppliers) }
    ensures { (result ≡ order_in (get_or ([] ∷ (truck_numbered (instance_of table.entry) truck).docks) supplier []) dock)
        × (result ≤ 8) }
{
    if supplier == 0 {
        return 0;
    }
    order_in(table.docks(truck, supplier), dock)
}

// The loading order of an item's supplier dock among the docks of its supplier.
pub fn supplier_dock_order(table: Table<'_>, truck: u32, n: u32) -> usize
    requires { TruckNumber (instance_of table) truck × ItemNumber (instance_of table) n }
    ensures { (result ≡ order_in (docks_of (truck_numbered (instance_of table.entry) truck)
        (IU (item (instance_of table.entry) n))) (IK (item (instance_of table.entry) n))) × (result ≤ 8) }
{
    let supplier = supplier_order(table, truck, table.item_field(n, fields::IU));
    dock_order(table, truck, supplier, table.item_field(n, fields::IK))
}

// The loading order of an item's plant dock.
pub fn plant_dock_order(table: Table<'_>, truck: u32, n: u32) -> usize
    requires { TruckNumber (instance_of table) truck × ItemNumber (instance_of table) n }
    ensures { (result ≡ order_in (truck_numbered (instance_of table.entry) truck).plant_docks
        (IG (item (instance_of table.entry) n))) × (result ≤ 8) }
{
    order_in(table.plant_docks(truck), table.item_field(n, fields::IG))
}

// The lowest and the highest of some loading orders.
#[derive(Clone, Copy)]
struct OrderRange {
    lowest: u32,
    highest: u32,
}

// No truck has more, so no loading order of a plant dock is above it.
const MOST_PLANT_DOCKS: u32 = 8;

// The range with one loading order more.
fn including(range: OrderRange, order: u32) -> OrderRange
    ensures { result ≡ range_with order range }
{
    OrderRange {
        lowest: range.lowest.min(order),
        highest: range.highest.max(order),
    }
}

// ---- what a load tells

impl<'a> StackLoad<'a> {
    // The ground of a stack with this load, by its position.
    pub fn footprint(self, position: Position) -> Footprint
        requires { PositionInRange position }
        ensures { result ≡ footprint_from position (IL (item (instance_of self.entry.table) (get_or self.entry.items.now 0 0)))
            (IW (item (instance_of self.entry.table) (get_or self.entry.items.now 0 0))) }
    {
        let bottom = self.items[0];
        let length = self.table.item_field(bottom, fields::IL);
        let width = self.table.item_field(bottom, fields::IW);
        footprint_from(position, length, width)
    }

    // The sum of a field over the items, of which `from` are left out at the bottom: with 0 all are summed, with 1 those above the bottom item.
    pub fn sum(self, from: usize, field: usize) -> u32
        requires { (from ≤ 1) × (field < 16) }
        ensures { (result ≡ sum (λ n. get_or (item (instance_of self.entry.table) n) field 0) (drop from self.entry.items.now))
            × (result ≤ item_most field * 64) }
    {
        let mut sum: u32 = 0;
        for n in &self.items[from..] {
            sum += self.table.item_field(*n, field);
        }
        sum
    }

    // The weight and the height. Each item but the bottom one sinks by its nesting height into the one below it.
    pub fn size(self) -> Size
        ensures { result ≡ size_of (instance_of self.entry.table) self.entry.items.now }
    {
        let weight = self.sum(0, fields::IM);
        let heights = self.sum(0, fields::IH);
        let nested = self.sum(1, fields::NESTING);
        Size {
            weight,
            height: heights - nested,
        }
    }

    // The range of the plant dock orders of the items on a truck.
    fn plant_dock_range(self, truck: u32) -> OrderRange
        requires { TruckNumber (instance_of self.table) truck }
        ensures { result ≡ range_of (plant_dock_orders (instance_of self.entry.table) truck self.entry.items.now) }
    {
        let docks = self.table.plant_docks(truck);
        let mut range = OrderRange {
            lowest: MOST_PLANT_DOCKS,
            highest: 0,
        };
        for n in self.items.iter().rev() {
            let order = order_in(docks, self.table.item_field(*n, fields::IG));
            range = including(range, order as u32);
        }
        range
    }

    // The rank in the loading order of a stack with this load, by its truck's number.
    pub fn rank(self, truck: u32) -> Rank
        requires { TruckNumber (instance_of self.table) truck }
        ensures { result ≡ rank_of (instance_of self.entry.table) truck self.entry.items.now }
    {
        let bottom = self.items[0];
        let supplier = self.table.item_field(bottom, fields::IU);
        let dock = self.table.item_field(bottom, fields::IK);
        let order = supplier_order(self.table, truck, supplier);
        let range = self.plant_dock_range(truck);
        Rank {
            supplier,
            dock,
            supplier_order: order as u32,
            dock_order: dock_order(self.table, truck, order, dock) as u32,
            lowest: range.lowest,
            highest: range.highest,
        }
    }

    // Whether an item from place `from` on has this plant dock.
    fn has_plant_dock(self, from: usize, dock: u32) -> bool
        requires { from ≤ length self.items.now }
        ensures { result ≡ listed dock (plant_docks_from (instance_of self.entry.table) self.entry.items.now from) }
    {
        for n in &self.items[from..] {
            if self.table.item_field(*n, fields::IG) == dock {
                return true;
            }
        }
        false
    }

    // How many plant docks there are. A dock is counted at the last item that has it. The walk is over places, since the items above one are
    // the rest of the load.
    pub fn plant_dock_count(self) -> u32
        ensures { (result ≡ plant_dock_count (instance_of self.entry.table) (load_only self.entry.items.now)) × (result ≤ 64) }
    {
        let mut count: u32 = 0;
        for j in (0..self.items.len()).rev() {
            let dock = self.table.item_field(self.items[j], fields::IG);
            if !self.has_plant_dock(j + 1, dock) {
                count += 1;
            }
        }
        count
    }
}
