// What a plan costs: the price of each used truck, and the inventory cost of the items that arrive before their latest day.
#![tactic(auto)]

ghost use Rattle.std.specs.Prelude.{◌≡◌, ◌+◌, ◌-◌, ◌*◌, ◌≤◌, ◌<◌, length};
ghost use Rattle.meaning.specs.Lists.{sum};
ghost use Rattle.meaning.specs.Model.{item, IC, IDL};
ghost use Rattle.meaning.specs.Verdict.{transport_cost, inventory_cost};
ghost use Rattle.table.specs.Filled.{stack_at, ItemNumber, TruckNumber};
ghost use Rattle.costs.specs.Costs.{used_truck};
ghost use Rattle.table.specs.Held.{instance_of, stacks_of};

use table::{Table, fields};

// The days that an item arrives before its latest day. Rule 13 keeps it from arriving later.
fn days_early(latest: u32, arrival: u32) -> u32
    ensures { (result ≡ latest - arrival) × (result ≤ latest) }
{
    latest.saturating_sub(arrival)
}

// The inventory cost of an item that arrives on this day, for each unit of its coefficient.
fn item_inventory(table: Table<'_>, n: u32, arrival: u32) -> u64
    requires { ItemNumber (instance_of table) n }
    ensures { (result ≡ IC (item (instance_of table.entry) n) * (IDL (item (instance_of table.entry) n) - arrival))
        × (result ≤ 39900000) }
{
    let days = days_early(table.item_field(n, fields::IDL), arrival);
    (table.item_field(n, fields::IC) as u64) * (days as u64)
}

// The inventory cost of a stack.
fn stack_inventory(table: Table<'_>, s: usize) -> u64
    requires { s < length (stacks_of table) }
    ensures { (result ≡ inventory_cost (instance_of table.entry) (stack_at (stacks_of table.entry) s))
        × (result ≤ 39900000 * length (stack_at (stacks_of table.entry) s).load) }
{
    let arrival = table.truck_field(table.stack_truck(s), fields::TDA);
    let items = table.load(s);
    let mut sum: u64 = 0;
    for n in items {
        sum += item_inventory(table, *n, arrival);
    }
    sum
}

// The inventory cost of all stacks.
fn inventory_sum(table: Table<'_>) -> u64
    ensures { (result ≡ sum (inventory_cost (instance_of table.entry)) (stacks_of table.entry))
        × (result ≤ 2614886400000) }
{
    let mut sum: u64 = 0;
    for s in 0..table.stack_count() {
        sum += stack_inventory(table, s);
    }
    sum
}

// The price of a used truck in thousandths; an extra one costs more. Copy 0 is the planned truck by document 01; no other function asks which.
pub fn truck_cost(table: Table<'_>, truck: u32, copy: u32) -> u64
    requires { TruckNumber (instance_of table) truck }
    ensures { (result ≡ transport_cost (instance_of table.entry) (used_truck truck copy)) × (result ≤ 2000000000) }
{
    let cost = table.truck_field(truck, fields::TC) as u64;
    if copy == 0 {
        return cost * 1000;
    }
    cost * (1000 + (table.extra_coefficient() as u64))
}

// The cost of a plan in thousandths; `transport` is what its used trucks cost together.
pub fn plan_cost(table: Table<'_>, transport: u64) -> u64
    requires { transport ≤ 4194304000000000 }
    ensures { result ≡ (instance_of table.entry).αT * transport
        + 1000 * (instance_of table.entry).αI * sum (inventory_cost (instance_of table.entry)) (stacks_of table.entry) }
{
    let per_transport = table.transport_coefficient() as u64;
    let per_inventory = table.inventory_coefficient() as u64;
    let inventory = inventory_sum(table);
    per_transport * transport + 1000 * per_inventory * inventory
}
