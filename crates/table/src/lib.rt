// The working table: where its parts begin, clearing, and the accessors. No other code knows where a word stands in a filled table.
#![tactic(auto)]

ghost use Rattle.std.specs.Prelude.{◌≡◌, ◌+◌, ◌*◌, ◌≤◌, ◌<◌, length, get_or, take, drop, replicate, position, ◌==◌};
ghost use Rattle.meaning.specs.Lists.{listed, order_in};
ghost use Rattle.meaning.specs.Limits.{small};
ghost use Rattle.meaning.specs.Model.{item, truck_numbered, truck};
ghost use Rattle.table.specs.Filled.{Bounded, LoadOfItems, stack_at, ItemNumber, TruckNumber, docks_at_order};
ghost use Rattle.table.specs.Held.{instance_of, stacks_of};
ghost use Rattle.table.specs.Filled.{item_most, truck_most, stack_most};

use fields::TRUCK;
use layout::{
    DOCK_COUNTS, DOCKS, EXTRA, HEAD_WORDS, INVENTORY, ITEM_COUNT, ITEM_WORDS, LOAD_COUNT,
    LOAD_FIRST, PLANT_DOCKS, PRODUCTS, STACK_COUNT, STACK_FIELDS, STACK_WORDS, SUPPLIER_DOCKS,
    SUPPLIERS, TRANSPORT, TRUCK_COUNT, TRUCK_WORDS,
};
use meaning::Limits;

pub mod fields;
pub mod filled;
pub mod layout;
pub mod named;

pub use filled::Table;
pub use named::NamedWords;

// ---- where the parts of the table begin

// The limits of document 01: 256 items, 16 trucks, 256 stacks, 256 load entries, files of 65,535 bytes.
pub fn small_limits() -> Limits
    ensures { (result ≡ small) × Bounded result }
{
    Limits {
        items: 256,
        trucks: 16,
        stacks: 256,
        loads: 256,
        bytes: 65535,
    }
}

// Every word becomes zero.
pub fn clear(words: &mut [u32])
    ensures { words.new ≡ replicate (length words.old) 0 }
{
    words.fill(0);
}

// ---- runs of words

// So many words from a place on.
fn words_from<'a>(words: &'a [u32], first: usize, count: usize) -> &'a [u32]
    requires { first + count ≤ length words.now }
    ensures { (result.now ≡ take count (drop first words.now)) × (length result.now ≡ count) }
{
    let end = first + count;
    &words[first..end]
}

// A list that stands behind its count.
fn counted<'a>(words: &'a [u32], at: usize) -> &'a [u32]
    requires { (at < length words.now) × (at + 1 + get_or words.now at 0 ≤ length words.now) }
    ensures { result.now ≡ take (get_or words.now at 0) (drop (at + 1) words.now) }
{
    words_from(words, at + 1, words[at] as usize)
}

// The docks of a supplier among the words of a truck, by the supplier's place in its line, from 0.
fn docks_at<'a>(words: &'a [u32], row: usize) -> &'a [u32]
    requires { (length words.now ≡ 160) × (row < 8) × (get_or words.now (62 + row) 0 ≤ 8) }
    ensures { result.now ≡ take (get_or words.now (62 + row) 0) (drop (70 + 8 * row) words.now) }
{
    let count = words[DOCK_COUNTS + row] as usize;
    words_from(words, DOCKS + SUPPLIER_DOCKS * row, count)
}

// ---- lists

// The place of an identifier in its line, from 0.
fn place_of(list: &[u32], identifier: u32) -> Option<usize>
    ensures { result ≡ position (λ listed. identifier == listed) list.now }
{
    list.iter().position(|listed| identifier == *listed)
}

// The place of an identifier in its line, from 1, which is its loading order; 0 where it is not listed. (No Option: 0 is the loading order of what is
// not listed, decision 13, and the rules compare it with others.)
pub fn order_in(list: &[u32], identifier: u32) -> usize
    ensures { (result ≡ order_in list.now identifier) × (result ≤ length list.now) }
{
    match place_of(list, identifier) {
        Some(place) => place + 1,
        None => 0,
    }
}

// Whether an identifier is in its line. The loop is not left early: without a branch the compiler compares several at once.
pub fn is_listed(list: &[u32], identifier: u32) -> bool
    ensures { result ≡ listed identifier list.now }
{
    let mut found = false;
    for listed in list {
        found |= identifier == *listed;
    }
    found
}

// ---- what a filled table holds. Coefficients, items, trucks and stacks, and the lists of a truck have functions of their own, each a line over words:
// they promise different parts of the model, by numbers from 1 or by places from 0, and one function for all would take a trait that says the
// part, its words, its bounds and how it is counted, which is longer than they are

impl<'a> Table<'a> {
    // The coefficient of the transport cost.
    #[tactic(auto, unfolding(meaning::specs::Table::instance_in))]
    pub fn transport_coefficient(self) -> u32
        ensures { (result ≡ (instance_of self.entry).αT) × (result ≤ 1000) }
    {
        self.named.words[TRANSPORT]
    }

    // The coefficient of the inventory cost.
    #[tactic(auto, unfolding(meaning::specs::Table::instance_in))]
    pub fn inventory_coefficient(self) -> u32
        ensures { (result ≡ (instance_of self.entry).αI) × (result ≤ 1000) }
    {
        self.named.words[INVENTORY]
    }

    // The coefficient of an extra truck's cost, in thousandths.
    #[tactic(auto, unfolding(meaning::specs::Table::instance_in))]
    pub fn extra_coefficient(self) -> u32
        ensures { (result ≡ (instance_of self.entry).αE) × (result ≤ 1000) }
    {
        self.named.words[EXTRA]
    }

    // How many items there are.
    #[tactic(auto, using(crate::proofs::Words::items_counted))]
    pub fn item_count(self) -> u32
        ensures { (result ≡ length (instance_of self.entry).items) × (1 ≤ result) × (result ≤ self.entry.named.limits.items) }
    {
        self.named.words[ITEM_COUNT]
    }

    // How many trucks there are.
    #[tactic(auto, using(crate::proofs::Words::trucks_counted))]
    pub fn truck_count(self) -> u32
        ensures { (result ≡ length (instance_of self.entry).trucks) × (1 ≤ result) × (result ≤ self.entry.named.limits.trucks) }
    {
        self.named.words[TRUCK_COUNT]
    }

    // How many stacks there are.
    #[tactic(auto, using(crate::proofs::Words::stacks_counted))]
    pub fn stack_count(self) -> usize
        ensures { (result ≡ length (stacks_of self.entry)) × (result ≤ self.entry.named.limits.stacks) }
    {
        self.named.words[STACK_COUNT] as usize
    }

    // A field of an item's line.
    pub fn item_field(self, n: u32, field: usize) -> u32
        requires { ItemNumber (instance_of self) n × (field < 16) }
        ensures { (result ≡ get_or (item (instance_of self.entry) n) field 0) × (result ≤ item_most field) }
    {
        let words = self.named.item(n);
        words[field]
    }

    // All fields of an item's line.
    pub fn item_fields(self, n: u32) -> &'a [u32]
        requires { ItemNumber (instance_of self) n }
        ensures { (result.now ≡ item (instance_of self.entry) n) × (length result.now ≡ 16) }
    {
        self.named.item(n)
    }

    // A field of a truck's line.
    pub fn truck_field(self, n: u32, field: usize) -> u32
        requires { TruckNumber (instance_of self) n × (field < 20) }
        ensures { (result ≡ get_or (truck_numbered (instance_of self.entry) n).fields field 0) × (result ≤ truck_most field) }
    {
        let words = self.named.truck(n);
        words[field]
    }

    // All fields of a truck's own line.
    pub fn truck_fields(self, n: u32) -> &'a [u32]
        requires { TruckNumber (instance_of self) n }
        ensures { (result.now ≡ (truck_numbered (instance_of self.entry) n).fields) × (length result.now ≡ 20) }
    {
        words_from(self.named.truck(n), 0, PRODUCTS)
    }

    // The products that a truck carries.
    pub fn products(self, n: u32) -> &'a [u32]
        requires { TruckNumber (instance_of self) n }
        ensures { (result.now ≡ (truck_numbered (instance_of self.entry) n).products) × (length result.now ≤ 32) }
    {
        counted(self.named.truck(n), PRODUCTS)
    }

    // The suppliers that a truck visits, in their loading order.
    pub fn suppliers(self, n: u32) -> &'a [u32]
        requires { TruckNumber (instance_of self) n }
        ensures { (result.now ≡ (truck_numbered (instance_of self.entry) n).suppliers) × (length result.now ≤ 8) }
    {
        counted(self.named.truck(n), SUPPLIERS)
    }

    // The docks of a truck's supplier, who is given by the loading order.
    pub fn docks(self, n: u32, supplier: usize) -> &'a [u32]
        requires { TruckNumber (instance_of self) n × (1 ≤ supplier)
            × (supplier ≤ length (truck_numbered (instance_of self) n).suppliers) }
        ensures { (result.now ≡ docks_at_order (truck_numbered (instance_of self.entry) n) supplier) × (length result.now ≤ 8) }
    {
        docks_at(self.named.truck(n), supplier - 1)
    }

    // The plant docks of a truck, in their loading order.
    pub fn plant_docks(self, n: u32) -> &'a [u32]
        requires { TruckNumber (instance_of self) n }
        ensures { (result.now ≡ (truck_numbered (instance_of self.entry) n).plant_docks) × (length result.now ≤ 8) }
    {
        counted(self.named.truck(n), PLANT_DOCKS)
    }

    // A field of a stack's line. Stacks go by their place in the file, from 0.
    pub fn stack_field(self, s: usize, field: usize) -> u32
        requires { (s < length (stacks_of self)) × (field < 6) }
        ensures { (result ≡ get_or (stack_at (stacks_of self.entry) s).fields field 0) × (result ≤ stack_most field) }
    {
        let words = self.named.stack(s);
        words[field]
    }

    // All fields of a stack's line.
    pub fn stack_fields(self, s: usize) -> &'a [u32]
        requires { s < length (stacks_of self) }
        ensures { (result.now ≡ (stack_at (stacks_of self.entry) s).fields) × (length result.now ≡ 6) }
    {
        words_from(self.named.stack(s), 0, STACK_FIELDS)
    }

    // The number of the truck that a stack is on.
    pub fn stack_truck(self, s: usize) -> u32
        requires { s < length (stacks_of self) }
        ensures { (result ≡ truck (stack_at (stacks_of self.entry) s))
            × TruckNumber (instance_of self.entry) result }
    {
        self.stack_field(s, TRUCK)
    }

    // The load of a stack: the numbers of its items, bottom first.
    pub fn load(self, s: usize) -> &'a [u32]
        requires { s < length (stacks_of self) }
        ensures { (result.now ≡ (stack_at (stacks_of self.entry) s).load) × LoadOfItems (instance_of self.entry) result.now }
    {
        let words = self.named.stack(s);
        let first = words[LOAD_FIRST] as usize;
        let count = words[LOAD_COUNT] as usize;
        words_from(self.named.loads(), first, count)
    }
}
