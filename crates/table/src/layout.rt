// Where a word stands in its part of the table, and where the parts begin, by document 01, "The working table". No other file of the code
// numbers a word.

ghost use Rattle.std.specs.Prelude.{◌≡◌};
ghost use Rattle.meaning.specs.Limits.{trucks_at, stacks_at, loads_at, named};
ghost use Rattle.table.specs.Filled.{Bounded};
ghost use Rattle.table.specs.Props.{bounded_prop};

use meaning::Limits;

// ---- the head
pub const TRANSPORT: usize = 0;

pub const INVENTORY: usize = 1;

pub const EXTRA: usize = 2;

pub const ITEM_COUNT: usize = 3;

pub const TRUCK_COUNT: usize = 4;

pub const STACK_COUNT: usize = 5;

pub const HEAD_WORDS: usize = 16;

// ---- an item: its fields
pub const ITEM_WORDS: usize = 16;

// ---- a truck: its fields, then lists. Products, suppliers and plant docks stand behind their count
pub const PRODUCTS: usize = 20;

pub const SUPPLIERS: usize = 53;

pub const DOCK_COUNTS: usize = 62;

pub const DOCKS: usize = 70;

pub const SUPPLIER_DOCKS: usize = 8; // words for the docks of each supplier

pub const PLANT_DOCKS: usize = 134;

pub const BEHIND_DOCKS: usize = 143; // the words from here on belong to no line

pub const TRUCK_WORDS: usize = 160;

// ---- a stack: its fields, then where its load begins among the loads and how many entries it has
pub const STACK_FIELDS: usize = 6;

pub const LOAD_FIRST: usize = 6;

pub const LOAD_COUNT: usize = 7;

pub const STACK_WORDS: usize = 8;

// ---- the parts, one behind the other
// Where the parts of a table begin, for limits within the bounds that no sum overflows.
#[derive(Clone, Copy)]
pub struct Layout {
    pub limits: Limits,
    pub ghost bounded: { Bounded limits } by { bounded_prop limits },
}

impl Layout {
    // The first word of the trucks, behind the head's 16 words and the items.
    pub fn trucks_at(self) -> usize
        ensures { result ≡ trucks_at self.limits }
    {
        HEAD_WORDS + ITEM_WORDS * self.limits.items
    }

    // The first word of the stacks, behind the trucks.
    pub fn stacks_at(self) -> usize
        ensures { result ≡ stacks_at self.limits }
    {
        self.trucks_at() + TRUCK_WORDS * self.limits.trucks
    }

    // The first word of the loads, behind the stacks.
    pub fn loads_at(self) -> usize
        ensures { result ≡ loads_at self.limits }
    {
        self.stacks_at() + STACK_WORDS * self.limits.stacks
    }

    // How many words are named.
    pub fn named_words(self) -> usize
        ensures { result ≡ named self.limits }
    {
        self.loads_at() + self.limits.loads
    }
}
