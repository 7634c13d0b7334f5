// Rule 9, and the rules whose test looks at one stack alone: those on its items, 10 to 15 and 18, and 16 and 19 to 22. One walk over the
// stacks tells the first of them that is broken.
#![tactic(auto)]

ghost use Rattle.std.specs.Prelude.{[], ◌≡◌, ◌↔◌, true, not, cond, ◌∷◌, ◌+◌, ◌*◌, ◌≤◌, ◌<◌, leb, eqb, length, get_or};
ghost use Rattle.meaning.specs.Measures.{bottom};
ghost use Rattle.meaning.specs.Rules.{not_once, plant_matches, product_carried, supplier_visited, arrives_in_window, docks_served};
ghost use Rattle.meaning.specs.Rules.{stackable, orientation_kept};
ghost use Rattle.table.specs.Filled.{ItemNumber};
ghost use Rattle.search.specs.Lowest.{lowest_in};
ghost use Rattle.rules.specs.declared.Rule.TheVariants.{OfStacks};
ghost use Rattle.rules.specs.LoadingRules.{item_test, rule_count, rule_at};
ghost use Rattle.stackrules.specs.StackRules.{every_item_test, own_places, OwnRulesKept, with_item, FirstOf, FirstOnStacks};
ghost use Rattle.stackrules.specs.StackRules.{RowOfStack, Countable, Counted, Tally};
ghost use Rattle.stackrules.specs.Loaded.{listed_stack, stack_of, item_of};
ghost use Rattle.table.specs.Held.{instance_of, stacks_of};

use listed_stack::ListedStack;
use loaded_item::LoadedItem;
use manifest::{Manifest, Row};
use meaning::Place;
use rules::{ItemRule, OwnRule, RULES, Rule, StackRule, rule_at};
use search::{lower_of, place_if};
use table::fields::{
    IDE, IDL, IK, IL, IM, IO, IP, IR, IS, ISM, IU, IW, NUMBER, ORIENTATION, TDA, TEM, TF, TH, TL,
    TOP_LIMIT, TP, TW,
};
use table::{Table, clear, is_listed};
use views::{
    StackLoad, bottom_field, plant_dock_order, stack_truck_field, supplier_dock_order,
    supplier_order,
};

mod listed_stack;
mod loaded_item;

// ---- 9, not once

// Counts the items of a load, besides what was counted before. The count of item 1 comes first.
fn count_load(items: &[u32], times: &mut [u32])
    requires { Countable items.now times.old }
    ensures { Counted items.now times.old times.new }
{
    for n in items {
        times[*n as usize - 1] += 1;
    }
}

// How often each item is loaded.
fn count_items(table: Table<'_>, times: &mut [u32])
    requires { length (instance_of table).items ≤ length times.old }
    ensures { Tally (length (instance_of table.entry).items) (stacks_of table.entry) times.new }
{
    clear(times);
    for s in (0..table.stack_count()).rev() {
        count_load(table.load(s), times);
    }
}

// 9 not once: the lowest item that is not loaded once, and how often it is. The walk is over places, since the number of an item is told, and
// the lent counts may be longer than the items.
pub fn lowest_not_once(table: Table<'_>, times: &mut [u32]) -> Option<Place>
    requires { length (instance_of table).items ≤ length times.old }
    ensures { result ≡ lowest_in (not_once (instance_of table.entry) (stacks_of table.entry)) }
{
    count_items(table, times);
    let mut found = None;
    for at in (0..table.item_count()).rev() {
        let count = times[at as usize];
        found = lower_of(place_if(count != 1, at + 1, count, 0), found);
    }
    found
}

// ---- the rules on each item of a stack: 10 to 15 and 18

impl<'a> LoadedItem<'a> {
    // 10 plant, I2: the truck goes to the item's plant.
    fn plant_matches(self) -> bool
        ensures { result ≡ plant_matches (instance_of self.entry.table) (stack_of self.entry) (item_of self.entry) }
    {
        self.table.item_field(self.number, IP) == stack_truck_field(self.table, self.place, TP)
    }

    // 11 product, I3: the truck takes the item's product.
    fn product_carried(self) -> bool
        ensures { result ≡ product_carried (instance_of self.entry.table) (stack_of self.entry) (item_of self.entry) }
    {
        let list = self.table.products(self.table.stack_truck(self.place));
        is_listed(list, self.table.item_field(self.number, IR))
    }

    // 12 supplier, I4: the truck stops at the item's supplier.
    fn supplier_visited(self) -> bool
        ensures { result ≡ supplier_visited (instance_of self.entry.table) (stack_of self.entry) (item_of self.entry) }
    {
        let truck = self.table.stack_truck(self.place);
        1 <= supplier_order(self.table, truck, self.table.item_field(self.number, IU))
    }

    // 13 day, I5: the truck arrives within the item's days.
    fn arrives_in_window(self) -> bool
        ensures { result ≡ arrives_in_window (instance_of self.entry.table) (stack_of self.entry) (item_of self.entry) }
    {
        let day = stack_truck_field(self.table, self.place, TDA);
        (self.table.item_field(self.number, IDE) <= day)
            & (day <= self.table.item_field(self.number, IDL))
    }

    // 14 dock: both docks of the item are listed.
    fn docks_served(self) -> bool
        ensures { result ≡ docks_served (instance_of self.entry.table) (stack_of self.entry) (item_of self.entry) }
    {
        let truck = self.table.stack_truck(self.place);
        (1 <= supplier_dock_order(self.table, truck, self.number))
            & (1 <= plant_dock_order(self.table, truck, self.number))
    }

    // Whether an item has the bottom item's value in a field.
    fn matches_bottom(self, field: usize) -> bool
        requires { field < 16 }
        ensures { result ≡ eqb (get_or (item_of self.entry) field 0)
            (get_or (bottom (instance_of self.entry.table) (stack_of self.entry)) field 0) }
    {
        self.table.item_field(self.number, field) == bottom_field(self.table, self.place, field)
    }

    // 15 mixed, S1: supplier, plant, code, maximal stackability and supplier dock are the bottom item's.
    fn is_stackable(self) -> bool
        ensures { result ≡ stackable (instance_of self.entry.table) (stack_of self.entry) (item_of self.entry) }
    {
        (((self.matches_bottom(IU) & self.matches_bottom(IP)) & self.matches_bottom(IS))
            & self.matches_bottom(ISM))
            & self.matches_bottom(IK)
    }

    // 18 turned, S4: a forced orientation is the stack's. Both are numbers of the file (document 01), of which 0 forces none; they are
    // compared here alone.
    fn orientation_kept(self) -> bool
        ensures { result ≡ orientation_kept (instance_of self.entry.table) (stack_of self.entry) (item_of self.entry) }
    {
        let forced = self.table.item_field(self.number, IO);
        (forced == 0) | (forced == self.table.stack_field(self.place, ORIENTATION))
    }

    // Whether an item of a stack keeps a rule.
    fn keeps(self, rule: ItemRule) -> bool
        ensures { result ≡ item_test rule (instance_of self.entry.table) (stack_of self.entry) (item_of self.entry) }
    {
        match rule {
            ItemRule::Plant => self.plant_matches(),
            ItemRule::Product => self.product_carried(),
            ItemRule::Supplier => self.supplier_visited(),
            ItemRule::Day => self.arrives_in_window(),
            ItemRule::Dock => self.docks_served(),
            ItemRule::Mixed => self.is_stackable(),
            ItemRule::Turned => self.orientation_kept(),
        }
    }

    // Whether an item of a stack keeps every rule on items. All are asked without a branch, beside `keeps`, which asks one: most items keep
    // them all, and are told so faster (decision 89 in docs/DECISIONS.md).
    fn keeps_rules(self) -> bool
        ensures { result ≡ every_item_test (instance_of self.entry.table) (stack_of self.entry) (item_of self.entry) }
    {
        (((((self.plant_matches() & self.product_carried()) & self.supplier_visited())
            & self.arrives_in_window())
            & self.docks_served())
            & self.is_stackable())
            & self.orientation_kept()
    }
}

// ---- the rules on the stack itself: 16 and 19 to 22. Each method of a listed stack answers where it breaks its rule

// Whether a stack of this weight in kilograms keeps the density limit, in kilograms per square metre, on this ground in square millimetres.
fn density_kept(weight: u32, limit: u32, length: u32, width: u32) -> bool
    requires { (weight ≤ 3200000) × (limit ≤ 100000) × (length ≤ 20000) × (width ≤ 20000) }
    ensures { result ≡ leb (weight * 1000000) (limit * length * width) }
{
    (weight as u64) * 1000000 <= (limit as u64) * (length as u64) * (width as u64)
}

// The lowest dimension that does not fit: 1 length, 2 width, 3 height. The two tests say whether length and width fit. Document 01 numbers
// the dimensions as the answer's second place, and they are told here alone: an enum would be made and turned into its number at once.
fn exceeded_side(length: bool, width: bool) -> u32
    ensures { result ≡ cond (not length) 1 (cond (not width) 2 3) }
{
    if !length {
        return 1;
    }
    if !width {
        return 2;
    }
    3
}

impl<'a> ListedStack<'a> {
    // Its row, with what the table has of it.
    fn row(self) -> Row
        ensures { RowOfStack (instance_of self.entry.manifest.table) (stacks_of self.entry.manifest.table) self.entry.at result }
    {
        self.manifest.rows[self.at]
    }

    // 16 docks, S2 and S3: one plant dock; where the truck's flag is set also two, if they are consecutive. A set flag is the
    // file's 1 (document 01), which is read here alone.
    fn docks_place(self) -> Option<Place>
        ensures { result ≡ lowest_in (own_places OwnRule.Docks (instance_of self.entry.manifest.table) (listed_stack self.entry)) }
    {
        let row = self.row();
        let count = row.plant_docks;
        let two_docks = self.manifest.table.truck_field(row.truck, TF) == 1;
        let consecutive = (count == 2) & (row.rank.lowest + 1 == row.rank.highest);
        let allowed = (count <= 1) | (two_docks & consecutive);
        place_if(!allowed, row.number, count, 0)
    }

    // 19 top heavy, S5: the weight above the bottom item is within the truck's limit.
    fn top_heavy_place(self) -> Option<Place>
        ensures { result ≡ lowest_in (own_places OwnRule.TopHeavy (instance_of self.entry.manifest.table) (listed_stack self.entry)) }
    {
        let row = self.row();
        let load = StackLoad {
            table: self.manifest.table,
            items: self.manifest.table.load(row.index as usize),
        };
        let above = load.sum(1, IM);
        let within = above <= self.manifest.table.truck_field(row.truck, TOP_LIMIT);
        place_if(!within, row.number, above, 0)
    }

    // 20 too many, S6: no more items than the maximal stackability.
    fn too_many_place(self) -> Option<Place>
        ensures { result ≡ lowest_in (own_places OwnRule.TooMany (instance_of self.entry.manifest.table) (listed_stack self.entry)) }
    {
        let row = self.row();
        let items = self.manifest.table.load(row.index as usize);
        let count = items.len() as u32;
        let within = count <= self.manifest.table.item_field(items[0], ISM);
        place_if(!within, row.number, count, 0)
    }

    // 21 dense, S7: the weight on the ground is within the truck's density limit.
    fn dense_place(self) -> Option<Place>
        ensures { result ≡ lowest_in (own_places OwnRule.Dense (instance_of self.entry.manifest.table) (listed_stack self.entry)) }
    {
        let row = self.row();
        let s = row.index as usize;
        let length = bottom_field(self.manifest.table, s, IL);
        let width = bottom_field(self.manifest.table, s, IW);
        let limit = self.manifest.table.truck_field(row.truck, TEM);
        let kept = density_kept(row.weight, limit, length, width);
        place_if(!kept, row.number, row.weight, 0)
    }

    // 22 outside, P1: the stack is within the trailer.
    fn outside_place(self) -> Option<Place>
        ensures { result ≡ lowest_in (own_places OwnRule.Outside (instance_of self.entry.manifest.table) (listed_stack self.entry)) }
    {
        let row = self.row();
        let load = StackLoad {
            table: self.manifest.table,
            items: self.manifest.table.load(row.index as usize),
        };
        let size = load.size();
        let within_length = row.footprint.xe <= self.manifest.table.truck_field(row.truck, TL);
        let within_width = row.footprint.ye <= self.manifest.table.truck_field(row.truck, TW);
        let within_height = size.height <= self.manifest.table.truck_field(row.truck, TH);
        let inside = (within_length & within_width) & within_height;
        let side = exceeded_side(within_length, within_width);
        place_if(!inside, row.number, side, 0)
    }

    // Where the stack breaks a rule on itself.
    fn own_place(self, rule: OwnRule) -> Option<Place>
        ensures { result ≡ lowest_in (own_places rule (instance_of self.entry.manifest.table) (listed_stack self.entry)) }
    {
        match rule {
            OwnRule::Docks => self.docks_place(),
            OwnRule::TopHeavy => self.top_heavy_place(),
            OwnRule::TooMany => self.too_many_place(),
            OwnRule::Dense => self.dense_place(),
            OwnRule::Outside => self.outside_place(),
        }
    }

    // Whether the stack keeps every rule on the stack itself. All are asked without a branch, beside `own_place`, which asks one, since most
    // stacks keep them all (decision 89 in docs/DECISIONS.md).
    fn own_rules_kept(self) -> bool
        ensures { (result ≡ true) ↔ OwnRulesKept (instance_of self.entry.manifest.table) (listed_stack self.entry) }
    {
        let docks = self.docks_place().is_none();
        let top = self.top_heavy_place().is_none();
        let count = self.too_many_place().is_none();
        let density = self.dense_place().is_none();
        let ground = self.outside_place().is_none();
        (((docks & top) & count) & density) & ground
    }
}

// ---- the first rule on stacks that is broken

// A broken rule by its rank, and a place where it is broken. Of two breaches the sooner is the lower: that of the lower rank, and of one
// rule the lower place.
#[derive(Clone, Copy, PartialEq, Eq, PartialOrd, Ord)]
pub struct Breach {
    pub rank: usize,
    pub place: Place,
}

impl<'a> ListedStack<'a> {
    // Where the stack breaks a rule on itself, or with its item n a rule on items.
    fn stack_place(self, rule: StackRule, n: u32) -> Option<Place>
        requires { ItemNumber (instance_of self.manifest.table) n }
        ensures { result ≡ lowest_in (with_item (instance_of self.entry.manifest.table) (listed_stack self.entry) n (OfStacks rule)) }
    {
        match rule {
            StackRule::EachItem(each) => {
                let row = self.row();
                let item = LoadedItem {
                    table: self.manifest.table,
                    place: row.index as usize,
                    number: n,
                };
                place_if(!item.keeps(each), row.number, n, 0)
            }
            StackRule::Own(own) => self.own_place(own),
        }
    }

    // The same for the rule of a rank; a rule on pairs or on trucks has no place here.
    fn rank_place(self, rank: usize, n: u32) -> Option<Place>
        requires { ItemNumber (instance_of self.manifest.table) n × (rank < rule_count) }
        ensures { result ≡ lowest_in (with_item (instance_of self.entry.manifest.table) (listed_stack self.entry) n (rule_at rank)) }
    {
        let rule = rule_at(rank);
        match rule {
            Rule::OfStacks(each) => self.stack_place(each, n),
            Rule::OfPairs(_) => None,
            Rule::OfTrucks(_) => None,
        }
    }

    // The first rule that the stack breaks by itself or with its item n. The walk is over ranks, since the rank is told.
    fn breach_with_item(self, n: u32) -> Option<Breach>
        requires { ItemNumber (instance_of self.manifest.table) n }
        ensures { FirstOf (with_item (instance_of self.entry.manifest.table) (listed_stack self.entry) n) result }
    {
        for rank in 0..RULES {
            if let Some(place) = self.rank_place(rank, n) {
                return Some(Breach { rank, place });
            }
        }
        None
    }

    // The first rule on stacks that the stack breaks, with its lowest place there. No rule is asked by itself where all are kept,
    // as they mostly are.
    fn breach(self) -> Option<Breach>
        ensures { FirstOnStacks (instance_of self.entry.manifest.table) (listed_stack self.entry ∷ []) result }
    {
        let own = self.own_rules_kept();
        let s = self.row().index as usize;
        let items = self.manifest.table.load(s);
        let mut first = None;
        for n in items.iter().rev() {
            let item = LoadedItem {
                table: self.manifest.table,
                place: s,
                number: *n,
            };
            if !(own & item.keeps_rules()) {
                first = lower_of(self.breach_with_item(*n), first);
            }
        }
        first
    }
}

// The first rule on stacks that the plan breaks, with its lowest place.
pub fn first_on_stacks(manifest: Manifest<'_>) -> Option<Breach>
    ensures { FirstOnStacks (instance_of manifest.entry.table) (stacks_of manifest.entry.table) result }
{
    let mut first = None;
    for k in (0..manifest.table.stack_count()).rev() {
        first = lower_of(ListedStack { manifest, at: k }.breach(), first);
    }
    first
}
