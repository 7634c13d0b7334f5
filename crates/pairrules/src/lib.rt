// The rules on two stacks of one used truck: 17 second pair, 23 overlap, 25 order; and the contact of two stacks, by which 24 is told. The
// rows hold the stacks of a used truck together, by ascending number.
#![tactic(auto)]

ghost use Rattle.std.specs.Prelude.{[], ◌≡◌, ◌↔◌, true, ℕ, ◌+◌, ◌-◌, ◌≤◌, ◌<◌, length};
ghost use Rattle.std.specs.Fn.{FnReturnsAt};
ghost use Rattle.meaning.specs.Rules.{pair_places, single_pair};
ghost use Rattle.search.specs.Lowest.{lowest_in};
ghost use Rattle.rules.specs.LoadingRules.{pair_test};
ghost use Rattle.manifest.specs.declared.row.Row.{Row};
ghost use Rattle.manifest.specs.Manifest.{manifest_at, block, OneTruck};
ghost use Rattle.pairrules.specs.PairRules.{disjoint_footprints, least_footprint_edge, footprints_in_contact, ranks_before, in_order_at};
ghost use Rattle.pairrules.specs.PairRules.{Each, Tells, SortedRows, whole_plan, BlockOf, KnownBlock, first_partner};
ghost use Rattle.table.specs.Held.{instance_of, stacks_of};

use manifest::{Block, Manifest, Row, sort, truck_end, truck_start};
use meaning::Place;
use rules::PairRule;
use table::fields::IS;
use views::{Footprint, Rank, bottom_field};

// ---- the tests

// 17 second pair, S3: two stacks of one code do not both have two plant docks. Codes are read for two-dock stacks only.
fn is_single_pair(manifest: Manifest<'_>, a: usize, b: usize) -> bool
    requires { (a < length (stacks_of manifest.table)) × (b < length (stacks_of manifest.table)) }
    ensures { result ≡ single_pair (instance_of manifest.entry.table) (manifest_at (stacks_of manifest.entry.table) a)
        (manifest_at (stacks_of manifest.entry.table) b) }
{
    if manifest.rows[a].plant_docks != 2 {
        return true;
    }
    if manifest.rows[b].plant_docks != 2 {
        return true;
    }
    let code = bottom_field(manifest.table, manifest.rows[a].index as usize, IS);
    code != bottom_field(manifest.table, manifest.rows[b].index as usize, IS)
}

// 23 overlap, P2: two stacks are disjoint along the trailer or across it.
pub fn disjoint(a: Footprint, b: Footprint) -> bool
    ensures { result ≡ disjoint_footprints a b }
{
    (((a.xe <= b.x) | (b.xe <= a.x)) | (a.ye <= b.y)) | (b.ye <= a.y)
}

// An edge of so many millimetres is long enough between any two stacks.
const LONG_EDGE: u32 = 100;

// How long the common edge of two stacks in contact is at least: as long as the narrower is wide across the trailer where that is below 100.
fn least_edge(a: Footprint, b: Footprint) -> u32
    requires { (a.y ≤ a.ye) × (b.y ≤ b.ye) }
    ensures { result ≡ least_footprint_edge a b }
{
    LONG_EDGE.min((a.ye - a.y).min(b.ye - b.y))
}

// 24 unbraced, P3: whether the second stack ends where the first begins, in contact with it: the common part of their y ranges is an edge that
// is long enough. Few stacks end there, so this is asked first.
pub fn in_contact(a: Footprint, b: Footprint) -> bool
    requires { (a.y ≤ a.ye) × (b.y ≤ b.ye) }
    ensures { result ≡ footprints_in_contact a b }
{
    if b.xe != a.x {
        return false;
    }
    a.y.max(b.y) + least_edge(a, b) <= a.ye.min(b.ye)
}

// 25 order, P4: the three cases in which the stack of the first rank must have x no greater than the other.
fn loads_before(a: Rank, b: Rank) -> bool
    ensures { result ≡ ranks_before a b }
{
    let earlier = a.supplier_order < b.supplier_order;
    if a.supplier != b.supplier {
        return earlier;
    }
    (earlier | (a.dock_order < b.dock_order))
        | (((a.dock == b.dock) & (a.highest <= b.lowest)) & !(b.highest <= a.lowest))
}

// 25 order, P4. The cheap comparison comes first: ranks are compared only where the first stack stands behind the second.
pub fn in_loading_order(rows: &[Row], a: usize, b: usize) -> bool
    requires { (a < length rows.now) × (b < length rows.now) }
    ensures { result ≡ in_order_at rows.now a b }
{
    if rows[a].footprint.x <= rows[b].footprint.x {
        return true;
    }
    !loads_before(rows[a].rank, rows[b].rank)
}

// Whether the stacks at two places keep a rule.
fn pair_kept(rule: PairRule, manifest: Manifest<'_>, a: usize, b: usize) -> bool
    requires { (a < length (stacks_of manifest.table)) × (b < length (stacks_of manifest.table)) }
    ensures { result ≡ pair_test rule (instance_of manifest.entry.table) (manifest_at (stacks_of manifest.entry.table) a)
        (manifest_at (stacks_of manifest.entry.table) b) }
{
    match rule {
        PairRule::SecondPair => is_single_pair(manifest, a, b),
        PairRule::Overlap => disjoint(manifest.rows[a].footprint, manifest.rows[b].footprint),
        PairRule::Order => in_loading_order(manifest.rows, a, b),
    }
}

// ---- 17 on one used truck

// Whether the stack at place a keeps 17 with each behind it, up to `end`. Most stacks do not have two plant docks: they keep it with any.
fn is_single_behind(manifest: Manifest<'_>, a: usize, end: usize) -> bool
    requires { (a < end) × (end ≤ length (stacks_of manifest.table)) }
    ensures { (result ≡ true) ↔ Each (λ b. single_pair (instance_of manifest.entry.table) (manifest_at (stacks_of manifest.entry.table) a)
        (manifest_at (stacks_of manifest.entry.table) b) ≡ true) (a + 1) end }
{
    if manifest.rows[a].plant_docks != 2 {
        return true;
    }
    for b in a + 1..end {
        if !is_single_pair(manifest, a, b) {
            return false;
        }
    }
    true
}

// Whether no two stacks of a used truck break 17.
pub fn keeps_single_pair(manifest: Manifest<'_>, on: Block) -> bool
    requires { OneTruck (stacks_of manifest.table) on.start on.end }
    ensures { (result ≡ true) ↔ (pair_places single_pair (instance_of manifest.entry.table)
        (block (stacks_of manifest.entry.table) on.start on.end) ≡ []) }
{
    for a in on.start..on.end {
        if !is_single_behind(manifest, a, on.end) {
            return false;
        }
    }
    true
}

// ---- the search over the whole plan

// The places of a block by ascending field of their rows, counted from the block's start. The keys are scratch.
pub fn order_by<F: Fn(&Row) -> u32>(
    rows: &[Row],
    on: Block,
    field: F,
    keys: &mut [u64],
    order: &mut [u32],
)
    requires room { (on.start ≤ on.end) × (on.end ≤ length rows.now) × (on.end - on.start ≤ 16777216)
        × (on.end - on.start ≤ length keys.old) × (on.end - on.start ≤ length order.old) }
    requires field { (row : _) → F.pre field row }
    ensures sorted { (key : Row → ℕ) → Tells (FnReturnsAt F.Fn field) key → SortedRows rows.now on key order.new }
    ensures lengths { (length keys.new ≡ length keys.old) × (length order.new ≡ length order.old) }
{
    let count = on.end - on.start;
    for (k, row) in rows[on.start..on.end].iter().enumerate() {
        keys[k] = field(row) as u64;
    }
    sort(&keys[..count], &mut order[..count]);
}

// The stacks on the used truck of the stack at place a. Where it is on the truck that the search was at, these are known.
fn block_at(rows: &[Row], a: usize, count: usize, on: Block) -> Block
    requires { (a < count) × (count ≤ length rows.now) × KnownBlock rows.now count on }
    ensures { BlockOf rows.now a count result }
{
    if (on.start <= a) & (a < on.end) {
        return on;
    }
    Block {
        start: truck_start(rows, a + 1),
        end: truck_end(rows, a, count),
    }
}

// Where the partners begin that the stack at place a is asked with. 17 and 23 are the same for two stacks in both orders, so of a partner
// before it they have been asked already. 25 is asked both ways; it holds of a stack with itself, so that pair need not be left out.
fn first_partner(rule: PairRule, a: usize, on: Block) -> usize
    requires { a < on.end }
    ensures { result ≡ first_partner rule a on.start }
{
    match rule {
        PairRule::SecondPair => a + 1,
        PairRule::Overlap => a + 1,
        PairRule::Order => on.start,
    }
}

// The pair with the lowest first stack number, then the lowest second, that breaks a rule. The stacks are taken by ascending number, and so
// are the partners of each on its used truck, so the first pair found is the lowest.
pub fn first_pair(rule: PairRule, manifest: Manifest<'_>, by_number: &[u32]) -> Option<Place>
    requires { SortedRows manifest.rows.now (whole_plan (length (stacks_of manifest.table))) (λ (r : Row). r.number) by_number.now }
    ensures { result ≡ lowest_in (pair_places (pair_test rule) (instance_of manifest.entry.table) (stacks_of manifest.entry.table)) }
{
    let count = manifest.table.stack_count();
    let mut found = None;
    let mut on = Block { start: 0, end: 0 };
    'search: for place in &by_number[..count] {
        let a = *place as usize;
        on = block_at(manifest.rows, a, count, on);
        for b in first_partner(rule, a, on)..on.end {
            if !pair_kept(rule, manifest, a, b) {
                found = Some(Place {
                    first: manifest.rows[a].number,
                    second: manifest.rows[b].number,
                    third: 0,
                });
                break 'search;
            }
        }
    }
    found
}
