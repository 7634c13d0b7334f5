// The verdict on a plan that was read: the first broken rule of the verdict table with its lowest place, or the cost and the number of used
// trucks. Rule 9 is asked first; the others are the loading rules, whose order is told by their ranks.
#![tactic(auto)]

ghost use Rattle.std.specs.Prelude.{◌≡◌, ◌↔◌, true, [], ◌+◌, ◌-◌, ◌*◌, ◌≤◌, ◌<◌, length};
ghost use Rattle.meaning.specs.Measures.{used_by, used_trucks};
ghost use Rattle.meaning.specs.Rules.{loading_rules};
ghost use Rattle.meaning.specs.Verdict.{refusal, acceptance, first_broken, transport_cost, cost, verdict_on};
ghost use Rattle.search.specs.Lowest.{lowest_in};
ghost use Rattle.rules.specs.LoadingRules.{verdict_of, rule_places, rule_count};
ghost use Rattle.rules.specs.declared.Rule.TheVariants.{OfPairs};
ghost use Rattle.manifest.specs.Manifest.{manifest_at, block, OneTruck};
ghost use Rattle.judging.specs.Judging.{with_rule, AskedBelow, joined, TellsAsked, CountsTrucks};
ghost use Rattle.judging.specs.Judging.{pair_kept, truck_found, kept_by, all_kept, FirstRank, told_rank, stack_found, SurveyOf, place_in};
ghost use Rattle.stackrules.specs.StackRules.{rank_of};
ghost use Rattle.table.specs.Held.{instance_of, stacks_of};

use axles::{WeightPlaces, truck_weights};
use costs::{plan_cost, truck_cost};
use manifest::{Block, Manifest, Row, truck_start, write_manifest};
use meaning::{Answer, Place};
use pairrules::{first_pair, keeps_single_pair, order_by};
use placement::{Placement, truck_placement};
use rules::{NOT_ONCE, PairRule, RULES, Rule, TruckRule, rule_at};
use search::lower_of;
use stackrules::{Breach, first_on_stacks, lowest_not_once};
use table::Table;

// ---- what is asked of the used trucks

// The kinds of rules that are asked of the used trucks. They are flags and not one kind, since several kinds are asked in one walk.
#[derive(Clone, Copy)]
struct Asked {
    single_pair: bool, // 17
    placement: bool, // 23 to 25
    weights: bool, // 26 to 28
}

// What is asked, and the kind of one rule besides. A rule on single stacks is not asked of the used trucks.
fn with_rule(asked: Asked, rule: Rule) -> Asked
    ensures { result ≡ with_rule asked rule }
{
    match rule {
        Rule::OfStacks(_) => asked,
        Rule::OfPairs(PairRule::SecondPair) => Asked {
            single_pair: true,
            ..asked
        },
        Rule::OfPairs(PairRule::Overlap | PairRule::Order) | Rule::OfTrucks(TruckRule::Unbraced) =>
            Asked {
                placement: true,
                ..asked
            },
        Rule::OfTrucks(TruckRule::Overload | TruckRule::Middle | TruckRule::Rear) => Asked {
            weights: true,
            ..asked
        },
    }
}

// The kinds of the rules below a rank. A rule that comes later need not be asked where one of that rank is broken. Most plans break none on
// single stacks, and then everything is asked. Ranks are counted here, and the list of the rules is not walked: a rank is what is told.
fn kinds_below(rank: usize) -> Asked
    requires { rank ≤ rule_count }
    ensures { AskedBelow rank result }
{
    if rank == RULES {
        return Asked {
            single_pair: true,
            placement: true,
            weights: true,
        };
    }
    let mut asked = Asked {
        single_pair: false,
        placement: false,
        weights: false,
    };
    for k in 0..rank {
        asked = with_rule(asked, rule_at(k));
    }
    asked
}

// ---- what the used trucks answer

// The used trucks of a plan: how many, and what they cost together in thousandths.
#[derive(Clone, Copy)]
struct UsedTrucks {
    count: u32,
    cost: u64,
}

// What the used trucks keep and break, of the kinds that were asked. What was not asked is held for kept: so the findings of two parts join
// field by field, by `&` and the lower place, whatever was asked. What was asked is in `Asked` alone.
#[derive(Clone, Copy)]
struct Findings {
    single_pair: bool, // 17 is kept
    placement: Placement, // 23 and 25 are kept, and where 24 is broken
    weights: WeightPlaces, // where 26 to 28 are broken
}

// All that a walk over the used trucks tells.
#[derive(Clone, Copy)]
struct TrucksAsked {
    found: Findings,
    used: UsedTrucks,
}

// What no used truck breaks.
const ALL_KEPT: Findings = Findings {
    single_pair: true,
    placement: Placement {
        apart: true,
        in_order: true,
        unbraced: None,
    },
    weights: WeightPlaces {
        overload: None,
        middle: None,
        rear: None,
    },
};

// The findings on two parts of a plan that share no used truck.
fn joined(a: Findings, b: Findings) -> Findings
    ensures { result ≡ joined a b }
{
    Findings {
        single_pair: a.single_pair & b.single_pair,
        placement: Placement {
            apart: a.placement.apart & b.placement.apart,
            in_order: a.placement.in_order & b.placement.in_order,
            unbraced: lower_of(a.placement.unbraced, b.placement.unbraced),
        },
        weights: WeightPlaces {
            overload: lower_of(a.weights.overload, b.weights.overload),
            middle: lower_of(a.weights.middle, b.weights.middle),
            rear: lower_of(a.weights.rear, b.weights.rear),
        },
    }
}

// What one used truck keeps and breaks, of the kinds that are asked. The keys and the places along the trailer are scratch.
// (That the block is a used truck stays a clause: with a struct that keeps it, a load whose last pair overlaps took 1.03 to 1.07 times as long.)
fn ask_truck(
    asked: Asked,
    manifest: Manifest<'_>,
    on: Block,
    keys: &mut [u64],
    along: &mut [u32],
) -> Findings
    requires { OneTruck (stacks_of manifest.table) on.start on.end × (length (stacks_of manifest.table) ≤ length keys.old) × (length (stacks_of manifest.table) ≤ length along.old) }
    ensures told { TellsAsked asked (instance_of manifest.entry.table) (block (stacks_of manifest.entry.table) on.start on.end) result }
    ensures lengths { (length keys.new ≡ length keys.old) × (length along.new ≡ length along.old) }
{
    let single_pair = if asked.single_pair {
        keeps_single_pair(manifest, on)
    } else {
        ALL_KEPT.single_pair
    };
    let placement = if asked.placement {
        truck_placement(manifest.rows, on, keys, along)
    } else {
        ALL_KEPT.placement
    };
    let weights = if asked.weights {
        truck_weights(manifest, on)
    } else {
        ALL_KEPT.weights
    };
    Findings {
        single_pair,
        placement,
        weights,
    }
}

// The used trucks with one more, whose stacks begin at place `start`.
fn with_truck(used: UsedTrucks, manifest: Manifest<'_>, start: usize) -> UsedTrucks
    requires { (start < length (stacks_of manifest.table)) × (used.count ≤ 2097152) × (used.cost ≤ 4194304000000000) }
    ensures { (result.count ≡ used.count + 1) × (result.cost ≡ transport_cost (instance_of manifest.entry.table)
        (used_by (manifest_at (stacks_of manifest.entry.table) start)) + used.cost) × (result.cost ≤ used.cost + 2000000000) }
{
    let row = manifest.rows[start];
    UsedTrucks {
        count: used.count + 1,
        cost: truck_cost(manifest.table, row.truck, row.copy) + used.cost,
    }
}

// The used trucks, from the last to the first, each asked once for all that is asked. The walk goes from block to block, so that no range
// counts it. The keys and the places along the trailer are scratch.
fn ask_trucks(
    asked: Asked,
    manifest: Manifest<'_>,
    keys: &mut [u64],
    along: &mut [u32],
) -> TrucksAsked
    requires { (length (stacks_of manifest.table) ≤ length keys.old) × (length (stacks_of manifest.table) ≤ length along.old) }
    ensures told { TellsAsked asked (instance_of manifest.entry.table) (stacks_of manifest.entry.table) result.found
        × CountsTrucks (instance_of manifest.entry.table) (stacks_of manifest.entry.table) result.used.count result.used.cost }
    ensures lengths { (length keys.new ≡ length keys.old) × (length along.new ≡ length along.old) }
{
    let mut found = ALL_KEPT;
    let mut used = UsedTrucks { count: 0, cost: 0 };
    let mut end = manifest.table.stack_count();
    while 0 < end {
        let start = truck_start(manifest.rows, end);
        let on = Block { start, end };
        found = joined(ask_truck(asked, manifest, on, keys, along), found);
        used = with_truck(used, manifest, start);
        end = start;
    }
    TrucksAsked { found, used }
}

// ---- the verdict

// Whether a rule on pairs is kept.
fn pair_kept(rule: PairRule, found: Findings) -> bool
    ensures { result ≡ pair_kept rule found }
{
    match rule {
        PairRule::SecondPair => found.single_pair,
        PairRule::Overlap => found.placement.apart,
        PairRule::Order => found.placement.in_order,
    }
}

// The lowest place of a rule on all stacks of a used truck.
fn truck_found(rule: TruckRule, found: Findings) -> Option<Place>
    ensures { result ≡ truck_found rule found }
{
    match rule {
        TruckRule::Unbraced => found.placement.unbraced,
        TruckRule::Overload => found.weights.overload,
        TruckRule::Middle => found.weights.middle,
        TruckRule::Rear => found.weights.rear,
    }
}

// Whether a rule is kept as far as the used trucks tell, which is all but the rules on single stacks.
fn is_kept(rule: Rule, found: Findings) -> bool
    ensures { result ≡ kept_by rule found }
{
    match rule {
        Rule::OfStacks(_) => true,
        Rule::OfPairs(pair) => pair_kept(pair, found),
        Rule::OfTrucks(each) => truck_found(each, found).is_none(),
    }
}

// Whether the used trucks keep every rule that is asked of them.
fn all_kept(found: Findings) -> bool
    ensures { result ≡ all_kept found }
{
    found.single_pair
        & found.placement.apart
        & found.placement.in_order
        & found.placement.unbraced.is_none()
        & found.weights.overload.is_none()
        & found.weights.middle.is_none()
        & found.weights.rear.is_none()
}

// The rank of the first rule that the used trucks break, of those below `upto`; none in most plans. The rank is what is told, so
// it is what is counted.
fn first_rank(found: Findings, upto: usize) -> Option<usize>
    requires { upto ≤ rule_count }
    ensures { FirstRank found upto result }
{
    if all_kept(found) {
        return None;
    }
    for rank in 0..upto {
        if !is_kept(rule_at(rank), found) {
            return Some(rank);
        }
    }
    None
}

// The lowest pair that breaks a rule. The keys and the order are scratch.
fn lowest_pair(
    rule: PairRule,
    manifest: Manifest<'_>,
    keys: &mut [u64],
    order: &mut [u32],
) -> Option<Place>
    requires { (length (stacks_of manifest.table) ≤ length keys.old) × (length (stacks_of manifest.table) ≤ length order.old) }
    ensures { result ≡ lowest_in (rule_places (OfPairs rule) (instance_of manifest.entry.table) (stacks_of manifest.entry.table)) }
{
    let count = manifest.table.stack_count();
    let all = Block {
        start: 0,
        end: count,
    };
    order_by(manifest.rows, all, |row| row.number, keys, order);
    first_pair(rule, manifest, order)
}

// The answer on a broken rule. (`reading` makes its refusals by itself, as an `Err` by its enum with two places; here it is an answer by a rule's
// verdict with three.)
fn refuse(verdict: u32, place: Place) -> Answer
    ensures { result ≡ refusal verdict place }
{
    Answer {
        number: verdict,
        first: place.first,
        second: place.second,
        third: place.third,
        cost: 0,
        trucks: 0,
    }
}

// The answer by a broken rule and the lowest place that a search found for it.
fn refuse_by(rule: Rule, found: Option<Place>) -> Answer
    ensures { result ≡ refusal (verdict_of rule) (place_in found) }
{
    let none = Place {
        first: 0,
        second: 0,
        third: 0,
    };
    refuse(rule.verdict(), found.unwrap_or(none))
}

// The answer on a plan that keeps every rule.
#[tactic(auto, using(crate::proofs::Cost::accepted))]
fn accept(table: Table<'_>, used: UsedTrucks) -> Answer
    requires { CountsTrucks (instance_of table) (stacks_of table) used.count used.cost }
    ensures { result ≡ acceptance (cost (instance_of table.entry) (stacks_of table.entry))
        (length (used_trucks (stacks_of table.entry))) }
{
    Answer {
        number: 0,
        first: 0,
        second: 0,
        third: 0,
        cost: plan_cost(table, used.cost),
        trucks: used.count,
    }
}

// What the stacks and the used trucks tell of the loading rules. The used trucks are counted in the same walk, whatever is broken.
#[derive(Clone, Copy)]
struct Survey {
    rank: Option<usize>, // of the first broken rule
    first: Option<Breach>, // the first broken rule on single stacks
    found: Findings,
    used: UsedTrucks,
}

// The rank up to which the other rules are asked: that of a broken rule on single stacks, or the number of rules.
fn rank_of(first: Option<Breach>) -> usize
    ensures { result ≡ rank_of first }
{
    first.map_or(RULES, |breach| breach.rank)
}

// The rank of the first broken rule. One that the used trucks tell of comes before the first one on single stacks, since only such are asked.
fn told_rank(before: Option<usize>, first: Option<Breach>) -> Option<usize>
    ensures { result ≡ told_rank before first }
{
    before.or(first.map(|breach| breach.rank))
}

// The place of a broken rule on single stacks.
fn stack_found(first: Option<Breach>) -> Option<Place>
    ensures { result ≡ stack_found first }
{
    first.map(|breach| breach.place)
}

// The rules on single stacks are asked first, in one walk; of the others only those that come before the first one broken there.
#[tactic(auto, using(crate::proofs::Verdicts::upto_rules))]
fn survey_plan(manifest: Manifest<'_>, keys: &mut [u64], along: &mut [u32]) -> Survey
    requires { (length (stacks_of manifest.table) ≤ length keys.old) × (length (stacks_of manifest.table) ≤ length along.old) }
    ensures told { SurveyOf (instance_of manifest.entry.table) (stacks_of manifest.entry.table) result }
    ensures lengths { (length keys.new ≡ length keys.old) × (length along.new ≡ length along.old) }
{
    let first = first_on_stacks(manifest);
    let upto = rank_of(first);
    let TrucksAsked { found, used } = ask_trucks(kinds_below(upto), manifest, keys, along);
    Survey {
        rank: told_rank(first_rank(found, upto), first),
        first,
        found,
        used,
    }
}

// The verdict by the loading rules, each over the whole plan before the next. The keys and the order are scratch. They are two lent slices in
// each function of this file that takes them, and no struct: the caller lends them, since there is no heap; all that is known of them is their
// length beside the plan's, which a struct of both would have to be shown again each time it is made.
fn judge_loading(manifest: Manifest<'_>, keys: &mut [u64], order: &mut [u32]) -> Answer
    requires { (length (stacks_of manifest.table) ≤ length keys.old) × (length (stacks_of manifest.table) ≤ length order.old) }
    ensures { result ≡ first_broken loading_rules (instance_of manifest.entry.table) (stacks_of manifest.entry.table)
        (acceptance (cost (instance_of manifest.entry.table) (stacks_of manifest.entry.table))
        (length (used_trucks (stacks_of manifest.entry.table)))) }
{
    let told = survey_plan(manifest, keys, order);
    let Some(rank) = told.rank else {
        return accept(manifest.table, told.used);
    };
    let rule = rule_at(rank);
    match rule {
        Rule::OfStacks(_) => refuse_by(rule, stack_found(told.first)),
        Rule::OfPairs(pair) => refuse_by(rule, lowest_pair(pair, manifest, keys, order)),
        Rule::OfTrucks(each) => refuse_by(rule, truck_found(each, told.found)),
    }
}

// The verdict on the plan of a filled table. The other slices are lent for the search alone: a word for each item and for each stack, and for
// each stack a key and a row. What stands in them before and afterwards does not matter.
pub fn judge(table: Table<'_>, keys: &mut [u64], order: &mut [u32], rows: &mut [Row]) -> Answer
    requires { (length (instance_of table).items ≤ length order.old) × (length (stacks_of table) ≤ length keys.old) × (length (stacks_of table) ≤ length order.old) × (length (stacks_of table) ≤ length rows.old) }
    ensures { result ≡ verdict_on (instance_of table.entry) (stacks_of table.entry) }
{
    if let Some(place) = lowest_not_once(table, order) {
        return refuse(NOT_ONCE, place);
    }
    write_manifest(table, keys, order, rows);
    judge_loading(Manifest { table, rows }, keys, order)
}
