// The loading rules, which are all rules but 9: their names, and the order in which they are asked. A verdict's number is the name of its
// rule and not its place: the order is that of one list.
#![tactic(auto)]

ghost use Rattle.std.specs.Prelude.{◌≡◌, ◌<◌};
ghost use Rattle.rules.specs.LoadingRules.{verdict_of, rule_count, rule_at};

// The rules on an item of a stack, by their verdicts.
#[derive(Clone, Copy)]
pub enum ItemRule {
    Plant = 10,
    Product = 11,
    Supplier = 12,
    Day = 13,
    Dock = 14,
    Mixed = 15,
    Turned = 18,
}

// The rules on the stack itself, by their verdicts.
#[derive(Clone, Copy)]
pub enum OwnRule {
    Docks = 16,
    TopHeavy = 19,
    TooMany = 20,
    Dense = 21,
    Outside = 22,
}

// The rules on a single stack.
#[derive(Clone, Copy)]
pub enum StackRule {
    EachItem(ItemRule),
    Own(OwnRule),
}

// The rules on two stacks of a used truck, by their verdicts.
#[derive(Clone, Copy)]
pub enum PairRule {
    SecondPair = 17,
    Overlap = 23,
    Order = 25,
}

// The rules on all stacks of a used truck, by their verdicts.
#[derive(Clone, Copy)]
pub enum TruckRule {
    Unbraced = 24,
    Overload = 26,
    Middle = 27,
    Rear = 28,
}

// A loading rule.
#[derive(Clone, Copy)]
pub enum Rule {
    OfStacks(StackRule),
    OfPairs(PairRule),
    OfTrucks(TruckRule),
}

impl Rule {
    // The number that refuses a plan by this rule.
    pub fn verdict(self) -> u32
        ensures { result ≡ verdict_of self }
    {
        match self {
            Rule::OfStacks(StackRule::EachItem(rule)) => rule as u32,
            Rule::OfStacks(StackRule::Own(rule)) => rule as u32,
            Rule::OfPairs(rule) => rule as u32,
            Rule::OfTrucks(rule) => rule as u32,
        }
    }
}

// The verdict of rule 9, which is asked before the loading rules. It is no variant of theirs: it has no rank among them.
pub const NOT_ONCE: u32 = 9;

// How many loading rules there are. A rule's rank is its place in their order, from 0.
pub const RULES: usize = 19;

// The loading rules in the order of the verdict table.
const LOADING_RULES: [Rule; RULES] = [
    Rule::OfStacks(StackRule::EachItem(ItemRule::Plant)),
    Rule::OfStacks(StackRule::EachItem(ItemRule::Product)),
    Rule::OfStacks(StackRule::EachItem(ItemRule::Supplier)),
    Rule::OfStacks(StackRule::EachItem(ItemRule::Day)),
    Rule::OfStacks(StackRule::EachItem(ItemRule::Dock)),
    Rule::OfStacks(StackRule::EachItem(ItemRule::Mixed)),
    Rule::OfStacks(StackRule::Own(OwnRule::Docks)),
    Rule::OfPairs(PairRule::SecondPair),
    Rule::OfStacks(StackRule::EachItem(ItemRule::Turned)),
    Rule::OfStacks(StackRule::Own(OwnRule::TopHeavy)),
    Rule::OfStacks(StackRule::Own(OwnRule::TooMany)),
    Rule::OfStacks(StackRule::Own(OwnRule::Dense)),
    Rule::OfStacks(StackRule::Own(OwnRule::Outside)),
    Rule::OfPairs(PairRule::Overlap),
    Rule::OfTrucks(TruckRule::Unbraced),
    Rule::OfPairs(PairRule::Order),
    Rule::OfTrucks(TruckRule::Overload),
    Rule::OfTrucks(TruckRule::Middle),
    Rule::OfTrucks(TruckRule::Rear),
];

// The rule of a rank.
pub fn rule_at(rank: usize) -> Rule
    requires { rank < rule_count }
    ensures { result ≡ rule_at rank }
{
    LOADING_RULES[rank]
}
