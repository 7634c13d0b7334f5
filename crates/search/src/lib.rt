// What a search for broken rules answers. Most searches keep the lowest place that they have found so far, and may then look in any order.
#![tactic(auto)]

ghost use Rattle.std.specs.Prelude.{◌≡◌};
ghost use Rattle.meaning.specs.Lists.{only_if};
ghost use Rattle.meaning.specs.Places.{place};
ghost use Rattle.search.specs.Lowest.{lowest_in, lower_by};

use meaning::Place;

// The lower of two answers, each of which is what a search found, or None.
pub fn lower_of<T: Ord + Copy>(a: Option<T>, b: Option<T>) -> Option<T>
    ensures { result ≡ lower_by T.cmp a b }
{
    match (a, b) {
        (Some(p), Some(q)) => Some(p.min(q)),
        _ => a.or(b),
    }
}

// The place where a test says that a rule is broken.
pub fn place_if(broken: bool, first: u32, second: u32, third: u32) -> Option<Place>
    ensures { result ≡ lowest_in (only_if broken (place first second third)) }
{
    broken.then_some(Place {
        first,
        second,
        third,
    })
}
