// Where the stacks of a used truck stand on its floor: whether 23 overlap and 25 order are kept, and the lowest stack that breaks 24
// unbraced. The stacks are taken along the trailer, by ascending x, so that a stack meets its neighbours first and few pairs have to be
// looked at. Each function looks at the stacks of one used truck.
#![tactic(auto)]

ghost use Rattle.std.specs.Prelude.{◌≡◌, ◌↔◌, true, ◌+◌, ◌-◌, ◌≤◌, ◌<◌, length};
ghost use Rattle.manifest.specs.Manifest.{row_at, footprint_at};
ghost use Rattle.pairrules.specs.PairRules.{disjoint_at, in_order_at, Each, EachTwo, place_at};
ghost use Rattle.placement.specs.Placed.{TruckRows, braced_at, PlacedRows};

use along::Trailer;
use manifest::{Block, Row};
use meaning::Place;
use pairrules::{disjoint, in_contact, in_loading_order, order_by};
use search::{lower_of, place_if};
use views::Footprint;

mod along;

// How stacks are placed. Where two overlap, the order is not asked and `in_order` is false: 23 comes before 25, so the plan is refused before
// 25 has its turn.
#[derive(Clone, Copy)]
pub struct Placement {
    pub apart: bool, // 23: no two overlap
    pub in_order: bool, // 25: where no two overlap, each two keep the loading order
    pub unbraced: Option<Place>, // 24: the lowest stack that is not braced
}

impl<'a> Trailer<'a> {
    // The place in the rows of the k-th stack along the trailer.
    fn place(self, k: usize) -> usize
        requires { k < self.on.end - self.on.start }
        ensures { result ≡ place_at self.entry.on self.entry.along.now k }
    {
        self.on.start + (self.along[k] as usize)
    }

    // The row of the k-th stack.
    fn row(self, k: usize) -> &'a Row
        requires { k < self.on.end - self.on.start }
        ensures { result.now ≡ row_at self.entry.rows.now (place_at self.entry.on self.entry.along.now k) }
    {
        &self.rows[self.place(k)]
    }

    // The ground that the k-th stack takes.
    fn footprint(self, k: usize) -> Footprint
        requires { k < self.on.end - self.on.start }
        ensures { result ≡ footprint_at self.entry.rows.now (place_at self.entry.on self.entry.along.now k) }
    {
        self.row(k).footprint
    }

    // 23 overlap: whether no stack further along overlaps the k-th. Those that begin where it ends, or behind, cannot.
    fn is_clear(self, k: usize) -> bool
        requires { k < self.on.end - self.on.start }
        ensures { (result ≡ true) ↔ Each (λ j. disjoint_at self.entry.rows.now (place_at self.entry.on self.entry.along.now k)
            (place_at self.entry.on self.entry.along.now j) ≡ true) (k + 1) (self.entry.on.end - self.entry.on.start) }
    {
        let ground = self.footprint(k);
        for j in k + 1..self.on.end - self.on.start {
            let other = self.footprint(j);
            if ground.xe <= other.x {
                return true;
            }
            if !disjoint(ground, other) {
                return false;
            }
        }
        true
    }

    // 24 unbraced: whether the k-th stack stands at the front wall or is braced by another. What braces it ends where it begins and has an
    // extent, so it is found among those before it, and there among the nearest.
    fn is_braced(self, k: usize) -> bool
        requires { k < self.on.end - self.on.start }
        ensures { result ≡ braced_at self.entry.rows.now self.entry.on (place_at self.entry.on self.entry.along.now k) }
    {
        let ground = self.footprint(k);
        if ground.x == 0 {
            return true;
        }
        for j in (0..k).rev() {
            if in_contact(ground, self.footprint(j)) {
                return true;
            }
        }
        false
    }

    // 25 order: whether the k-th stack keeps the loading order with those before it. It has x no greater than those behind it, so with them
    // it keeps the order anyway.
    fn is_in_order(self, k: usize) -> bool
        requires { k < self.on.end - self.on.start }
        ensures { (result ≡ true) ↔ Each (λ j. in_order_at self.entry.rows.now (place_at self.entry.on self.entry.along.now k)
            (place_at self.entry.on self.entry.along.now j) ≡ true) 0 k }
    {
        let place = self.place(k);
        for j in 0..k {
            if !in_loading_order(self.rows, place, self.place(j)) {
                return false;
            }
        }
        true
    }

    // 25 order: whether each two stacks keep the loading order.
    fn are_in_order(self) -> bool
        ensures { (result ≡ true) ↔ EachTwo (λ j k. in_order_at self.entry.rows.now j k ≡ true) self.entry.on.start self.entry.on.end }
    {
        for k in 0..self.on.end - self.on.start {
            if !self.is_in_order(k) {
                return false;
            }
        }
        true
    }

    // 23 and 24, stack by stack; then 25, which looks at many pairs. A plan with stacks that overlap is refused by 23, so there it is not
    // asked.
    fn placement(self) -> Placement
        ensures { PlacedRows self.entry.rows.now self.entry.on result }
    {
        let mut apart = true;
        let mut unbraced = None;
        for k in (0..self.on.end - self.on.start).rev() {
            let number = self.row(k).number;
            let here = place_if(!self.is_braced(k), number, 0, 0);
            unbraced = lower_of(here, unbraced);
            apart = apart && self.is_clear(k);
        }
        let in_order = apart && self.are_in_order();
        Placement {
            apart,
            in_order,
            unbraced,
        }
    }
}

// How the stacks of a used truck are placed. The keys and the places along the trailer are scratch.
pub fn truck_placement(rows: &[Row], on: Block, keys: &mut [u64], along: &mut [u32]) -> Placement
    requires { TruckRows rows.now on × (on.end - on.start ≤ length keys.old) × (on.end - on.start ≤ length along.old) }
    ensures placed { PlacedRows rows.now on result }
    ensures lengths { (length keys.new ≡ length keys.old) × (length along.new ≡ length along.old) }
{
    order_by(rows, on, |row| row.footprint.x, keys, along);
    Trailer { rows, on, along }.placement()
}
