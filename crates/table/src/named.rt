// A table with room for its named words, part by part: whatever stands in them.

ghost use Rattle.std.specs.Prelude.{◌≡◌, ◌+◌, ◌*◌, ◌≤◌, ◌<◌, length, take, drop};
ghost use Rattle.meaning.specs.Limits.{trucks_at, stacks_at, loads_at};
ghost use Rattle.meaning.specs.Table.{truck_place, stack_place};
ghost use Rattle.table.specs.Filled.{Room, item_place};
ghost use Rattle.table.specs.Props.{room_prop};

use crate::layout::{HEAD_WORDS, ITEM_WORDS, Layout, STACK_WORDS, TRUCK_WORDS};
use crate::words_from;
use meaning::Limits;

// A lent table with room for the words that the limits name.
#[derive(Clone, Copy)]
pub struct NamedWords<'a> {
    pub words: &'a [u32],
    pub limits: Limits,
    pub ghost room: { Room limits words.now } by { room_prop limits words.now },
}

// Each part and each row has a function of its own, a line over `words_from`: a trait of the parts would say start, width and count of each in an
// impl, which is no shorter.
impl<'a> NamedWords<'a> {
    // Where its parts begin.
    fn layout(self) -> Layout
        ensures { result.limits ≡ self.entry.limits }
    {
        Layout {
            limits: self.limits,
        }
    }

    // The words of the head.
    pub fn head(self) -> &'a [u32]
        ensures { (result.now ≡ take 16 self.entry.words.now) × (length result.now ≡ 16) }
    {
        words_from(self.words, 0, HEAD_WORDS)
    }

    // The words of an item.
    pub fn item(self, n: u32) -> &'a [u32]
        requires { (1 ≤ n) × (n ≤ self.limits.items) }
        ensures { (result.now ≡ take 16 (drop (item_place n) self.entry.words.now)) × (length result.now ≡ 16) }
    {
        let first = HEAD_WORDS + ITEM_WORDS * (n as usize - 1);
        words_from(self.words, first, ITEM_WORDS)
    }

    // The words of a truck.
    pub fn truck(self, n: u32) -> &'a [u32]
        requires { (1 ≤ n) × (n ≤ self.limits.trucks) }
        ensures { (result.now ≡ take 160 (drop (truck_place self.entry.limits n) self.entry.words.now)) × (length result.now ≡ 160) }
    {
        let first = self.layout().trucks_at() + TRUCK_WORDS * (n as usize - 1);
        words_from(self.words, first, TRUCK_WORDS)
    }

    // The words of a stack, which goes by its place in the file, from 0.
    pub fn stack(self, s: usize) -> &'a [u32]
        requires { s < self.limits.stacks }
        ensures { (result.now ≡ take 8 (drop (stack_place self.entry.limits s) self.entry.words.now)) × (length result.now ≡ 8) }
    {
        let first = self.layout().stacks_at() + STACK_WORDS * s;
        words_from(self.words, first, STACK_WORDS)
    }

    // The words of all items.
    pub fn items(self) -> &'a [u32]
        ensures { (result.now ≡ take (16 * self.entry.limits.items) (drop 16 self.entry.words.now))
            × (length result.now ≡ 16 * self.entry.limits.items) }
    {
        words_from(self.words, HEAD_WORDS, ITEM_WORDS * self.limits.items)
    }

    // The words of all trucks.
    pub fn trucks(self) -> &'a [u32]
        ensures { (result.now ≡ take (160 * self.entry.limits.trucks) (drop (trucks_at self.entry.limits) self.entry.words.now))
            × (length result.now ≡ 160 * self.entry.limits.trucks) }
    {
        let count = TRUCK_WORDS * self.limits.trucks;
        words_from(self.words, self.layout().trucks_at(), count)
    }

    // The words of all stacks.
    pub fn stacks(self) -> &'a [u32]
        ensures { (result.now ≡ take (8 * self.entry.limits.stacks) (drop (stacks_at self.entry.limits) self.entry.words.now))
            × (length result.now ≡ 8 * self.entry.limits.stacks) }
    {
        let count = STACK_WORDS * self.limits.stacks;
        words_from(self.words, self.layout().stacks_at(), count)
    }

    // The words of all loads.
    pub fn loads(self) -> &'a [u32]
        ensures { (result.now ≡ take self.entry.limits.loads (drop (loads_at self.entry.limits) self.entry.words.now))
            × (length result.now ≡ self.entry.limits.loads) }
    {
        words_from(self.words, self.layout().loads_at(), self.limits.loads)
    }
}
