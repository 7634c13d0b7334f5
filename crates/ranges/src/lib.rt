// Whether words are in range, by document 01, "The two files": tests of lent words, however these came to stand where they stand.
#![tactic(auto)]

ghost use Rattle.std.specs.Prelude.{◌≡◌, true, ℕ, ◌&&◌, map, fold, ◌*◌, ◌≤◌, ◌<◌, length, get_or};
ghost use Rattle.std.specs.List.{zip};
ghost use Rattle.meaning.specs.Lists.{all, between, chunks, listed, distinct, order_in};
ghost use Rattle.meaning.specs.Places.{lowest};
ghost use Rattle.meaning.specs.Model.{IS};
ghost use Rattle.meaning.specs.Files.{all_within, stack_ranges};
ghost use Rattle.meaning.specs.Check.{same_length_and_width, code_clashes};
ghost use Rattle.ranges.specs.Clashes.{item_at, items_in, clash_place};
ghost use Rattle.ranges.specs.Ranges.{head_range, item_ranges_up_to, truck_ranges_up_to, row_numbers};

use table::fields::{self, IDE, IH, IL, IW};
use table::is_listed;
use table::layout::{ITEM_WORDS, Layout, STACK_WORDS};

// The last day of document 01. The tests of a line take the last time as a parameter.
pub const LAST_DAY: u32 = 399;

// ---- ranges. Most words pass their test, so the loops over words are not left early: without branches the compiler tests several at once

// The lowest and the highest number that are in range.
#[derive(Clone, Copy)]
struct Range(u32, u32);

const IDENTIFIER: Range = Range(1, 65535);

impl Range {
    // Whether the number is in range.
    fn holds(self, number: u32) -> bool
        ensures { result ≡ between self.0 self.1 number }
    {
        (self.0 <= number) & (number <= self.1)
    }
}

// Whether each word lies in its range.
fn in_ranges(words: &[u32], ranges: &[Range]) -> bool
    ensures { result ≡ fold (λ inside p. inside && between p.1.0 p.1.1 p.0) true (zip words.now ranges.now) }
{
    words
        .iter()
        .zip(ranges)
        .fold(true, |inside, (word, range)| inside & range.holds(*word))
}

// Whether each word lies in one range. (Not by `in_ranges`, which has a range for each word: one function for both would take an iterator of
// ranges, which each caller would have to make first.)
fn in_range(words: &[u32], range: Range) -> bool
    ensures { result ≡ fold (λ inside word. inside && between range.0 range.1 word) true words.now }
{
    words
        .iter()
        .fold(true, |inside, word| inside & range.holds(*word))
}

// Whether all words lie between two numbers.
#[tactic(auto, using(crate::proofs::Scan::all_folded))]
pub fn all_between(words: &[u32], low: u32, high: u32) -> bool
    ensures { result ≡ all (between low high) words.now }
{
    in_range(words, Range(low, high))
}

// Whether no word is listed twice.
#[tactic(auto, using(crate::proofs::Scan::distinct_on, crate::proofs::Scan::distinct_off, crate::proofs::Scan::distinct_end))]
fn are_distinct(words: &[u32]) -> bool
    ensures { result ≡ distinct words.now }
{
    for (i, word) in words.iter().enumerate() {
        if is_listed(&words[i + 1..], *word) {
            return false;
        }
    }
    true
}

// "Entries are identifiers, distinct in their line".
pub fn are_identifiers(words: &[u32]) -> bool
    ensures { result ≡ (all (between 1 65535) words.now && distinct words.now) }
{
    all_between(words, 1, 65535) & are_distinct(words)
}

// ---- the head, items and trucks

// Whether a number of the head, told by its place there, is in range.
pub fn head_number_in_range(layout: Layout, place: usize, number: u32) -> bool
    requires { place < 6 }
    ensures { result ≡ between (head_range layout.limits place).low (head_range layout.limits place).high number }
{
    let limits = layout.limits;
    let ranges = [
        Range(0, 1000), // αT
        Range(0, 1000), // αI
        Range(0, 1000), // αE
        Range(1, limits.items as u32),
        Range(1, limits.trucks as u32),
        Range(0, limits.stacks as u32),
    ];
    ranges[place].holds(number)
}

// Whether an item's fields are in range. Width, nesting height and latest day depend on other fields.
pub fn item_in_range(fields: &[u32], last: u32) -> bool
    requires { length fields.now ≡ 16 }
    ensures { result ≡ all_within (item_ranges_up_to last fields.now) fields.now }
{
    let length = fields[IL];
    let nesting = fields[IH].saturating_sub(1);
    let earliest = fields[IDE];
    let ranges = [
        Range(1, 20000), // IL
        Range(1, length), // IW, up to IL
        Range(1, 20000), // IH
        Range(0, nesting), // nesting height, below IH
        Range(1, 50000), // IM
        IDENTIFIER, // stackability code
        Range(1, 64), // maximal stackability
        IDENTIFIER, // product
        Range(0, 2), // forced orientation
        Range(0, last), // IDE
        Range(earliest, last), // IDL, from IDE on
        IDENTIFIER, // plant
        IDENTIFIER, // plant dock
        IDENTIFIER, // supplier
        IDENTIFIER, // supplier dock
        Range(0, 100000), // IC
    ];
    in_ranges(fields, &ranges)
}

// Whether a truck's fields are in range.
pub fn truck_in_range(fields: &[u32], last: u32) -> bool
    requires { length fields.now ≡ 20 }
    ensures { result ≡ all_within (truck_ranges_up_to last) fields.now }
{
    let ranges = [
        Range(1, 20000), // TL
        Range(1, 20000), // TW
        Range(1, 20000), // TH
        Range(1, 50000), // TMm
        IDENTIFIER, // plant
        Range(0, last), // TDA
        Range(0, 50000), // TMM
        Range(0, 1), // TF
        Range(1, 100000), // TEM
        Range(0, 1000000), // TC
        Range(0, 50000), // CM
        Range(1, 20000), // CJfm
        Range(0, 20000), // CJfc
        Range(0, 20000), // CJfh
        Range(0, 50000), // EM
        Range(1, 20000), // EJhr
        Range(0, 20000), // EJcr
        Range(0, 20000), // EJeh
        Range(1, 50000), // EMmr
        Range(1, 50000), // EMmm
    ];
    in_ranges(fields, &ranges)
}

// ---- stacks

// Whether the fields of a stack's line are in range for so many trucks.
pub fn stack_in_range(fields: &[u32], trucks: u32) -> bool
    requires { length fields.now ≡ 6 }
    ensures { result ≡ all_within (stack_ranges trucks) fields.now }
{
    let ranges = [
        IDENTIFIER, // number
        Range(1, trucks), // truck
        Range(0, 99), // copy
        Range(0, 20000), // x
        Range(0, 20000), // y
        Range(1, 2), // orientation
    ];
    in_ranges(fields, &ranges)
}

// Whether one of the stacks in the first rows has this number, which is the first word of its row. (The rows are searched for each stack: a set of
// numbers would take memory, and there is no heap. As the loops over words, this one is not left early; and it goes by number, since a walk over
// `chunks_exact` and `take` took more than twice as long.)
#[tactic(auto, using(crate::proofs::Scan::repeated_before, crate::proofs::Scan::repeated_next))]
pub fn is_repeated(part: &[u32], rows: usize, number: u32) -> bool
    requires { 8 * rows ≤ length part.now }
    ensures { result ≡ listed number (row_numbers rows part.now) }
{
    let mut repeated = false;
    for k in 0..rows {
        repeated |= number == part[STACK_WORDS * k];
    }
    repeated
}

// ---- code clash. The words of the items stand one behind the other, and items go by their numbers, from 1

// A field of an item.
fn item_word(items: &[u32], n: u32, field: usize) -> u32
    requires { (1 ≤ n) × (16 * n ≤ length items.now) × (field < 16) }
    ensures { result ≡ get_or (item_at items.now n) field 0 }
{
    let row = ITEM_WORDS * (n as usize - 1);
    items[row + field]
}

// The first item with the code of this one, of however many items: at the latest it is that item itself. (The items are searched for each one: a
// map of codes would take memory, and there is no heap.)
fn first_of_code(items: &[u32], item: u32) -> u32
    requires { (1 ≤ item) × (16 * item ≤ length items.now) }
    ensures { (count : ℕ) → item ≤ count → result ≡ order_in (map IS (chunks 16 count items.now)) (IS (item_at items.now item)) }
{
    let code = item_word(items, item, fields::IS);
    for passed in 0..item - 1 {
        let other = passed + 1;
        if item_word(items, other, fields::IS) == code {
            return other;
        }
    }
    item
}

// Whether two items have the same length and width.
fn same_length_and_width(items: &[u32], n: u32, k: u32) -> bool
    requires { (1 ≤ n) × (16 * n ≤ length items.now) × (1 ≤ k) × (16 * k ≤ length items.now) }
    ensures { result ≡ same_length_and_width (item_at items.now n) (item_at items.now k) }
{
    item_word(items, n, IL) == item_word(items, k, IL)
        && item_word(items, n, IW) == item_word(items, k, IW)
}

// Verdict 6: an item that differs in length or width from the lowest-numbered item of its code, and that one.
#[derive(Clone, Copy)]
pub struct Clash {
    pub item: u32,
    pub first: u32,
}

// The clash of the lowest of so many items, if there is one.
pub fn lowest_clash(items: &[u32], count: u32) -> Option<Clash>
    requires { 16 * count ≤ length items.now }
    ensures { clash_place result ≡ lowest (code_clashes (items_in count items.now)) }
{
    for passed in 0..count {
        let item = passed + 1;
        let first = first_of_code(items, item);
        if !same_length_and_width(items, item, first) {
            return Some(Clash { item, first });
        }
    }
    None
}
