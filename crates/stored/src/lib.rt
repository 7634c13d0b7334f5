// Whether a table's words are those that some readable pair of files fills it with: document 02, F-1. The words are tested by the tests that
// judge the lines of the files, part by part; no part is looked at whose length the parts before leave open.
#![tactic(auto)]

ghost use Rattle.std.specs.Prelude.{◌≡◌, ◌&&◌, Bool, List, ℕ, [], ◌+◌, ◌*◌, ◌≤◌, length, get_or, take, drop};
ghost use Rattle.std.specs.Fn.{FnReturnsAt};
ghost use Rattle.meaning.specs.Lists.{chunks};
ghost use Rattle.meaning.specs.Write.{stored};
ghost use Rattle.stored.specs.Parts.{PrintRoom, zeros, entries_stored, RowTest, rows_stored, head_stored, item_stored, docks_stored, truck_stored};
ghost use Rattle.stored.specs.Parts.{stack_stored, entries_of, loaded_by, LoadedWithin, loads_stored, CountsWithin, instance_stored, plan_stored};

use meaning::Limits;
use ranges::{
    LAST_DAY, all_between, are_identifiers, head_number_in_range, is_repeated, item_in_range,
    lowest_clash, stack_in_range, truck_in_range,
};
use table::NamedWords;
use table::layout::{
    BEHIND_DOCKS, DOCK_COUNTS, DOCKS, ITEM_COUNT, ITEM_WORDS, LOAD_COUNT, LOAD_FIRST, Layout,
    PLANT_DOCKS, PRODUCTS, STACK_COUNT, STACK_FIELDS, STACK_WORDS, SUPPLIER_DOCKS, SUPPLIERS,
    TRUCK_COUNT, TRUCK_WORDS,
};

// ---- words of one part

// Whether all words are zero.
fn are_zero(words: &[u32]) -> bool
    ensures { result ≡ zeros words.now }
{
    all_between(words, 0, 0)
}

// Whether so many words are the entries of a line, and those behind them are zero.
#[tactic(auto, using(crate::proofs::Entries::entries_unfit, crate::proofs::Entries::entries_fit))]
fn entries_stored(count: u32, words: &[u32]) -> bool
    ensures { result ≡ entries_stored count words.now }
{
    let n = count as usize;
    if n == 0 {
        return false;
    }
    if words.len() < n {
        return false;
    }
    are_identifiers(&words[0..n]) & are_zero(&words[n..])
}

// ---- the head

// Whether the six numbers of the head are in their ranges, and the words behind them zero.
fn head_stored(words: &[u32], layout: Layout) -> bool
    requires { length words.now ≡ 16 }
    ensures { result ≡ head_stored layout.limits words.now }
{
    let behind = STACK_COUNT + 1;
    for place in 0..behind {
        if !head_number_in_range(layout, place, words[place]) {
            return false;
        }
    }
    are_zero(&words[behind..])
}

// ---- items and trucks

// Whether so many rows of one width pass a test, and the words behind them are zero.
fn rows_stored<F: Fn(&[u32]) -> bool>(words: &[u32], width: usize, count: usize, test: F) -> bool
    requires room { width * count ≤ length words.now }
    requires some { 1 ≤ width }
    requires test { (row : _) → length row.now ≡ width → F.pre test row }
    ensures { (passes : List ℕ → Bool) → RowTest (FnReturnsAt F.Fn test) width passes
        → result ≡ rows_stored passes width count words.now }
{
    for row in words.chunks_exact(width).take(count) {
        if !test(row) {
            return false;
        }
    }
    are_zero(&words[width * count..])
}

// Whether the rows of so many items are in range, and the words behind them zero.
#[tactic(auto, unfolding(meaning::specs::Files::all_within))]
fn items_stored(words: &[u32], count: usize) -> bool
    requires { 16 * count ≤ length words.now }
    ensures { result ≡ rows_stored item_stored 16 count words.now }
{
    rows_stored(words, ITEM_WORDS, count, |row| item_in_range(row, LAST_DAY))
}

// Whether the docks of so many suppliers are lists behind their counts, each in a row of its own, and the words of other suppliers zero. The
// counts and the rows are two slices because they are two parts of a truck's words, 62 to 69 and 70 to 133, and are lent as they lie there.
// (Not by `rows_stored`: the test of a row takes the count too, which stands among other words.)
#[tactic(auto, using(crate::proofs::Scan::places_passed, std::proofs::lemmas::List::take_rest), unfolding(crate::specs::Parts::docks_stored))]
fn docks_stored(suppliers: usize, counts: &[u32], rows: &[u32]) -> bool
    requires { (suppliers ≤ length counts.now) × (length rows.now ≡ 8 * length counts.now) }
    ensures { result ≡ docks_stored suppliers counts.now rows.now }
{
    let listed = counts[..suppliers].iter();
    for (count, row) in listed.zip(rows.chunks_exact(SUPPLIER_DOCKS)) {
        if !entries_stored(*count, row) {
            return false;
        }
    }
    are_zero(&counts[suppliers..]) & are_zero(&rows[SUPPLIER_DOCKS * suppliers..])
}

// Whether 160 words are those of a truck's lines.
#[tactic(auto, using(crate::proofs::Entries::entries_reads), unfolding(crate::specs::Parts::truck_stored))]
fn truck_stored(words: &[u32]) -> bool
    requires { length words.now ≡ 160 }
    ensures { result ≡ truck_stored words.now }
{
    if !truck_in_range(&words[0..PRODUCTS], LAST_DAY) {
        return false;
    }
    if !entries_stored(words[PRODUCTS], &words[PRODUCTS + 1..SUPPLIERS]) {
        return false;
    }
    if !entries_stored(words[SUPPLIERS], &words[SUPPLIERS + 1..DOCK_COUNTS]) {
        return false;
    }
    let suppliers = words[SUPPLIERS] as usize;
    if !docks_stored(
        suppliers,
        &words[DOCK_COUNTS..DOCKS],
        &words[DOCKS..PLANT_DOCKS],
    ) {
        return false;
    }
    entries_stored(words[PLANT_DOCKS], &words[PLANT_DOCKS + 1..BEHIND_DOCKS])
        & are_zero(&words[BEHIND_DOCKS..])
}

// Whether the rows of so many trucks are trucks' words, and the words behind them zero.
fn trucks_stored(words: &[u32], count: usize) -> bool
    requires { 160 * count ≤ length words.now }
    ensures { result ≡ rows_stored truck_stored 160 count words.now }
{
    rows_stored(words, TRUCK_WORDS, count, truck_stored)
}

// ---- stacks and loads

// Whether a row is in range and its load begins behind so many entries; all loads together hold at most `most`.
fn stack_stored(row: &[u32], trucks: u32, loaded: usize, most: usize) -> bool
    requires { (length row.now ≡ 8) × (loaded ≤ 65536) }
    ensures { result ≡ stack_stored most trucks loaded row.now }
{
    let first = row[LOAD_FIRST] as usize;
    let count = row[LOAD_COUNT] as usize;
    let follows = (first == loaded) & (loaded + count <= most);
    let in_range = stack_in_range(&row[0..STACK_FIELDS], trucks);
    in_range & ((1 <= count) & (count <= 64)) & follows
}

// How many entries the loads of so many stacks hold, whose rows stand one after another. None where a row is not that of a stack, or has the
// number of one before.
#[tactic(auto, using(crate::proofs::Rows::rows_in_turn))]
fn loaded_by(words: &[u32], count: usize, trucks: u32, most: usize) -> Option<usize>
    requires { (8 * count ≤ length words.now) × (most ≤ 65536) }
    ensures { (loaded_by result ≡ entries_of most trucks [] 0 (chunks 8 count words.now)) × LoadedWithin most result }
{
    let mut loaded: usize = 0;
    for k in 0..count {
        let first = STACK_WORDS * k;
        if !stack_stored(&words[first..first + STACK_WORDS], trucks, loaded, most) {
            return None;
        }
        if is_repeated(words, k, words[first]) {
            return None;
        }
        loaded += words[first + LOAD_COUNT] as usize;
    }
    Some(loaded)
}

// Whether the loads are item numbers as far as the stacks' loads go, and zero behind them.
#[tactic(auto, unfolding(crate::specs::Parts::loads_stored))]
fn loads_stored(loads: &[u32], loaded: Option<usize>, items: u32) -> bool
    requires { LoadedWithin (length loads.now) loaded }
    ensures { result ≡ loads_stored items loads.now (loaded_by loaded) }
{
    match loaded {
        Some(n) => all_between(&loads[0..n], 1, items) & are_zero(&loads[n..]),
        None => false,
    }
}

// ---- the table

// Whether items and trucks are those of an instance that can be read.
#[tactic(auto, unfolding(crate::specs::Parts::instance_stored))]
fn instance_stored(table: NamedWords<'_>) -> bool
    requires { CountsWithin table.limits table.words.now }
    ensures { result ≡ instance_stored table.entry.limits table.entry.words.now }
{
    let items = table.words[ITEM_COUNT];
    let trucks = table.words[TRUCK_COUNT];
    let words = table.items();
    if !items_stored(words, items as usize) {
        return false;
    }
    if !trucks_stored(table.trucks(), trucks as usize) {
        return false;
    }
    lowest_clash(words, items).is_none()
}

// Whether stacks and loads are those of a plan that can be read.
#[tactic(auto, unfolding(crate::specs::Parts::plan_stored))]
fn plan_stored(table: NamedWords<'_>) -> bool
    requires { CountsWithin table.limits table.words.now }
    ensures { result ≡ plan_stored table.entry.limits table.entry.words.now }
{
    let stacks = table.words[STACK_COUNT] as usize;
    let trucks = table.words[TRUCK_COUNT];
    let words = table.stacks();
    let loaded = loaded_by(words, stacks, trucks, table.limits.loads);
    loads_stored(table.loads(), loaded, table.words[ITEM_COUNT])
        & are_zero(&words[STACK_WORDS * stacks..])
}

// Whether some readable pair of files fills the table with the words that stand there. The words beyond the named ones do not matter.
#[tactic(auto, using(crate::proofs::Outcomes::parts_in_turn))]
pub fn is_stored(t: &[u32], limits: Limits) -> bool
    requires { PrintRoom limits }
    ensures { result ≡ stored limits t.now }
{
    let layout = Layout { limits };
    if t.len() < layout.named_words() {
        return false;
    }
    let table = NamedWords { words: t, limits };
    if !head_stored(table.head(), layout) {
        return false;
    }
    if !instance_stored(table) {
        return false;
    }
    plan_stored(table)
}
