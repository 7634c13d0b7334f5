// Both files, read into the lent table: the first refusal of 1 to 8 with its places, or the table filled with what the files say.
#![tactic(auto)]

ghost use Rattle.std.specs.Prelude.{◌≡◌, ◌+◌, ◌≤◌, length};
ghost use Rattle.meaning.specs.Limits.{small, named};
ghost use Rattle.meaning.specs.Places.{lowest};
ghost use Rattle.meaning.specs.Reader.{whole_file};
ghost use Rattle.meaning.specs.Files.{instance_lines, plan_lines};
ghost use Rattle.meaning.specs.Table.{instance_in};
ghost use Rattle.meaning.specs.Check.{code_clashes, after_plan, after_clash, after_instance, read_files};
ghost use Rattle.lines.specs.Progress.{lines_before};
ghost use Rattle.reading.specs.Answered.{number_of, refusal_by, refused_with, FillPromise, HoldsInstance, NamedPromise, ReadPromise};

use instance::read_instance;
use lines::LineRefused;
use meaning::Answer;
use plan::{Counts, read_plan};
use ranges::lowest_clash;
use table::layout::{HEAD_WORDS, Layout, STACK_COUNT};
use table::{NamedWords, Table, clear, small_limits};

// ---- the refusals
// Why files are not read, by document 01's numbers.
#[derive(Clone, Copy)]
enum Refusal {
    ShortTable = 1,
    InstanceOverlong = 2,
    PlanOverlong = 3,
    InstanceForm = 4,
    InstanceRange = 5,
    CodeClash = 6,
    PlanForm = 7,
    PlanRange = 8,
}

// A refusal with two places. It has neither cost nor trucks. (`judging` makes its own, of a rule's verdict and a place; beyond the zeros
// the two share nothing.)
fn refused(refusal: Refusal, first: u32, second: u32) -> Result<(), Answer>
    ensures { result ≡ refused_with (number_of refusal) first second }
{
    Err(Answer {
        number: refusal as u32,
        first,
        second,
        third: 0,
        cost: 0,
        trucks: 0,
    })
}

// A refusal of the line behind so many lines.
fn refused_line(refusal: Refusal, lines: usize) -> Result<(), Answer>
    requires { lines ≤ 16777216 }
    ensures { result ≡ refused_with (number_of refusal) (lines + 1) 0 }
{
    refused(refusal, (lines + 1) as u32, 0)
}

// A refusal of a file's line: the one for its form, or the one for its ranges.
fn refused_by(line: LineRefused, form: Refusal, range: Refusal) -> Result<(), Answer>
    requires { lines_before line ≤ 16777216 }
    ensures { result ≡ refused_with (number_of (refusal_by line form range)) (lines_before line + 1) 0 }
{
    match line {
        LineRefused::WrongForm(lines) => refused_line(form, lines),
        LineRefused::OutOfRange(lines) => refused_line(range, lines),
    }
}

// ---- filling the named words
// That the words are as many as the named ones stays a clause of each function. It is a fact of words that change: a struct of them would
// be made anew at each call, and a ghost field beside a `&mut` would be asked for again at each write.

// The plan, once the instance is read and has no code clash.
fn fill_plan(layout: Layout, plan: &[u8], words: &mut [u32]) -> Result<(), Answer>
    requires { HoldsInstance layout.limits words.old × (length words.old ≡ named layout.limits)
        × (length plan.now ≤ layout.limits.bytes) }
    ensures { FillPromise layout.limits (after_plan (instance_in layout.limits words.old)
        (whole_file (plan_lines layout.limits (instance_in layout.limits words.old)) plan.now)) result words.new }
{
    let limits = layout.limits;
    let table = Table {
        named: NamedWords { words, limits },
    };
    let items = table.item_count();
    let trucks = table.truck_count();
    let from = layout.stacks_at();
    match read_plan(layout, plan, Counts { items, trucks }, &mut words[from..]) {
        Ok(stacks) => {
            words[STACK_COUNT] = stacks.value;
            Ok(())
        }
        Err(line) => refused_by(line, Refusal::PlanForm, Refusal::PlanRange),
    }
}

// A code clash, or else the plan.
fn fill_after_instance(layout: Layout, plan: &[u8], words: &mut [u32]) -> Result<(), Answer>
    requires { HoldsInstance layout.limits words.old × (length words.old ≡ named layout.limits)
        × (length plan.now ≤ layout.limits.bytes) }
    ensures { FillPromise layout.limits (after_clash layout.limits (instance_in layout.limits words.old) plan.now
        (lowest (code_clashes (instance_in layout.limits words.old)))) result words.new }
{
    let limits = layout.limits;
    let table = Table {
        named: NamedWords { words, limits },
    };
    let items = table.item_count();
    match lowest_clash(&words[HEAD_WORDS..], items) {
        Some(clash) => refused(Refusal::CodeClash, clash.item, clash.first),
        None => fill_plan(layout, plan, words),
    }
}

// The instance, then what depends on it.
fn fill(layout: Layout, instance: &[u8], plan: &[u8], words: &mut [u32]) -> Result<(), Answer>
    requires { (length words.old ≡ named layout.limits) × (length instance.now ≤ layout.limits.bytes)
        × (length plan.now ≤ layout.limits.bytes) }
    ensures { FillPromise layout.limits
        (after_instance layout.limits plan.now (whole_file (instance_lines layout.limits) instance.now)) result words.new }
{
    clear(words);
    let end = layout.stacks_at();
    match read_instance(layout, instance, &mut words[0..end]) {
        Ok(_) => fill_after_instance(layout, plan, words),
        Err(line) => refused_by(line, Refusal::InstanceForm, Refusal::InstanceRange),
    }
}

// ---- the reading call

// Reads both files into the named words, which are zero after a refusal.
fn read_named(layout: Layout, instance: &[u8], plan: &[u8], words: &mut [u32]) -> Result<(), Answer>
    requires { length words.old ≡ named layout.limits }
    ensures { NamedPromise layout.limits (read_files layout.limits instance.now plan.now) result words.new }
{
    let limits = layout.limits;
    if limits.bytes < instance.len() {
        clear(words);
        return refused(Refusal::InstanceOverlong, 0, 0);
    }
    if limits.bytes < plan.len() {
        clear(words);
        return refused(Refusal::PlanOverlong, 0, 0);
    }
    let r = fill(layout, instance, plan, words);
    if r.is_err() {
        clear(words);
    }
    r
}

// Reads both files within the limits. Only the named words change, and none of a table that is too short.
fn read_within(
    layout: Layout,
    instance: &[u8],
    plan: &[u8],
    table: &mut [u32],
) -> Result<(), Answer>
    ensures { ReadPromise layout.limits instance.now plan.now table.old table.new result }
{
    let named = layout.named_words();
    let lent = table.len();
    if lent < named {
        return refused(Refusal::ShortTable, 0, 0);
    }
    read_named(layout, instance, plan, &mut table[0..named])
}

// Reads both files into the lent table, by the limits of document 01. A table under 8,976 words is refused.
pub fn read_files(instance: &[u8], plan: &[u8], table: &mut [u32]) -> Result<(), Answer>
    ensures { ReadPromise small instance.now plan.now table.old table.new result }
{
    let layout = Layout {
        limits: small_limits(),
    };
    read_within(layout, instance, plan, table)
}
