// The plan file, read into the table's stacks and the loads behind them.
#![tactic(auto)]

ghost use Rattle.std.specs.Prelude.{◌≡◌, [], ◌+◌, ◌*◌, ◌≤◌, ◌<◌, length, Ok, IfOk};
ghost use Rattle.meaning.specs.Reader.{line};
ghost use Rattle.meaning.specs.Files.{stack_line, load_line, stack_lines};
ghost use Rattle.ranges.specs.Ranges.{row_numbers};
ghost use Rattle.lines.specs.Progress.{ReadInto, ReadEntries};
ghost use Rattle.plan.specs.Words.{spliced, StackPromise, plan_words, PlanPromise};

pub mod counts;

pub use counts::Counts;
use lines::{
    Cursor, LineResult, LineValue, Progress, at_end, entries, head_line, judged, judged_entries,
    stored_line,
};
use ranges::{all_between, is_repeated, stack_in_range};
use table::clear;
use table::layout::{LOAD_COUNT, LOAD_FIRST, Layout, STACK_COUNT, STACK_FIELDS, STACK_WORDS};

// The k-th `stack=` line, into the first six words of its row. Its number is to differ from those of the rows before.
fn read_stack_row<'a>(here: Cursor<'a>, counts: Counts, k: usize, part: &mut [u32]) -> Progress<'a>
    requires { 8 * k + 8 ≤ length part.old }
    ensures { ReadInto (line (stack_line counts.trucks (row_numbers k part.old)))
        (λ fields. spliced (8 * k) fields part.old) (Ok here.entry) result part.new }
{
    let row = STACK_WORDS * k;
    let stored = stored_line(
        Ok(here),
        b"stack=",
        STACK_FIELDS,
        &mut part[row..row + STACK_FIELDS],
    );
    let in_range = stack_in_range(&part[row..row + STACK_FIELDS], counts.trucks);
    let repeated = is_repeated(part, k, part[row]);
    judged(stored, in_range && !repeated)
}

// A `load=` line, behind the entries that the loads hold already. All loads together hold at most as many as there are words for them.
fn read_load<'a>(
    here: Cursor<'a>,
    counts: Counts,
    loaded: usize,
    loads: &mut [u32],
) -> LineResult<'a, usize>
    requires { (loaded ≤ length loads.old) × (length loads.old ≤ 65536) }
    ensures read { ReadEntries (line (load_line (length loads.old) counts.items loaded))
        (λ load. spliced loaded load loads.old) (Ok here.entry) result loads.new }
    ensures within { IfOk result (λ f. loaded + f.value ≤ length loads.old) }
{
    // A line may have more entries than the loads have room left for, so it is stored apart first. There is no heap.
    let mut load: [u32; 64] = [0; 64];
    let stored = stored_line(Ok(here), b"load=", 1, &mut load);
    let count = entries(stored);
    let in_range = all_between(&load[..count], 1, counts.items);
    let kept = judged_entries(stored, in_range && loaded + count <= loads.len())?;
    loads[loaded..loaded + kept.value].copy_from_slice(&load[..kept.value]);
    Ok(kept)
}

// The next stack, the k-th: its line, its load, and where the load stands. What is found is how many entries the loads hold, before
// and then with this one. (The part's length stays a clause here and below. It is a fact of words that change: a struct of them would be
// made anew at each call, and a ghost field beside a `&mut` would be asked for again at each write.)
fn read_stack<'a>(
    layout: Layout,
    counts: Counts,
    k: usize,
    loaded: LineValue<Cursor<'a>, usize>,
    part: &mut [u32],
) -> LineResult<'a, usize>
    requires { (k < layout.limits.stacks) × (loaded.value ≤ layout.limits.loads)
        × (length part.old ≡ 8 * layout.limits.stacks + layout.limits.loads) }
    ensures { StackPromise layout.limits counts k loaded.entry result part.old part.new }
{
    let row = STACK_WORDS * k;
    let loads = STACK_WORDS * layout.limits.stacks;
    let before = loaded.value;
    let fields = read_stack_row(loaded.next, counts, k, part)?;
    let load = read_load(fields, counts, before, &mut part[loads..])?;
    part[row + LOAD_FIRST] = before as u32;
    part[row + LOAD_COUNT] = load.value as u32;
    let value = before + load.value;
    let next = load.next;
    Ok(LineValue { value, next })
}

// So many stacks one after another.
fn read_stacks<'a>(
    layout: Layout,
    here: Cursor<'a>,
    counts: Counts,
    count: usize,
    part: &mut [u32],
) -> Progress<'a>
    requires { (count ≤ layout.limits.stacks) × (length part.old ≡ 8 * layout.limits.stacks + layout.limits.loads) }
    ensures { ReadInto (stack_lines layout.limits.loads counts.items counts.trucks count [] 0) (plan_words layout.limits)
        (Ok here.entry) result part.new }
{
    clear(part);
    let mut loaded = LineValue {
        value: 0,
        next: here,
    };
    for k in 0..count {
        loaded = read_stack(layout, counts, k, loaded, part)?;
    }
    Ok(loaded.next)
}

// The plan file, for an instance of so many items and trucks, into the words from the stacks on. What is found is how many stacks it
// announces.
pub fn read_plan<'a>(
    layout: Layout,
    file: &'a [u8],
    counts: Counts,
    part: &mut [u32],
) -> LineResult<'a, u32>
    requires { length part.old ≡ 8 * layout.limits.stacks + layout.limits.loads }
    ensures { PlanPromise layout.limits counts file.entry result part.new }
{
    let start = Ok(Cursor::start(file));
    let stacks = head_line(layout, start, b"stacks=", STACK_COUNT)?;
    let value = stacks.value;
    let read = read_stacks(layout, stacks.next, counts, value as usize, part);
    let next = at_end(read)?;
    Ok(LineValue { value, next })
}
