// The instance file, read into the table: the head's numbers, the items, and the trucks behind them.
#![tactic(auto)]

ghost use Rattle.std.specs.Prelude.{◌≡◌, ◌*◌, ◌≤◌, length, Ok};
ghost use Rattle.meaning.specs.Limits.{stacks_at};
ghost use Rattle.meaning.specs.Reader.{line, times};
ghost use Rattle.meaning.specs.Files.{item_line};
ghost use Rattle.lines.specs.Progress.{at_start, ReadInto};
ghost use Rattle.trucks.specs.Rows.{rows};
ghost use Rattle.instance.specs.Words.{HeadPromise, instance_file, instance_words};

use lines::{Cursor, LineResult, LineValue, Progress, at_end, head_line, judged, stored_line};
use ranges::{LAST_DAY, item_in_range};
use table::clear;
use table::layout::{
    EXTRA, HEAD_WORDS, INVENTORY, ITEM_COUNT, ITEM_WORDS, Layout, TRANSPORT, TRUCK_COUNT,
};
use trucks::{read_rows, read_trucks};

// ---- items

// An item's line.
fn read_item<'a>(here: Cursor<'a>, part: &mut [u32]) -> Progress<'a>
    requires { length part.old ≡ 16 }
    ensures { ReadInto (line item_line) (λ ns. ns) (Ok here.entry) result part.new }
{
    let stored = stored_line(Ok(here), b"item=", ITEM_WORDS, part);
    judged(stored, item_in_range(part, LAST_DAY))
}

// The items one after another. The words of items that the instance lacks are zero.
fn read_items<'a>(here: Cursor<'a>, count: usize, part: &mut [u32]) -> Progress<'a>
    requires { 16 * count ≤ length part.old }
    ensures { ReadInto (times count (line item_line)) (rows (length part.old) (λ ns. ns)) (Ok here.entry) result
        part.new }
{
    read_rows(here, ITEM_WORDS, count, part, read_item)
}

// ---- the whole file

// How many items and trucks the head announces, both within the limits.
#[derive(Clone, Copy)]
pub struct HeadCounts {
    pub items: usize,
    pub trucks: usize,
}

// The five lines that the file begins with.
fn read_head<'a>(layout: Layout, here: Cursor<'a>, part: &mut [u32]) -> LineResult<'a, HeadCounts>
    requires { length part.old ≡ 16 }
    ensures { HeadPromise layout.limits (Ok here.entry) result part.new }
{
    clear(part);
    let transport = head_line(layout, Ok(here), b"transport=", TRANSPORT)?;
    let inventory = head_line(layout, Ok(transport.next), b"inventory=", INVENTORY)?;
    let extra = head_line(layout, Ok(inventory.next), b"extra=", EXTRA)?;
    let items = head_line(layout, Ok(extra.next), b"items=", ITEM_COUNT)?;
    let trucks = head_line(layout, Ok(items.next), b"trucks=", TRUCK_COUNT)?;
    part[TRANSPORT] = transport.value;
    part[INVENTORY] = inventory.value;
    part[EXTRA] = extra.value;
    part[ITEM_COUNT] = items.value;
    part[TRUCK_COUNT] = trucks.value;
    let value = HeadCounts {
        items: items.value as usize,
        trucks: trucks.value as usize,
    };
    let next = trucks.next;
    Ok(LineValue { value, next })
}

// The instance file, into the words before the stacks.
pub fn read_instance<'a>(layout: Layout, file: &'a [u8], part: &mut [u32]) -> Progress<'a>
    requires { length part.old ≡ stacks_at layout.limits }
    ensures { ReadInto (instance_file layout.limits) (instance_words layout.limits) (at_start file.entry) result part.new }
{
    let trucks_from = layout.trucks_at();
    let start = Cursor::start(file);
    let head = read_head(layout, start, &mut part[0..HEAD_WORDS])?;
    let counts = head.value;
    let items = read_items(head.next, counts.items, &mut part[HEAD_WORDS..trucks_from])?;
    let trucks = read_trucks(Ok(items), counts.trucks, &mut part[trucks_from..]);
    at_end(trucks)
}
