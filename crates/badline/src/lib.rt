// The bad line of a refused file, as a part of that file.
#![tactic(auto)]

ghost use Rattle.std.specs.Prelude.{◌≡◌};
ghost use Rattle.meaning.specs.BadLine.{line_span, handed_back, part_bytes};
ghost use Rattle.badline.specs.Located.{span_of, part_of, part_found, part_pointer};

use text::line_end;

// Where a line stands in its file: from its first byte up to its end, which is not included.
#[derive(Clone, Copy)]
struct LineFound {
    start: usize,
    end: usize,
}

// A line of a file, counted from 1 and without its byte 10. An unended last line is there too.
fn find_line(file: &[u8], line: u32) -> Option<LineFound>
    ensures { span_of result ≡ line_span line 0 file.now }
{
    if line == 0 {
        return None;
    }
    let mut start = 0;
    for _passed in 1..line {
        if file.len() <= start {
            return None;
        }
        start = line_end(file, start) + 1;
    }
    if start < file.len() {
        let end = line_end(file, start);
        Some(LineFound { start, end })
    } else {
        None
    }
}

// The part of a file that the bad line is: whether that file is the plan, and from where to where. Its fields lie as in C.
#[repr(C)]
#[derive(Clone, Copy)]
pub struct BadLine {
    pub plan: bool,
    pub start: usize,
    pub end: usize,
}

// The part of a line that was found; the empty part at the instance's end, which is the fallback, where it was not.
fn part_found(found: Option<LineFound>, plan: bool, fallback: usize) -> BadLine
    ensures { part_of result ≡ part_found found plan fallback }
{
    match found {
        Some(LineFound { start, end }) => BadLine { plan, start, end },
        None => BadLine {
            plan: false,
            start: fallback,
            end: fallback,
        },
    }
}

// Where the bad line of a verdict stands: in the instance for 4 and 5, in the plan for 7 and 8. The number is a word, as C hands it over.
pub fn locate(instance: &[u8], plan: &[u8], number: u32, line: u32) -> BadLine
    ensures { part_of result ≡ handed_back instance.now plan.now number line }
{
    let end = instance.len();
    match number {
        4 | 5 => part_found(find_line(instance, line), false, end),
        7 | 8 => part_found(find_line(plan, line), true, end),
        _ => part_found(None, false, end),
    }
}

// The bad line of a verdict, as a part of the file that it stands in.
pub fn bad_line<'a>(instance: &'a [u8], plan: &'a [u8], number: u32, line: u32) -> &'a [u8]
    ensures result_value { result.now ≡ part_bytes instance.now plan.now
        (handed_back instance.now plan.now number line) }
    ensures place { result.ref_ptr ≡ part_pointer instance.entry.ref_ptr plan.entry.ref_ptr
        (handed_back instance.now plan.now number line) }
{
    let part = locate(instance, plan, number, line);
    let file = if part.plan { plan } else { instance };
    &file[part.start..part.end]
}
