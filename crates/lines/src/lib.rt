// One line after another: each is stored, then judged by its form's ranges. Every function takes the answer so far and returns the next
// one; a refusal that comes in goes out unchanged. They take a `Progress`, refused or not, and no bare cursor: a caller may hand on
// whatever it got, and a cursor alone would ask more of it.
#![tactic(auto)]

ghost use Rattle.std.specs.Prelude.{◌≡◌, ◌-◌, ◌≤◌, ◌<◌, length, IfOk};
ghost use Rattle.meaning.specs.Lists.{padded};
ghost use Rattle.meaning.specs.Text.{bytes};
ghost use Rattle.meaning.specs.Reader.{line};
ghost use Rattle.meaning.specs.Files.{identifiers_line, number_line};
ghost use Rattle.meaning.specs.Table.{counted_words};
ghost use Rattle.ranges.specs.Ranges.{head_range};
ghost use Rattle.lines.specs.Progress.{Key, resumed, Follows, ended_at, ended_as, progress_of, told};
ghost use Rattle.lines.specs.Progress.{entries_of, judged_as, judged_entries_as, StoredPromise, ReadEntries};

pub mod cursor;

pub use cursor::Cursor;
use ranges::{are_identifiers, head_number_in_range};
use table::clear;
use table::layout::Layout;
use text::parse_line;

// Why a line is refused, with how many lines stand before it.
#[derive(Clone, Copy)]
pub enum LineRefused {
    WrongForm(usize),
    OutOfRange(usize),
}

// How far a file is read: the next cursor; or the first bad line, which is wrong in form or out of range.
pub type Progress<'a> = Result<Cursor<'a>, LineRefused>;

// A value that was read, and the place behind its line.
#[derive(Clone, Copy)]
pub struct LineValue<C, T> {
    pub value: T,
    pub next: C,
}

// A value that was read up to a cursor, or why its line is refused.
pub type LineResult<'a, T> = Result<LineValue<Cursor<'a>, T>, LineRefused>;

// A line whose numbers are stored and not yet judged: how many lines stand before it, the place behind it, and how many numbers it has.
// Judging it hands the place on and does not look at it, so any place does. The numbers are counted and not lent again: they stand in the
// words of the caller, who reads them and fills them further.
#[derive(Clone, Copy)]
pub struct Stored<C> {
    pub line: usize,
    pub next: C,
    pub count: usize,
}

// A line that is stored up to a cursor, or why it is refused.
pub type StoredLine<'a> = Result<Stored<Cursor<'a>>, LineRefused>;

// Stores the numbers of the next line. Their ranges are not judged yet.
pub fn stored_line<'a>(p: Progress<'a>, key: &[u8], least: usize, out: &mut [u32]) -> StoredLine<'a>
    ensures { StoredPromise p.entry key.now least out.old result out.new }
{
    let here = p?;
    let wrong = LineRefused::WrongForm(here.line);
    let parsed = parse_line(here.file, here.at, key, least, out).ok_or(wrong)?;
    let line = here.line + 1;
    let next = Cursor {
        file: here.file,
        at: parsed.next,
        line,
    };
    Ok(Stored {
        line: here.line,
        next,
        count: parsed.count,
    })
}

// How many numbers are stored; none after a refusal. (A number and no `Option`: a caller cuts the entries from its words by it, and after a
// refusal it cuts none.)
pub fn entries<C: Copy>(stored: Result<Stored<C>, LineRefused>) -> usize
    ensures { result ≡ entries_of stored }
{
    stored.map_or(0, |s| s.count)
}

// The stored line is passed where it is in range. A line of wrong form was refused before.
pub fn judged<C: Copy>(
    stored: Result<Stored<C>, LineRefused>,
    in_range: bool,
) -> Result<C, LineRefused>
    ensures { result ≡ judged_as stored in_range }
{
    let s = stored?;
    if in_range {
        Ok(s.next)
    } else {
        Err(LineRefused::OutOfRange(s.line))
    }
}

// The same with the number of entries.
pub fn judged_entries<C: Copy>(
    stored: Result<Stored<C>, LineRefused>,
    in_range: bool,
) -> Result<LineValue<C, usize>, LineRefused>
    ensures { result ≡ judged_entries_as stored in_range }
{
    let next = judged(stored, in_range)?;
    let value = entries(stored);
    Ok(LineValue { value, next })
}

// The end of a file of so many bytes, behind so many lines: a line too many is wrong in form.
pub fn end_reached(size: usize, at: usize, line: usize) -> Result<(), LineRefused>
    ensures { result ≡ ended_at size at line }
{
    if at < size {
        Err(LineRefused::WrongForm(line))
    } else {
        Ok(())
    }
}

// The end of the file that is read.
pub fn at_end<'a>(p: Progress<'a>) -> Progress<'a>
    ensures { result ≡ ended_as p.entry }
{
    let here = p?;
    end_reached(here.file.len(), here.at, here.line)?;
    Ok(here)
}

// A line of distinct identifiers, at most as many as there is room for, with zeros behind them.
pub fn identifiers_line<'a>(p: Progress<'a>, key: &[u8], out: &mut [u32]) -> LineResult<'a, usize>
    ensures says { (k : Key) → bytes k ≡ key.now
        → ReadEntries (line (identifiers_line k (length out.old))) (padded (length out.old)) p.entry result
        out.new }
    ensures room { IfOk result (λ f. f.value ≤ length out.old) }
{
    clear(out);
    let stored = stored_line(p, key, 1, out);
    let in_range = are_identifiers(&out[..entries(stored)]);
    judged_entries(stored, in_range)
}

// The same behind the number of entries.
pub fn counted_line<'a>(p: Progress<'a>, key: &[u8], out: &mut [u32]) -> LineResult<'a, usize>
    requires { (1 ≤ length out.old) × (length out.old ≤ 65) }
    ensures { (k : Key) → bytes k ≡ key.now
        → ReadEntries (line (identifiers_line k (length out.old - 1)))
        (counted_words (length out.old - 1)) p.entry result out.new }
{
    let entries = identifiers_line(p, key, &mut out[1..])?;
    out[0] = entries.value as u32;
    Ok(entries)
}

// A line with one number of the head, told by its place there. (Not by a range: each caller would look the range up by the same place.)
pub fn head_line<'a>(
    layout: Layout,
    p: Progress<'a>,
    key: &[u8],
    place: usize,
) -> LineResult<'a, u32>
    requires { place < 6 }
    ensures says { (k : Key) → bytes k ≡ key.now
        → told result ≡ resumed p.entry (number_line k (head_range layout.limits place)) }
    ensures within { Follows p.entry (progress_of result) × IfOk result (λ f. f.value ≤ (head_range layout.limits place).high) }
{
    let mut number: [u32; 1] = [0];
    let stored = stored_line(p, key, 1, &mut number);
    let value = number[0];
    let next = judged(stored, head_number_in_range(layout, place, value))?;
    Ok(LineValue { value, next })
}
