// Runs the stored cases through the check. Every word of the table holds 7 before each call, so that an untouched word shows. Printed for
// each case: the answer in six lines, as loadcheck prints it; its sentence, as loadwhy prints it; then one line with a checksum of the whole
// table and, for the answer's bad line and for five further verdicts and lines: 0 for the instance or 1 for the plan, the line's start and
// end there, and a checksum of its bytes. A verdict that names no line has the empty part at the instance's end.
//
// data/files.bin has the files of all cases; a line of data/cases.txt says where a case's instance begins and how long it is, the same
// of its plan, and how many words of the table are lent. data/labels.txt says in a word what each case tries.
#![tactic(auto)]

use badline::{bad_line, locate};
use checking::check;
use fileio::{print_answer, read_file};
use meaning::Answer;
use sentence::print_sentence;
use std::io;
use std::io::Write;
use text::parse_line;

// A number that a wrong one among many is likely to change.
fn checksum<T: Copy + Into<u32>>(numbers: &[T]) -> u64 {
    numbers.iter().fold(0u64, |sum, number| {
        (sum % 4294967291 * 31 + u64::from((*number).into())) % 4294967291
    })
}

// A case: its two files, and how many words of the table are lent.
#[derive(Clone, Copy)]
struct Case<'a> {
    instance: &'a [u8],
    plan: &'a [u8],
    lent: usize,
}

// The part of the files that a case names; nothing where it lies outside.
fn part(files: &[u8], start: u32, size: u32) -> &[u8] {
    let start = start as usize;
    files.get(start..start + size as usize).unwrap_or(&[])
}

// The case of a line's numbers.
fn case_of(files: &[u8], line: [u32; 5]) -> Case<'_> {
    let [instance, instance_size, plan, plan_size, lent] = line;
    Case {
        instance: part(files, instance, instance_size),
        plan: part(files, plan, plan_size),
        lent: lent as usize,
    }
}

// Prints where the bad line of a verdict stands, and what it is.
fn print_line<W: Write>(out: &mut W, case: Case<'_>, number: u32, line: u32) -> io::Result<()> {
    let part = locate(case.instance, case.plan, number, line);
    let bytes = bad_line(case.instance, case.plan, number, line);
    let file = u32::from(part.plan);
    write!(
        out,
        "; {file} {} {} {}",
        part.start,
        part.end,
        checksum(bytes)
    )
}

// Line 0, lines that may be missing, and a verdict that has no bad line.
fn print_asked_lines<W: Write>(out: &mut W, case: Case<'_>) -> io::Result<()> {
    for (number, line) in [(4, 0), (5, 3), (7, 2), (8, 9999), (6, 1)] {
        print_line(out, case, number, line)?;
    }
    Ok(())
}

// Prints the answer of a case, its sentence and the checksum of its table.
fn print_case<W: Write>(
    out: &mut W,
    case: Case<'_>,
    answer: Answer,
    table: &[u32],
) -> io::Result<()> {
    print_answer(out, answer)?;
    print_sentence(out, answer)?;
    write!(out, "{}", checksum(table))?;
    print_line(out, case, answer.number, answer.first)?;
    print_asked_lines(out, case)?;
    writeln!(out)
}

// One case, with so many words of the table lent. A case that is lent more than the table has is passed over.
fn run_case<W: Write>(out: &mut W, case: Case<'_>, table: &mut [u32]) -> io::Result<()> {
    table.fill(7);
    let Some(lent) = table.get_mut(..case.lent) else {
        return Ok(());
    };
    let answer = check(case.instance, case.plan, lent);
    print_case(out, case, answer, table)
}

// One case after another, up to the first line that names none.
fn run<W: Write>(out: &mut W, cases: &[u8], files: &[u8], table: &mut [u32]) -> io::Result<()> {
    let mut at = 0;
    let mut line = [0; 5];
    while let Some(parsed) = parse_line(cases, at, b"case=", 5, &mut line) {
        run_case(out, case_of(files, line), table)?;
        at = parsed.next;
    }
    Ok(())
}

// There is no heap: the arrays have room for the data that is stored here.
fn main(rt: HostRuntime) -> io::Result<()> {
    let mut cases = [0u8; 65536];
    let mut files = [0u8; 1572864];
    let mut table = [0u32; 8980];
    let cases = read_file(&rt, b"cases.txt", &mut cases);
    let files = read_file(&rt, b"files.bin", &mut files);
    run(&mut io::writer(&rt), cases, files, &mut table)
}
