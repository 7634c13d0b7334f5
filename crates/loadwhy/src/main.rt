// The program: says in one sentence what the verdict on the plan.txt of a folder means, checked against its instance.txt. Of a file that
// cannot be read it prints the bad line too. The folders are the arguments, and without one it is the working directory. A file that is not
// there reads as empty.
#![tactic(auto)]

use badline::{bad_line, locate};
use checking::check;
use fileio::read_file_in;
use meaning::Answer;
use sentence::print_sentence;
use std::io::Write;
use std::rt::Files;
use std::{env, io};

// Prints the bad line of a verdict that names one. An answer has the verdict's number, as C is handed it.
fn print_bad_line<W: Write>(
    out: &mut W,
    instance: &[u8],
    plan: &[u8],
    answer: Answer,
) -> io::Result<()> {
    if !matches!(answer.number, 4 | 5 | 7 | 8) {
        return Ok(());
    }
    // A line that is there begins before the end of its file.
    let part = locate(instance, plan, answer.number, answer.first);
    if !part.plan && part.start == instance.len() {
        return writeln!(out, "The file ends before that line.");
    }
    out.write_all(bad_line(instance, plan, answer.number, answer.first))?;
    writeln!(out)
}

// Checks a plan and says what its verdict means.
fn explain<W: Write>(out: &mut W, instance: &[u8], plan: &[u8]) -> io::Result<()> {
    let mut table = [0u32; 8976];
    let answer = check(instance, plan, &mut table);
    print_sentence(out, answer)?;
    print_bad_line(out, instance, plan, answer)
}

// The plan of a folder.
fn explain_folder<R: Files, W: Write>(files: &R, out: &mut W, folder: &str) -> io::Result<()> {
    // A file may have 65,535 bytes: one byte more shows that it is overlong.
    let mut instance = [0u8; 65536];
    let mut plan = [0u8; 65536];
    let instance = read_file_in(files, folder.as_bytes(), b"/instance.txt", &mut instance);
    let plan = read_file_in(files, folder.as_bytes(), b"/plan.txt", &mut plan);
    explain(out, instance, plan)
}

// An argument that is no text, as a name in an older encoding, ends the program with an error: no folder could be opened by it.
fn main(rt: HostRuntime) -> io::Result<()> {
    let mut out = io::writer(&rt);
    // The first argument is the program's own name.
    let folders = env::args(&rt)?.skip(1);
    if folders.len() == 0 {
        return explain_folder(&rt, &mut out, ".");
    }
    for folder in folders {
        write!(out, "{folder}: ")?;
        explain_folder(&rt, &mut out, folder.as_str())?;
    }
    Ok(())
}
