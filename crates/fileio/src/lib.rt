// What the programs share: a file read whole, and the answer printed. The checker does not lean on this crate: what the operating
// system does is assumed of the kit's library under it. What is printed goes to a writer that the caller lends, and a failed write is an error.
#![tactic(auto)]

ghost use Rattle.std.specs.Prelude.{◌≡◌, ◌≤◌, ◌++◌, decimal, length, take, IfSome, OnOk};
ghost use Rattle.std.specs.Counts.{IsPrefixLen};
ghost use Rattle.std.specs.Io.KnownBytes.{Appends, Consumes};
ghost use Rattle.fileio.specs.Printed.{answer_line, answer_lines};

use meaning::Answer;
use std::fs::File;
use std::io;
use std::io::{Read, Write};
use std::rt::Files;

// Reads until the buffer is full, the file ends or a read fails: how many bytes stand at the start of the buffer now.
fn read_full<F: Read>(file: &mut F, buffer: &mut [u8]) -> usize
    ensures fits { IsPrefixLen result buffer.new }
    ensures bytes { Consumes (F.remaining file.old) (F.remaining file.new) (take result buffer.new) }
{
    let mut done = 0;
    while let Ok(n @ 1..) = file.read(&mut buffer[done..]) {
        done += n;
    }
    done
}

// The file of a path. A path that is no text names no file. (It comes as bytes, since `join` puts it together in a buffer: there is no heap for a
// String.)
fn open<R: Files>(files: &R, path: &[u8]) -> Option<R::File> {
    File::open(files, str::from_utf8(path).ok()?).ok()
}

// What a file has, at the start of the buffer that it is read into. A file that is not there has no byte, and of one that is longer it is as
// much as fills the buffer. The buffer is the caller's, so that no reading ends for want of memory.
pub fn read_file<'a, R: Files>(files: &R, path: &[u8], buffer: &'a mut [u8]) -> &'a [u8]
    ensures fits { length result.now ≤ length buffer.old }
    ensures place { result.ref_ptr ≡ buffer.entry.ref_ptr }
{
    let n = match open(files, path) {
        Some(mut file) => read_full(&mut file, buffer),
        None => 0,
    };
    &buffer[..n]
}

// The path of a folder's file, at the start of the buffer that it is put into. There is none where it does not fit, or where no folder is named,
// since the name alone would be a file of another folder.
fn join<'a>(folder: &[u8], name: &[u8], buffer: &'a mut [u8]) -> Option<&'a [u8]>
    ensures { IfSome result (λ path. path.now ≡ folder.now ++ name.now) }
{
    if folder.is_empty() {
        return None;
    }
    let path = buffer.get_mut(..folder.len().checked_add(name.len())?)?;
    path[..folder.len()].copy_from_slice(folder);
    path[folder.len()..].copy_from_slice(name);
    Some(path)
}

// As read_file, the file of a folder. Its name begins with the slash. The system takes no path of 4,096 bytes or more, so a buffer of that size
// holds each that it takes; there is no heap.
pub fn read_file_in<'a, R: Files>(
    files: &R,
    folder: &[u8],
    name: &[u8],
    buffer: &'a mut [u8],
) -> &'a [u8]
    ensures fits { length result.now ≤ length buffer.old }
    ensures place { result.ref_ptr ≡ buffer.entry.ref_ptr }
{
    match join(folder, name, &mut [0u8; 4096]) {
        Some(path) => read_file(files, path, buffer),
        None => &buffer[..0],
    }
}

// The answer in six lines, in the order of document 01. A function, since only the answer's own crate could make it a Display, and that one
// prints nothing.
pub fn print_answer<W: Write>(out: &mut W, answer: Answer) -> io::Result<()>
    ensures { OnOk result (Appends (W.contents out.old) (W.contents out.new) (answer_lines answer)) }
{
    writeln!(out, "number={}", answer.number)?;
    writeln!(out, "first={}", answer.first)?;
    writeln!(out, "second={}", answer.second)?;
    writeln!(out, "third={}", answer.third)?;
    writeln!(out, "cost={}", answer.cost)?;
    writeln!(out, "trucks={}", answer.trucks)
}
