// What C and Rust call: the check, the bad line and the writing of files, each with the contract of the function that it calls, in the form that
// other languages can be given. The callers' side is in bindings/: there a slice is a pointer and a length.
#![tactic(auto)]

ghost use Rattle.std.specs.Prelude.{◌≡◌};
ghost use Rattle.meaning.specs.Limits.{small};
ghost use Rattle.meaning.specs.BadLine.{handed_back};
ghost use Rattle.badline.specs.Located.{part_of};
ghost use Rattle.checking.specs.Checked.{CheckPromise};
ghost use Rattle.writing.specs.Promised.{WritePromise};

use badline::BadLine;
use meaning::{Answer, Written};

// Checks a plan against its instance, by the limits of document 01.
#[unsafe(no_mangle)]
pub extern "C" fn kaqlluwe_check(instance: &[u8], plan: &[u8], table: &mut [u32]) -> Answer
    ensures { CheckPromise small instance.now plan.now table.old table.new result }
{
    checking::check(instance, plan, table)
}

// Where the bad line of a verdict stands. It is told by numbers, since no part of a slice can be returned to another language.
#[unsafe(no_mangle)]
pub extern "C" fn kaqlluwe_bad_line(instance: &[u8], plan: &[u8], number: u32, line: u32) -> BadLine
    ensures { part_of result ≡ handed_back instance.now plan.now number line }
{
    badline::locate(instance, plan, number, line)
}

// Writes the instance file and the plan file that a table says, by the limits of document 01.
#[unsafe(no_mangle)]
pub extern "C" fn kaqlluwe_write(table: &[u32], instance: &mut [u8], plan: &mut [u8]) -> Written
    ensures { WritePromise small table.now instance.old plan.old instance.new
        plan.new result }
{
    writing::write_files(table, instance, plan)
}
