// The two files written back from a table: document 02, F-1.
#![tactic(auto)]

ghost use Rattle.std.specs.Prelude.{◌≡◌, length};
ghost use Rattle.meaning.specs.Limits.{small};
ghost use Rattle.meaning.specs.Write.{turned_down, written};
ghost use Rattle.stored.specs.Parts.{PrintRoom};
ghost use Rattle.writing.specs.Promised.{WritePromise};
ghost use Rattle.writing.specs.Refused.{number_of, answer_of};

use listing::{write_instance, write_plan};
use meaning::{Limits, Written};
use stored::is_stored;
use table::{NamedWords, Table, small_limits};

// Why nothing is written, by document 02's numbers.
#[derive(Clone, Copy)]
enum Refusal {
    ShortBuffer = 29,
    UnfilledTable = 30,
}

impl From<Refusal> for Written {
    ghost from_gives = { λ refusal answer. answer ≡ written (turned_down (number_of refusal)) };

    // The number of the refusal. Nothing is written then, so both lengths are 0.
    fn from(refusal: Refusal) -> Written {
        Written {
            number: refusal as u32,
            instance_length: 0,
            plan_length: 0,
        }
    }
}

// Writes both files within the limits, into buffers that have room for any file. Nothing is written before every test is passed, and no length
// is tested on the way: the ranges of the words leave no longer file.
fn write_within(
    limits: Limits,
    t: &[u32],
    instance: &mut [u8],
    plan: &mut [u8],
) -> Result<Written, Refusal>
    requires { PrintRoom limits }
    ensures { WritePromise limits t.now instance.old plan.old instance.new
        plan.new (answer_of result) }
{
    if instance.len() < limits.bytes {
        return Err(Refusal::ShortBuffer);
    }
    if plan.len() < limits.bytes {
        return Err(Refusal::ShortBuffer);
    }
    if !is_stored(t, limits) {
        return Err(Refusal::UnfilledTable);
    }
    let named = NamedWords { words: t, limits };
    let table = Table { named };
    let instance_length = write_instance(table, instance);
    let plan_length = write_plan(table, plan);
    Ok(Written {
        number: 0,
        instance_length,
        plan_length,
    })
}

// Writes the instance file and the plan file that a table says into the lent buffers, by the limits of document 01. Any table and any buffers may
// be given; a refusal leaves both buffers as they are, and bytes behind a file stay.
pub fn write_files(table: &[u32], instance: &mut [u8], plan: &mut [u8]) -> Written
    ensures { WritePromise small table.now instance.old plan.old instance.new
        plan.new result }
{
    match write_within(small_limits(), table, instance, plan) {
        Ok(lengths) => lengths,
        Err(refusal) => Written::from(refusal),
    }
}
