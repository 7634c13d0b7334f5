// The check: two files and a lent table in, the answer out.
#![tactic(auto)]

ghost use Rattle.std.specs.Prelude.{◌≡◌};
ghost use Rattle.meaning.specs.Limits.{small};
ghost use Rattle.meaning.specs.Table.{instance_in, stacks_in};
ghost use Rattle.meaning.specs.Verdict.{verdict_on};
ghost use Rattle.table.specs.Filled.{Filled};
ghost use Rattle.checking.specs.Checked.{CheckPromise};

use judging::judge;
use manifest::{NO_ROW, Row};
use meaning::Answer;
use reading::read_files;
use table::{NamedWords, Table, small_limits};

// The verdict on the table that readable files fill. The arrays are scratch, for there is no heap: for each stack a key and a row; a word for
// each item or stack.
fn verdict(words: &[u32]) -> Answer
    requires { Filled small words.now }
    ensures { result ≡ verdict_on (instance_in small words.now) (stacks_in small words.now) }
{
    let limits = small_limits();
    let table = Table {
        named: NamedWords { words, limits },
    };
    let mut keys = [0u64; 256];
    let mut order = [0u32; 256];
    let mut rows = [NO_ROW; 256];
    judge(table, &mut keys, &mut order, &mut rows)
}

// Checks a plan against its instance, by the limits of document 01. Any bytes and any table may be given. The named words of the table are
// then what the files say, or zero where the files cannot be read; a table under 8,976 words is refused and stays as it is.
pub fn check(instance: &[u8], plan: &[u8], table: &mut [u32]) -> Answer
    ensures { CheckPromise small instance.now plan.now table.old table.new result }
{
    match read_files(instance, plan, table) {
        Ok(()) => verdict(table),
        Err(refusal) => refusal,
    }
}
