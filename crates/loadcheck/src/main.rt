// The program: checks the plan.txt of the working directory against its instance.txt and prints the answer in six lines. A file that is
// not there reads as empty.
#![tactic(auto)]

use checking::check;
use fileio::{print_answer, read_file};
use std::io;

fn main(rt: HostRuntime) -> io::Result<()> {
    // A file may have 65,535 bytes: one byte more shows that it is overlong.
    let mut instance = [0u8; 65536];
    let mut plan = [0u8; 65536];
    let mut table = [0u32; 8976];
    let instance = read_file(&rt, b"instance.txt", &mut instance);
    let plan = read_file(&rt, b"plan.txt", &mut plan);
    print_answer(&mut io::writer(&rt), check(instance, plan, &mut table))
}
