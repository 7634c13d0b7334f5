// The numbers that the calls are given and the numbers that they answer. Their meaning is defined in specs/.
#![tactic(auto)]

// The sizes that both files and the working table are held to: how many items, trucks, stacks and load entries
// there may be, and how many bytes each file may have.
#[derive(Clone, Copy)]
pub struct Limits {
    pub items: usize,
    pub trucks: usize,
    pub stacks: usize,
    pub loads: usize,
    pub bytes: usize,
}

// Where a rule is broken: up to three numbers, and 0 where the rule names fewer. Places are ordered by the first number, then the second,
// then the third.
#[derive(Clone, Copy, PartialEq, Eq, PartialOrd, Ord)]
pub struct Place {
    pub first: u32,
    pub second: u32,
    pub third: u32,
}

// The answer of a check: verdict number, its three places, cost in thousandths, number of used trucks. Other languages are handed it as
// it is, so its fields lie as in C.
#[repr(C)]
#[derive(Clone, Copy)]
pub struct Answer {
    pub number: u32,
    pub first: u32,
    pub second: u32,
    pub third: u32,
    pub cost: u64,
    pub trucks: u32,
}

// The answer of writing the two files from a table: verdict number, 0 where they are written, and the length of each file in bytes. Its fields
// lie as in C too.
#[repr(C)]
#[derive(Clone, Copy)]
pub struct Written {
    pub number: u32,
    pub instance_length: usize,
    pub plan_length: usize,
}
