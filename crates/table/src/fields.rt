// The places of the fields in their lines, by the paper's names where it has one. No other file of the code numbers a field. (TMm and TMM
// differ in the case of a letter only, so those two have names of their own.) They are numbers and no enum: document 01 numbers the words of the table,
// which callers in C and Rust read by them, and a row is indexed by nothing else.

// ---- an item's line
pub const IL: usize = 0; // length

pub const IW: usize = 1; // width

pub const IH: usize = 2; // height

pub const NESTING: usize = 3; // nesting height

pub const IM: usize = 4; // weight

pub const IS: usize = 5; // stackability code

pub const ISM: usize = 6; // maximal stackability

pub const IR: usize = 7; // product

pub const IO: usize = 8; // forced orientation

pub const IDE: usize = 9; // earliest day

pub const IDL: usize = 10; // latest day

pub const IP: usize = 11; // plant

pub const IG: usize = 12; // plant dock

pub const IU: usize = 13; // supplier

pub const IK: usize = 14; // supplier dock

pub const IC: usize = 15; // daily cost

// ---- a truck's line
pub const TL: usize = 0; // length

pub const TW: usize = 1; // width

pub const TH: usize = 2; // height

pub const LOAD_LIMIT: usize = 3; // TMm, the load limit

pub const TP: usize = 4; // plant

pub const TDA: usize = 5; // arrival day

pub const TOP_LIMIT: usize = 6; // TMM, the limit of the weight above a bottom item

pub const TF: usize = 7; // two-dock flag

pub const TEM: usize = 8; // density limit

pub const TC: usize = 9; // cost

pub const CM: usize = 10; // weight of the tractor

pub const CJFM: usize = 11; // from front to middle axle

pub const CJFC: usize = 12; // from front axle to the tractor's centre

pub const CJFH: usize = 13; // from front axle to harness

pub const EM: usize = 14; // weight of the empty trailer

pub const EJHR: usize = 15; // from harness to rear axle

pub const EJCR: usize = 16; // from the trailer's centre to the rear axle

pub const EJEH: usize = 17; // from the trailer's front end to the harness

pub const EMMR: usize = 18; // limit of the rear axle

pub const EMMM: usize = 19; // limit of the middle axle

// ---- a stack's line
pub const NUMBER: usize = 0; // its number

pub const TRUCK: usize = 1; // the number of its truck

pub const COPY: usize = 2; // 0 the planned truck, 1 to 99 an extra one

pub const X: usize = 3; // where it begins along the trailer

pub const Y: usize = 4; // where it begins across the trailer

pub const ORIENTATION: usize = 5; // 1 lengthwise, 2 widthwise
