// The rules on the weight of a used truck: 26 overload, 27 middle axle, 28 rear axle. Its stacks stand together in the rows, as a block.
// Levers are signed: a stack whose middle lies behind the rear axle counts negative. Nothing is divided.
#![tactic(auto)]

ghost use Rattle.std.specs.Prelude.{◌≡◌, cond, ◌+◌, ◌*◌, ◌≤◌, ◌<◌, pos, nat_abs};
ghost use Rattle.meaning.specs.Lists.{any};
ghost use Rattle.meaning.specs.Model.{truck_numbered};
ghost use Rattle.table.specs.Filled.{TruckNumber};
ghost use Rattle.manifest.specs.Manifest.{block, OneTruck};
ghost use Rattle.axles.specs.Weights.{is_on, on_at, weight_of, lever_of, levers_of, lever_by, BoundedRow};
ghost use Rattle.axles.specs.Weights.{axle_data, moment_by, middle_holds, rear_holds, middle_under, rear_under, exceeds, LowestPlaces};
ghost use Rattle.table.specs.Held.{instance_of, stacks_of};

use bounded::{Axles, Load};
use manifest::{Block, Manifest, Row};
use meaning::Place;
use search::{lower_of, place_if};
use table::Table;
use table::fields::{CJFC, CJFH, CJFM, CM, EJCR, EJEH, EJHR, EM, EMMM, EMMR, LOAD_LIMIT};

mod bounded;

// ---- the axles

// What the axles' rules ask of a truck's line, by the paper's names, and 2A.
#[derive(Clone, Copy)]
struct AxleData {
    cm: u32,
    cjfm: u32,
    cjfc: u32,
    cjfh: u32,
    em: u32,
    ejhr: u32,
    ejcr: u32,
    emmr: u32,
    emmm: u32,
    twice: u32, // 2A: twice the distance from the trailer's front end to the rear axle
}

// Of a truck. It is read once for a used truck, and not at each departure.
fn read_axle_data(table: Table<'_>, truck: u32) -> AxleData
    requires { TruckNumber (instance_of table) truck }
    ensures { result ≡ axle_data (truck_numbered (instance_of table.entry) truck) }
{
    let ejhr = table.truck_field(truck, EJHR);
    AxleData {
        cm: table.truck_field(truck, CM),
        cjfm: table.truck_field(truck, CJFM),
        cjfc: table.truck_field(truck, CJFC),
        cjfh: table.truck_field(truck, CJFH),
        em: table.truck_field(truck, EM),
        ejhr,
        ejcr: table.truck_field(truck, EJCR),
        emmr: table.truck_field(truck, EMMR),
        emmm: table.truck_field(truck, EMMM),
        twice: 2 * (table.truck_field(truck, EJEH) + ejhr),
    }
}

impl Axles {
    // H: the levers of the stacks that are on, and of the trailer.
    fn moment(self, levers: i64) -> i64
        requires { nat_abs levers ≤ 262144000000000 }
        ensures { (result ≡ moment_by levers self.line) × (nat_abs result ≤ 262146000000000) }
    {
        let em = self.line.em as i64;
        let ejcr = self.line.ejcr as i64;
        levers + 2 * em * ejcr
    }

    // 27 middle axle: what tractor, trailer and load bring to it by their levers is within its limit.
    fn middle_holds(self, h: i64) -> bool
        requires { nat_abs h ≤ 262146000000000 }
        ensures { result ≡ middle_holds h self.line }
    {
        let ejhr = self.line.ejhr as i64;
        let cm = self.line.cm as i64;
        let cjfc = self.line.cjfc as i64;
        let cjfh = self.line.cjfh as i64;
        let cjfm = self.line.cjfm as i64;
        let emmm = self.line.emmm as i64;
        2 * ejhr * cm * cjfc + h * cjfh <= 2 * ejhr * cjfm * emmm
    }

    // 28 rear axle: what the harness does not bear of trailer and load is within its limit.
    fn rear_holds(self, h: i64, weight: u64) -> bool
        requires { (nat_abs h ≤ 262146000000000) × (weight ≤ 3276800000) }
        ensures { result ≡ rear_holds h weight self.line }
    {
        let ejhr = self.line.ejhr as i64;
        let em = self.line.em as i64;
        let emmr = self.line.emmr as i64;
        2 * ejhr * ((weight as i64) + em) - h <= 2 * ejhr * emmr
    }
}

// Which axles are exceeded.
#[derive(Clone, Copy)]
struct Exceeded {
    middle: bool, // 27
    rear: bool, // 28
}

// ---- weights and levers

// A stack's weight times twice the distance of its middle before the rear axle; `twice` is 2A.
fn lever_by(weight: u32, x: u32, xe: u32, twice: u32) -> i64
    requires { (weight ≤ 3200000) × (x ≤ 20000) × (xe ≤ 40000) × (twice ≤ 80000) }
    ensures { result ≡ lever_by weight x xe twice }
{
    (weight as i64) * ((twice as i64) - (x as i64) - (xe as i64))
}

// What stacks bring together: their weight and their levers.
#[derive(Clone, Copy)]
struct Sums {
    weight: u64,
    levers: i64,
}

// ---- the stacks of a used truck

// Whether a stack is on at a departure: its supplier is one of the first so many.
fn is_on(row: &Row, departure: u32) -> bool
    ensures { result ≡ is_on departure row.now }
{
    let order = row.rank.supplier_order;
    (1 <= order) & (order <= departure)
}

impl Axles {
    // The terms of a stack in both sums at a departure: nothing where it is not on. Its lever is worked out first, so that the sum does not
    // branch: which stacks are on has no pattern that a processor could foresee.
    fn term(self, departure: u32, row: &Row) -> Sums
        requires { BoundedRow row.now }
        ensures { (result.weight ≡ cond (is_on departure row.now) row.now.weight 0)
            × (result.levers ≡ cond (is_on departure row.now) (lever_of self.line.twice row.now) (pos 0)) }
    {
        let ground = row.footprint;
        let levers = lever_by(row.weight, ground.x, ground.xe, self.line.twice);
        if is_on(row, departure) {
            return Sums {
                weight: row.weight as u64,
                levers,
            };
        }
        Sums {
            weight: 0,
            levers: 0,
        }
    }
}

impl<'a> Load<'a> {
    // Whether a departure counts, which it does where a stack is on.
    fn departure_counts(self, departure: u32) -> bool
        ensures { result ≡ any (is_on departure) self.entry.rows.now }
    {
        for row in self.rows {
            if is_on(row, departure) {
                return true;
            }
        }
        false
    }

    // The weight of all stacks, whatever their supplier.
    fn total_weight(self) -> u64
        ensures { result ≡ weight_of self.entry.rows.now }
    {
        let mut weight: u64 = 0;
        for row in self.rows {
            weight += row.weight as u64;
        }
        weight
    }

    // Both sums of the stacks that are on at a departure.
    fn sums(self, departure: u32, axles: Axles) -> Sums
        ensures { (result.weight ≡ weight_of (on_at departure self.entry.rows.now))
            × (result.levers ≡ levers_of axles.line.twice (on_at departure self.entry.rows.now))
            × (result.weight ≤ 3276800000) × (nat_abs result.levers ≤ 262144000000000) }
    {
        let mut weight: u64 = 0;
        let mut levers: i64 = 0;
        for row in self.rows {
            let term = axles.term(departure, row);
            weight += term.weight;
            levers += term.levers;
        }
        Sums { weight, levers }
    }

    // W2: which axles do not hold at a departure that counts. Most axles hold, so whether it counts is asked only where one does not.
    fn exceeded(self, departure: u32, axles: Axles) -> Exceeded
        ensures { (result.middle ≡ exceeds middle_under self.entry.rows.now axles.line departure)
            × (result.rear ≡ exceeds rear_under self.entry.rows.now axles.line departure) }
    {
        let sums = self.sums(departure, axles);
        let h = axles.moment(sums.levers);
        let middle = axles.middle_holds(h);
        let rear = axles.rear_holds(h, sums.weight);
        if middle & rear {
            return Exceeded {
                middle: false,
                rear: false,
            };
        }
        let counts = self.departure_counts(departure);
        Exceeded {
            middle: counts & !middle,
            rear: counts & !rear,
        }
    }
}

// ---- the places

// The lowest places where the rules on the weight of a used truck are broken.
#[derive(Clone, Copy)]
pub struct WeightPlaces {
    pub overload: Option<Place>, // 26
    pub middle: Option<Place>, // 27
    pub rear: Option<Place>, // 28
}

// W1 and W2 of one used truck. Every departure is asked, not the last alone.
pub fn truck_weights(manifest: Manifest<'_>, on: Block) -> WeightPlaces
    requires { OneTruck (stacks_of manifest.table) on.start on.end }
    ensures { LowestPlaces (instance_of manifest.entry.table) (block (stacks_of manifest.entry.table) on.start on.end) result }
{
    let truck = manifest.rows[on.start].truck;
    let copy = manifest.rows[on.start].copy;
    let load = Load {
        rows: &manifest.rows[on.start..on.end],
    };
    let within = load.total_weight() <= (manifest.table.truck_field(truck, LOAD_LIMIT) as u64);
    let axles = Axles {
        line: read_axle_data(manifest.table, truck),
    };
    let list = manifest.table.suppliers(truck);
    let mut middle = None;
    let mut rear = None;
    for before in (0..list.len() as u32).rev() {
        let departure = before + 1;
        let exceeded = load.exceeded(departure, axles);
        middle = lower_of(place_if(exceeded.middle, truck, copy, departure), middle);
        rear = lower_of(place_if(exceeded.rear, truck, copy, departure), rear);
    }
    WeightPlaces {
        overload: place_if(!within, truck, copy, 0),
        middle,
        rear,
    }
}
