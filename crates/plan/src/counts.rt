// How large the instance is that a plan is read for.

ghost use Rattle.plan.specs.Below.{BelowLargest, below_prop};

// How many items and trucks the instance has. Their numbers are told from the largest word, which stands for all numbers that do not fit.
#[derive(Clone, Copy)]
pub struct Counts {
    pub items: u32,
    pub trucks: u32,
    pub ghost below: { BelowLargest items trucks } by { below_prop items trucks },
}
