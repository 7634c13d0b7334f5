// A filled table, as the rules read it.

ghost use Rattle.table.specs.Filled.{Filled};
ghost use Rattle.table.specs.Props.{filled_prop};

use crate::named::NamedWords;

// A lent table whose named words hold a model within the limits. What it holds is said by `instance_of` and `stacks_of`.
#[derive(Clone, Copy)]
pub struct Table<'a> {
    pub named: NamedWords<'a>,
    pub ghost filled: { Filled named.limits named.words.now } by { filled_prop named.limits named.words.now },
}
