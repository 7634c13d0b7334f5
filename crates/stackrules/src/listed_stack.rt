// A stack of the manifest, as the rules on single stacks read it.

ghost use Rattle.std.specs.Prelude.{◌<◌, length};
ghost use Rattle.table.specs.Held.{stacks_of};
ghost use Rattle.stackrules.specs.Props.{listed_prop};

use manifest::Manifest;

// A stack by its place in the rows of a manifest.
#[derive(Clone, Copy)]
pub struct ListedStack<'a> {
    pub manifest: Manifest<'a>,
    pub at: usize,
    pub ghost listed: { at < length (stacks_of manifest.table) } by { listed_prop (stacks_of manifest.table) at },
}
