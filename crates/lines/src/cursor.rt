// How far a file is read.
#![tactic(auto)]

ghost use Rattle.std.specs.Prelude.{◌≡◌};
ghost use Rattle.lines.specs.Within.{Within, within_prop};

// A file, where its next line begins, and how many lines stand before it.
#[derive(Clone, Copy)]
pub struct Cursor<'a> {
    pub file: &'a [u8],
    pub at: usize,
    pub line: usize,
    pub ghost within: { Within file.now at line } by { within_prop file.now at line },
}

impl<'a> Cursor<'a> {
    ghost use Rattle.lines.specs.Progress.{start_of};

    // The start of a file: nothing is read yet.
    pub fn start(file: &'a [u8]) -> Cursor<'a>
        ensures { result ≡ start_of file.entry }
    {
        Cursor {
            file,
            at: 0,
            line: 0,
        }
    }
}
