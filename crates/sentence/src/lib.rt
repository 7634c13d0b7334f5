// A verdict in one sentence: its number, its word from document 01's table, and its places by name.
#![tactic(auto)]

ghost use Rattle.std.specs.Prelude.{◌≡◌, map, OnOk};
ghost use Rattle.std.specs.Io.KnownBytes.{Appends};
ghost use Rattle.sentence.specs.Filled.{filled};
ghost use Rattle.sentence.specs.Sentence.{listed_of, pattern_of, numbers_of, sentence_of};

use meaning::Answer;
use std::io;
use std::io::Write;

// What is said of a verdict, by its number. A '#' is a mark, and stands for a number: one of the places or, of an accepted plan, its cost and then its
// used trucks. A table and no enum, since an answer has the number alone and document 01's table counts by it.
const PATTERNS: [&str; 29] = [
    "accepted: cost # thousandths, used trucks #",
    "short table: under 8,976 words",
    "overlong: instance above 65,535 bytes",
    "overlong: plan above 65,535 bytes",
    "instance form: line #",
    "instance range: line #",
    "code clash: item # differs in length or width from item # of its code",
    "plan form: line #",
    "plan range: line #",
    "not once: item # is loaded # times",
    "plant: stack #, item # is unfit for the truck",
    "product: stack #, item # is unfit for the truck",
    "supplier: stack #, item # is unfit for the truck",
    "day: stack #, item # is unfit for the truck",
    "dock: stack #, item # has a supplier dock or plant dock that is not listed",
    "mixed: stack #, item # does not match the bottom item",
    "docks: stack # has # plant docks",
    "second pair: stacks # and # have two docks each, one code, one used truck",
    "turned: stack #, item # is against its forced orientation",
    "top heavy: stack # has weight # above its bottom item",
    "too many: stack # has # items",
    "dense: stack # has weight #, too much for its footprint",
    "outside: stack #, by its height",
    "overlap: stacks # and #",
    "unbraced: stack #, held by no edge of 100 mm, or of its whole width, or of the whole width of a stack in front of it",
    "order: stack # must not stand behind stack #",
    "overload: truck #, copy #",
    "middle axle: truck #, copy #, at departure #",
    "rear axle: truck #, copy #, at departure #",
];

// The pattern of a number; that it is no verdict, where there is none.
fn listed(patterns: &[&'static str], number: u32) -> &'static str
    ensures { result.now ≡ listed_of (map (λ pattern. pattern.now) patterns.now) number }
{
    patterns
        .get(number as usize)
        .copied()
        .unwrap_or("is no verdict")
}

// What is said of the verdict of an answer. Verdict 22 says by its second place on which side a stack is outside.
fn pattern(answer: Answer) -> &'static str
    ensures { result.now ≡ pattern_of answer }
{
    match (answer.number, answer.second) {
        (22, 1) => "outside: stack #, by its length",
        (22, 2) => "outside: stack #, by its width",
        _ => listed(&PATTERNS, answer.number),
    }
}

// The numbers for the marks.
fn numbers(answer: Answer) -> [u64; 3]
    ensures { result ≡ numbers_of answer }
{
    if answer.number == 0 {
        [answer.cost, answer.trucks as u64, 0]
    } else {
        [
            answer.first as u64,
            answer.second as u64,
            answer.third as u64,
        ]
    }
}

// Prints a text with numbers in the places of its marks, the first number for the first mark.
fn print_filled<W: Write>(out: &mut W, text: &str, numbers: [u64; 3]) -> io::Result<()>
    ensures { OnOk result (Appends (W.contents out.old) (W.contents out.new) (filled text.now numbers)) }
{
    let mut rest = text;
    let mut left = numbers.iter();
    while let Some((before, after)) = rest.split_once('#') {
        write!(out, "{before}")?;
        if let Some(number) = left.next() {
            write!(out, "{number}")?;
        }
        rest = after;
    }
    write!(out, "{rest}")
}

// Prints the sentence of an answer, as one line.
pub fn print_sentence<W: Write>(out: &mut W, answer: Answer) -> io::Result<()>
    ensures { OnOk result (Appends (W.contents out.old) (W.contents out.new) (sentence_of answer)) }
{
    write!(out, "{} ", answer.number)?;
    print_filled(out, pattern(answer), numbers(answer))?;
    writeln!(out)
}
