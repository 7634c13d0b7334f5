// One line of a file: where it ends, its key, its value, and the value's numbers as 32-bit words.
#![tactic(auto)]

ghost use Rattle.std.specs.Prelude.{◌≡◌, ◌+◌, ◌≤◌, length, drop};
ghost use Rattle.std.proofs.lemmas.List.Edits.{sets};
ghost use Rattle.meaning.specs.Text.{count_before, numbers, comma_parts, value_after};
ghost use Rattle.text.specs.Words.{lent, parsed_part, parsed_numbers, leading, parsed_line, line_words, one_of};

// The most digits of a number. A word of 64 bits holds so many with room to spare.
const MOST_DIGITS: usize = 10;

// The index of the first such byte from `from` on; the length where there is none, and `from` where that is past the end. (No Option: a line ends there
// either way. It goes over indices and not by the library's `position` over the rest, whose answer `from` would be added to: where lines are short, each
// line would wait for that sum of the one before, and finding a line took up to twice as long.)
pub fn first_byte(bytes: &[u8], from: usize, byte: u8) -> usize
    ensures { result ≡ from + count_before byte (drop from bytes.now) }
{
    for at in from..bytes.len() {
        if bytes[at] == byte {
            return at;
        }
    }
    from.max(bytes.len())
}

// Whether one of the eight bytes from `at` on ends a line. There is no branch between them, so that the compiler makes one comparison of all eight.
fn ends_in_eight(bytes: &[u8], at: usize) -> bool
    requires { at + 8 ≤ length bytes.now }
    ensures { result ≡ one_of 10 bytes.now at 8 }
{
    (bytes[at] == 10)
        | (bytes[at + 1] == 10)
        | (bytes[at + 2] == 10)
        | (bytes[at + 3] == 10)
        | (bytes[at + 4] == 10)
        | (bytes[at + 5] == 10)
        | (bytes[at + 6] == 10)
        | (bytes[at + 7] == 10)
}

// The index of the first end of a line from `from` on, as `first_byte` has it. Most lines are long, so eight bytes are passed at a time: the
// library's search, byte by byte, takes more than three times as long.
pub fn line_end(bytes: &[u8], from: usize) -> usize
    ensures { result ≡ from + count_before 10 (drop from bytes.now) }
{
    if bytes.len() < from {
        return from;
    }
    let mut at = from;
    while 8 <= bytes.len() - at {
        if ends_in_eight(bytes, at) {
            break;
        }
        at += 8;
    }
    first_byte(bytes, at, 10)
}

// The line's value: what stands behind its key. None where the line doesn't begin with the key, byte by byte.
fn value_of<'a>(line: &'a [u8], key: &[u8]) -> Option<&'a [u8]>
    ensures { lent result ≡ value_after key.now line.now }
{
    line.strip_prefix(key)
}

// A number at the front of some bytes: as a word, and how many bytes it has.
#[derive(Clone, Copy)]
struct ParsedNumber {
    as_word: u32,
    len: usize,
}

// The number at the front, which ends before a comma or where the bytes end: 1 to 10 digits, without needless leading zero. The largest word
// stands for a number that fits none, since every range refuses it. The number is worked out and its digits are counted on the way to its end: a
// second walk over the digits takes time.
fn parse_number(bytes: &[u8]) -> Option<ParsedNumber>
    ensures { result ≡ parsed_part bytes.now }
{
    let mut n: u64 = 0;
    let mut digits: usize = 0;
    for byte in bytes {
        if !byte.is_ascii_digit() {
            if *byte == b',' {
                break;
            }
            return None;
        }
        if digits == MOST_DIGITS {
            return None;
        }
        n = 10 * n + u64::from(*byte - b'0');
        digits += 1;
    }
    if digits == 0 {
        return None;
    }
    if 1 < digits && bytes[0] == b'0' {
        return None;
    }
    let as_word = u32::try_from(n).unwrap_or(u32::MAX);
    Some(ParsedNumber {
        as_word,
        len: digits,
    })
}

// Stores the numbers of a value, which stand between commas, from the front of `out` on, and answers how many they are. None where a part is no
// number, there are too few numbers, or more than there is room for.
fn parse_numbers(value: &[u8], least: usize, out: &mut [u32]) -> Option<usize>
    ensures answer { result ≡ parsed_numbers least (length out.old) (numbers (comma_parts value.now)) }
    ensures words { out.new ≡ sets out.old 0
        (leading (length out.old) (comma_parts value.now)) }
{
    let mut rest = value;
    for (stored, slot) in out.iter_mut().enumerate() {
        let number = parse_number(rest)?;
        *slot = number.as_word;
        let Some((_comma, others)) = rest[number.len..].split_first() else {
            let count = stored + 1;
            return (least <= count).then_some(count);
        };
        rest = others;
    }
    None
}

// A line that was taken: where the next one begins, and how many numbers this one has.
#[derive(Clone, Copy)]
pub struct ParsedLine {
    pub next: usize,
    pub count: usize,
}

// Stores the numbers of the line that begins at `at`: at least `least` of them, and at most as many as `out` has room for. None where the line is
// unended, has another key or is no list of so many numbers.
pub fn parse_line(
    bytes: &[u8],
    at: usize,
    key: &[u8],
    least: usize,
    out: &mut [u32],
) -> Option<ParsedLine>
    ensures answer { result ≡ parsed_line key.now least (length out.old) at (drop at bytes.now) }
    ensures words { out.new ≡ sets out.old 0
        (line_words key.now (length out.old) (drop at bytes.now)) }
{
    let end = line_end(bytes, at);
    if bytes.len() <= end {
        return None;
    }
    let value = value_of(&bytes[at..end], key)?;
    let count = parse_numbers(value, least, out)?;
    Some(ParsedLine {
        next: end + 1,
        count,
    })
}
