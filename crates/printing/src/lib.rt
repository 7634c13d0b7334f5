// Lines of numbers written into lent bytes, one behind the other.
#![tactic(auto)]

ghost use Rattle.std.specs.Prelude.{◌≡◌, ◌≤◌, [], ◌∷◌, length};
ghost use Rattle.meaning.specs.Print.{digits};
ghost use Rattle.printing.specs.Wrote.{line_bytes};
ghost use Rattle.printing.specs.Appended.{HasRoom, Appended};

// Lent bytes, and how many of them are written, from the first on. (No Vec, which would take memory: there is no heap, and the bytes are the caller's.)
#[derive(Drop)]
pub struct Writer<'a> {
    bytes: &'a mut [u8],
    len: usize,
}

// How many digits a number has. Powers of ten are compared, so that each digit is worked out once, where it is written. (By the library's
// logarithm it takes longer.)
fn digit_count(n: u32) -> usize
    ensures { (result ≡ length (digits n)) × (result ≤ 10) }
{
    let limit = n as u64;
    let mut count: usize = 1;
    let mut power: u64 = 10;
    while power <= limit {
        power *= 10;
        count += 1;
    }
    count
}

// The digits of a number into as many bytes, from the last down. (A loop over the places divides once more, which shows in the time.)
fn put_digits(n: u32, out: &mut [u8])
    requires { length out.old ≡ length (digits n) }
    ensures { out.new ≡ digits n }
{
    let mut rest = n;
    let mut at = out.len() - 1;
    while 10 <= rest {
        out[at] = b'0' + (rest % 10) as u8;
        rest /= 10;
        at -= 1;
    }
    out[at] = b'0' + rest as u8;
}

impl<'a> Writer<'a> {
    // A writer that has written nothing.
    pub fn new(bytes: &'a mut [u8]) -> Writer<'a>
        ensures same_bytes { result.bytes.ghost_name ≡ bytes.entry.ghost_name }
        ensures nothing_written { (result.bytes.now ≡ bytes.old) × (result.len ≡ 0) }
    {
        Writer { bytes, len: 0 }
    }

    // How many bytes are written.
    pub fn len(&self) -> usize
        ensures { result ≡ self.now.len }
    {
        self.len
    }

    // One byte.
    fn byte(&mut self, byte: u8)
        requires { HasRoom (byte ∷ []) self.old }
        ensures { Appended (byte ∷ []) self.old self.new }
    {
        self.bytes[self.len] = byte;
        self.len += 1;
    }

    // Bytes as they are.
    fn text(&mut self, text: &[u8])
        requires { HasRoom text.now self.old }
        ensures { Appended text.now self.old self.new }
    {
        let end = self.len + text.len();
        self.bytes[self.len..end].copy_from_slice(text);
        self.len = end;
    }

    // A number in decimal digits, without leading zero.
    fn number(&mut self, n: u32)
        requires { HasRoom (digits n) self.old }
        ensures { Appended (digits n) self.old self.new }
    {
        let end = self.len + digit_count(n);
        put_digits(n, &mut self.bytes[self.len..end]);
        self.len = end;
    }

    // A line: its key, its numbers with a comma between each two, byte 10.
    pub fn line(&mut self, key: &[u8], numbers: &[u32])
        requires { (1 ≤ length numbers.now) × HasRoom (line_bytes key.now numbers.now) self.old }
        ensures { Appended (line_bytes key.now numbers.now) self.old self.new }
    {
        self.text(key);
        for (i, number) in numbers.iter().enumerate() {
            self.number(*number);
            let separator = if i + 1 == numbers.len() { b'\n' } else { b',' };
            self.byte(separator);
        }
    }
}
