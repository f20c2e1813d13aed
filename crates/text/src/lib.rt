// The text test: bytes pass if they are well-formed by the Unicode Standard's table, which is what Rust accepts as a String.
#![tactic(auto)]

ghost use Rattle.std.specs.Prelude.{◌≡◌, true, []};
ghost use Rattle.text.specs.Text.{table, begins, behind, fits, after, is_text};
ghost use Rattle.text.specs.Due.{columns_of};

// Whether s passes the text test. Most scripts are plain ASCII, which a look at many bytes at a time shows.
pub fn is_text(s: &[u8]) -> bool
    ensures { result ≡ is_text s.now }
{
    if is_ascii(s) {
        return true;
    }
    let mut due = Due::none();
    for &b in s {
        if !due.fits(b) {
            return false;
        }
        due = due.after(b);
    }
    due.left == 0
}

// So many bytes are many.
const MANY: usize = 4096;

// Whether no byte is over 7F, and then s is text. The library's test is the quicker one over few bytes, since it stops early; over many the largest byte is.
fn is_ascii(s: &[u8]) -> bool
    ensures { result ≡ true → is_text s.now ≡ true }
{
    if s.len() < MANY {
        s.is_ascii()
    } else {
        largest_is_ascii(s)
    }
}

// The same by the largest byte: the compiler takes many bytes at a time.
fn largest_is_ascii(s: &[u8]) -> bool
    ensures { result ≡ true → is_text s.now ≡ true }
{
    let mut top = 0;
    for &b in s {
        top = top.max(b);
    }
    top < 0x80
}

// What is due within a letter: how many bytes, and from what to what the next of them may be. Those after it are 80..BF.
#[derive(Clone, Copy)]
struct Due {
    left: usize,
    low: u8,
    high: u8,
}

impl Due {
    // Between two letters.
    fn none() -> Self
        ensures { columns_of result ≡ [] }
    {
        Due::bytes(0, 0x80, 0xbf)
    }

    // So many, the next of them from low to high.
    fn bytes(left: usize, low: u8, high: u8) -> Self
        ensures { result ≡ record { left = left; low = low; high = high } }
    {
        Due { left, low, high }
    }

    // Whether b may come next.
    fn fits(self, b: u8) -> bool
        ensures { result ≡ fits (columns_of self) b }
    {
        if self.left == 0 {
            is_first(b)
        } else {
            (self.low..=self.high).contains(&b)
        }
    }

    // What is due after b.
    fn after(self, b: u8) -> Self
        ensures { columns_of result ≡ after (columns_of self) b }
    {
        if self.left == 0 {
            Due::behind(b)
        } else {
            Due::bytes(self.left - 1, 0x80, 0xbf)
        }
    }

    // What follows a first byte, by the rows of the table; nothing where no row begins with b. Most bytes are of the first row.
    fn behind(b: u8) -> Self
        ensures { columns_of result ≡ behind table b }
    {
        if b < 0x80 {
            return Due::none();
        }
        match b {
            0xc2..=0xdf => Due::bytes(1, 0x80, 0xbf),
            0xe0 => Due::bytes(2, 0xa0, 0xbf),
            0xe1..=0xec => Due::bytes(2, 0x80, 0xbf),
            0xed => Due::bytes(2, 0x80, 0x9f),
            0xee..=0xef => Due::bytes(2, 0x80, 0xbf),
            0xf0 => Due::bytes(3, 0x90, 0xbf),
            0xf1..=0xf3 => Due::bytes(3, 0x80, 0xbf),
            0xf4 => Due::bytes(3, 0x80, 0x8f),
            _ => Due::none(),
        }
    }
}

// Whether a row of the table begins with b.
fn is_first(b: u8) -> bool
    ensures { result ≡ begins table b }
{
    matches!(b, 0x00..=0x7f | 0xc2..=0xf4)
}
