// Reads the fields of a line, one after the other: a space stands before each. What is no field is None, and then the line is no vector.
ghost use Rattle.std.specs.Prelude.{◌<◌, IfSome};

// What is left of a line.
#[derive(Clone, Copy)]
pub(crate) struct Fields<'a> {
    rest: &'a [u8],
}

impl<'a> Fields<'a> {
    pub(crate) fn new(rest: &'a [u8]) -> Fields<'a> {
        Fields { rest }
    }

    // Whether every field was read.
    pub(crate) fn end(&self) -> Option<()> {
        if self.rest.is_empty() { Some(()) } else { None }
    }

    // The next field, a number.
    pub(crate) fn number(&mut self) -> Option<u64> {
        let mut field = self.rest.strip_prefix(b" ")?;
        let mut value = None;
        while let [c @ b'0'..=b'9', next @ ..] = field {
            value = Some(grow(value.unwrap_or(0), *c));
            field = next;
        }
        self.rest = field;
        value
    }

    // The next field, a byte string, decoded to the front of out. It gives its length.
    pub(crate) fn string(&mut self, out: &mut [u8]) -> Option<usize> {
        self.rest = self.rest.strip_prefix(b" ")?;
        if let [b'-', rest @ ..] = self.rest {
            self.rest = rest;
            return Some(0);
        }
        self.pairs(out)
    }

    // Pairs of hexadecimal digits, one at least, each a byte of out, as far as out goes.
    fn pairs(&mut self, out: &mut [u8]) -> Option<usize> {
        for (n, place) in out.iter_mut().enumerate() {
            match self.pair() {
                Some(byte) => *place = byte,
                None if n == 0 => return None,
                None => return Some(n),
            }
        }
        Some(out.len())
    }

    // The byte whose two digits stand in front.
    fn pair(&mut self) -> Option<u8> {
        let [high, low, rest @ ..] = self.rest else {
            return None;
        };
        let byte = 16 * nibble(*high)? + nibble(*low)?;
        self.rest = rest;
        Some(byte)
    }
}

// A hexadecimal digit's value. Capital letters are none.
fn nibble(c: u8) -> Option<u8>
    ensures { IfSome result (λ d. d < 16) }
{
    match c {
        b'0'..=b'9' => Some(c - b'0'),
        b'a'..=b'f' => Some(c - b'a' + 10),
        _ => None,
    }
}

// One decimal digit more. From a tenth of the largest u64 on, numbers are cut to that one.
fn grow(value: u64, c: u8) -> u64 {
    if value < u64::MAX / 10 {
        (10 * value).saturating_add(u64::from(c.saturating_sub(b'0')))
    } else {
        u64::MAX
    }
}
