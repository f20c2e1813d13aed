// Numbers of lexer.rs: where one ends and what its digits are, for `Literal::number` to value.
#![tactic(auto)]

ghost use Rattle.std.specs.Prelude.{◌≡◌, cond, ◌+◌, ◌-◌, ◌*◌, ◌^◌, ◌≤◌, drop, length};
ghost use Rattle.spans.specs.Span.{is_digit, run};
ghost use Rattle.numbers.specs.Number.{front, whole_of, capped, number_at};

#[derive(Clone, Copy, Default)]
pub struct Numeral {
    // How many bytes it has.
    pub size: usize,
    // It has a point and runs to the last byte: there lexer.rs panics.
    pub cut: bool,
    // All its digits as one whole number, or 2^53 + 1 where that is over 2^53.
    pub whole: u64,
    // How many digits stand after the point.
    pub places: usize,
}

// The number whose first digit stands at start.
pub fn number(s: &[u8], start: usize) -> Numeral
    ensures { result ≡ number_at (drop start s.now) }
{
    let Some(&first) = s.get(start) else {
        return Numeral::default();
    };
    let front = read_digits(s, start + 1, digit(first));
    if let Some(b'.') = s.get(front.end) {
        let behind = front.end + 1;
        let all = read_digits(s, behind, front.whole);
        return Numeral {
            size: all.end - start,
            cut: all.end == s.len(),
            whole: all.whole,
            places: all.end - behind,
        };
    }
    Numeral {
        size: front.end - start,
        whole: front.whole,
        ..Numeral::default()
    }
}

#[derive(Clone, Copy)]
struct Digits {
    end: usize,
    whole: u64,
}

// The digits from i on, where those before them read as m.
fn read_digits(s: &[u8], i: usize, m: u64) -> Digits
    requires small { m ≤ 2 ^ 53 + 1 }
    requires within { i ≤ length s.now }
    ensures end { result.end ≡ i + run is_digit (drop i s.now) }
    ensures whole { result.whole ≡ capped (whole_of (front (drop i s.now)) m) }
{
    let mut n = m;
    let mut rest = s.get(i..).unwrap_or(&[]);
    while let [c, next @ ..] = rest {
        if !spans::is_digit(*c) {
            break;
        }
        n = grow(n, *c - b'0');
        rest = next;
    }
    Digits {
        end: s.len() - rest.len(),
        whole: n,
    }
}

// One digit more. The cap keeps the sum small, and no digit that follows brings a number back under it.
fn grow(m: u64, d: u8) -> u64
    requires small { m ≤ 2 ^ 53 + 1 }
    requires digit { d ≤ 9 }
    ensures value { result ≡ capped (10 * m + d) }
    ensures small { result ≤ 2 ^ 53 + 1 }
{
    (10 * m + d as u64).min(9007199254740993)
}

// A first byte's digit; 0 where it is none.
fn digit(c: u8) -> u64
    ensures value { result ≡ cond (is_digit c) (c - 48) 0 }
    ensures small { result ≤ 255 }
{
    if spans::is_digit(c) {
        return (c - b'0') as u64;
    }
    0
}
