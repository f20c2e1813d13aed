// A literal of token.rs, by value: what a decimal's digits are worth, and a literal's words in a token record.
#![tactic(auto)]

ghost use Rattle.std.specs.Prelude.{◌≡◌};
ghost use Rattle.literal.specs.Value.{value_of, words_of};

// Where a token's bytes stand in the source.
#[derive(Clone, Copy)]
pub struct Span {
    pub start: u32,
    pub length: u32,
}

// One of five: text, number, long number, truth value or nil.
#[derive(Clone, Copy)]
pub enum Literal {
    // A string, by its span; and its decoded length, which the record keeps.
    Text(Span, u32),
    Number(f64),
    // A number with more digits than one division can value: comparison is by span.
    Long(Span),
    Truth(bool),
    Nil,
}

// What value a token has, as the first value word says it.
#[derive(Clone, Copy, PartialEq, Eq, Debug)]
pub enum Sort {
    Absent = 0,
    Text = 1,
    Number = 2,
    Long = 3,
}

// The three value words of a token record: the value sort and its two words. By default those of a token without a value.
#[derive(Clone, Copy, Default)]
pub struct Words {
    pub sort: u32,
    pub low: u32,
    pub high: u32,
}

impl Literal {
    // The digits m with k of them after the point, which stand at span. Both floats hold their whole number exactly, so the division rounds once.
    pub fn number(m: u64, k: usize, span: Span) -> Self
        ensures { result ≡ value_of m k span }
    {
        if m <= 9007199254740992 && k <= 22 {
            return Literal::Number((m as f64) / TENS[k]);
        }
        Literal::Long(span)
    }
}

// The literal at the edge: its words in a token record.
impl From<Literal> for Words {
    ghost from_gives = { λ literal words. words ≡ words_of literal };

    fn from(literal: Literal) -> Words {
        match literal {
            Literal::Text(_, n) => Words {
                sort: Sort::Text as u32,
                low: n,
                ..Words::default()
            },
            Literal::Number(x) => float_words(x),
            Literal::Long(_) => Words {
                sort: Sort::Long as u32,
                ..Words::default()
            },
            Literal::Truth(_) | Literal::Nil => Words::default(),
        }
    }
}

// The low and the high half of a float's bits. A float that is no number has one pattern of bits here.
fn float_words(x: f64) -> Words
    ensures { result ≡ words_of (Literal.Number x) }
{
    let bits = if x.is_nan() {
        0x7ff8_0000_0000_0000
    } else {
        x.to_bits()
    };
    Words {
        sort: Sort::Number as u32,
        low: (bits % 4294967296) as u32,
        high: (bits / 4294967296) as u32,
    }
}

// 10^k for k up to 22, each held exactly. 10^20 and more are no u64, so the powers are floats from the start.
const TENS: [f64; 23] = [
    1.0,
    10.0,
    100.0,
    1000.0,
    10000.0,
    100000.0,
    1000000.0,
    10000000.0,
    100000000.0,
    1000000000.0,
    10000000000.0,
    100000000000.0,
    1000000000000.0,
    10000000000000.0,
    100000000000000.0,
    1000000000000000.0,
    10000000000000000.0,
    100000000000000000.0,
    1000000000000000000.0,
    10000000000000000000.0,
    100000000000000000000.0,
    1000000000000000000000.0,
    10000000000000000000000.0,
];
