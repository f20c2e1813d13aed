// The two rules of a reading: their numbers, and where they differ.
#![tactic(auto)]

ghost use Rattle.std.specs.Prelude.{◌≡◌, ◌+◌, drop};
ghost use Rattle.spans.specs.Span.{run};
ghost use Rattle.rules.specs.Rules.{known, is_named, stops_at};

use spans::Class;

// The rules, named here once: the numbers of specs/Rules.antt.
#[derive(Clone, Copy)]
pub struct Rule {
    pub number: u32,
}

impl Rule {
    // The original's.
    pub const ONE: u32 = 1;

    // Our own: the original's but for three places.
    pub const TWO: u32 = 2;
}

// Whether a number names a rule.
pub fn is_known(rule: u32) -> bool
    ensures { result ≡ known rule }
{
    matches!(rule, Rule::ONE | Rule::TWO)
}

// Where a name ends whose bytes after the first start at i; i itself past the end of s.
pub fn name_end(rule: u32, s: &[u8], i: usize) -> usize
    ensures { result ≡ i + run (is_named rule) (drop i s.now) }
{
    if rule == Rule::TWO {
        return spans::span_end(s, i, Class::Word);
    }
    spans::span_end(s, i, Class::Name)
}

// Whether lexing stops at a number; `cut` says that it has a point and runs to the last byte.
pub fn stops_at(rule: u32, cut: bool) -> bool
    ensures { result ≡ stops_at rule cut }
{
    (rule != Rule::TWO) & cut
}
