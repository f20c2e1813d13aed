// Byte classes and spans of lexer.rs: names, digits, comments.
#![tactic(auto)]

ghost use Rattle.std.specs.Prelude.{◌≡◌, ◌+◌, ◌≤◌, drop, length};
ghost use Rattle.std.specs.List.{prefix_len};
ghost use Rattle.spans.specs.Span.{is_alpha, is_digit, is_inner, in_class, run};

// What a span is made of.
#[derive(Clone, Copy)]
pub enum Class {
    // Letters and _.
    Name,
    // Letters, _ and digits.
    Word,
    Digit,
    Comment,
}

pub fn is_alpha(c: u8) -> bool
    ensures { result ≡ is_alpha c }
{
    c.is_ascii_alphabetic() | (c == b'_')
}

pub fn is_digit(c: u8) -> bool
    ensures { result ≡ is_digit c }
{
    c.is_ascii_digit()
}

// Whether c belongs to a span of class k.
pub fn in_class(k: Class, c: u8) -> bool
    ensures { result ≡ in_class k c }
{
    match k {
        Class::Name => is_alpha(c),
        Class::Word => is_alpha(c) | is_digit(c),
        Class::Digit => is_digit(c),
        Class::Comment => c != b'\n',
    }
}

// Where the span of class k that starts at i ends; i itself past the end of s.
pub fn span_end(s: &[u8], i: usize, k: Class) -> usize
    ensures { result ≡ i + run (in_class k) (drop i s.now) }
{
    match s.get(i..) {
        Some(rest) => i + span_length(rest, k),
        None => i,
    }
}

// How many bytes at the front of s belong to a span of class k.
fn span_length(s: &[u8], k: Class) -> usize
    ensures size { result ≡ prefix_len (in_class k) s.now }
    ensures within { result ≤ length s.now }
{
    s.iter().take_while(|&&c| in_class(k, c)).count()
}

pub fn digits_end(s: &[u8], i: usize) -> usize
    ensures { result ≡ i + run is_digit (drop i s.now) }
{
    span_end(s, i, Class::Digit)
}

pub fn comment_end(s: &[u8], i: usize) -> usize
    ensures { result ≡ i + run is_inner (drop i s.now) }
{
    span_end(s, i, Class::Comment)
}
