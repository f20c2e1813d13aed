// Strings: rule 5 of the lexer, from the byte after an opening quote.
#![tactic(auto)]

ghost use Rattle.std.specs.Prelude.{◌≡◌, ◌<◌, ◌^◌, drop};
ghost use Rattle.strings.specs.Strings.{escape_of, Grown, step_of, read_of, begun, Counted, Passed};

use std::ops::ControlFlow;

// A string whose closing quote was found. The size counts the bytes passed from the byte after the opening quote, the closing quote too, the lines count the newlines among them that are not escaped, and the length is that of the decoded bytes.
#[derive(Clone, Copy)]
pub struct Closed {
    pub size: usize,
    pub lines: usize,
    pub length: usize,
}

// The end came, or a backslash before a byte that is no escape: reading resumes after the bytes passed, which are counted in the same way.
#[derive(Clone, Copy)]
pub struct Broken {
    pub size: usize,
    pub lines: usize,
}

// The state of the reading: whether a backslash stands before, the bytes passed, the decoded length, the newlines.
#[derive(Clone, Copy, Default)]
pub struct Reading {
    pub escaped: bool,
    pub at: usize,
    pub length: usize,
    pub lines: usize,
}

// What the byte after a backslash stands for, if it is an escape.
pub fn unescape_sequence(c: u8) -> Option<u8>
    ensures { result ≡ escape_of c }
{
    match c {
        b'n' => Some(b'\n'),
        b'r' => Some(b'\r'),
        b't' => Some(b'\t'),
        b'\\' => Some(b'\\'),
        b'"' => Some(b'"'),
        _ => None,
    }
}

// One byte of a string: the reading goes on, or the string has ended. Only a newline that no backslash precedes raises the line. The counts are at most the bytes passed, so no sum wraps.
fn pass(t: Reading, b: u8) -> ControlFlow<Result<Closed, Broken>, Reading>
    requires { (t.at < 2 ^ 63) × (t.length < 2 ^ 63) × (t.lines < 2 ^ 63) }
    ensures { (result ≡ step_of t.escaped t.at t.length t.lines b) × Grown t result }
{
    let size = t.at + 1;
    let lines = t.lines;
    let next = Reading {
        escaped: false,
        at: size,
        ..t
    };
    if t.escaped {
        return match unescape_sequence(b) {
            Some(_) => ControlFlow::Continue(Reading {
                length: t.length + 1,
                ..next
            }),
            None => ControlFlow::Break(Err(Broken { size, lines })),
        };
    }
    match b {
        b'"' => ControlFlow::Break(Ok(Closed {
            size,
            lines,
            length: t.length,
        })),
        b'\\' => ControlFlow::Continue(Reading {
            escaped: true,
            ..next
        }),
        b'\n' => ControlFlow::Continue(Reading {
            length: t.length + 1,
            lines: lines + 1,
            ..next
        }),
        _ => ControlFlow::Continue(Reading {
            length: t.length + 1,
            ..next
        }),
    }
}

// The next byte. At the end there is none, and the string is broken.
fn step(t: Reading, s: &[u8]) -> ControlFlow<Result<Closed, Broken>, Reading>
    requires { Counted t }
    ensures { Passed s.now t result }
{
    match s.get(t.at) {
        Some(&b) => pass(t, b),
        None => ControlFlow::Break(Err(Broken {
            size: t.at,
            lines: t.lines,
        })),
    }
}

// One turn. A backslash takes the byte after it along. So no turn begins behind a backslash, and plain bytes, which are most, need no test for one.
fn turn(t: Reading, s: &[u8]) -> ControlFlow<Result<Closed, Broken>, Reading>
    requires { Counted t }
    ensures { Passed s.now t result }
{
    let next = step(t, s)?;
    if next.escaped {
        step(next, s)
    } else {
        ControlFlow::Continue(next)
    }
}

// Rule 5, read from the byte after the opening quote. Past the end there is nothing to read, and the string is broken.
pub fn string(s: &[u8], from: usize) -> Result<Closed, Broken>
    ensures { result ≡ read_of (drop from s.now) begun }
{
    let rest = s.get(from..).unwrap_or(&[]);
    let mut t = Reading::default();
    loop {
        match turn(t, rest) {
            ControlFlow::Continue(next) => t = next,
            ControlFlow::Break(ended) => return ended,
        }
    }
}
