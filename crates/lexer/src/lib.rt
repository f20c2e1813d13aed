// The lexer of lexer.rs: items to token and error records.
#![tactic(auto)]

ghost use Rattle.std.specs.Prelude.{◌≡◌, ◌+◌, ◌≤◌, length, []};
ghost use Rattle.records.specs.Table.{room, token_width, error_width};
ghost use Rattle.items.specs.Items.{items};
ghost use Rattle.token.specs.Kind.{string_kind};
ghost use Rattle.lexer.specs.Lex.{no_value, lexed_of, Lexing};
ghost use Rattle.lexer.specs.Steps.{Within, Inside, advanced, emit_next, emit_table, error_next, error_table, string_words, number_in, step_in, close_in, finish_in, scan_in, start, stop_at, answer_of, Does};

use items::Item;
use literal::{Literal, Span, Words};
use numbers::Numeral;
use records::{InterpreterError, Outcome, TokenData};
use token::Token;

// The state by value: the next byte, the line, how many tokens and errors stand in their tables, and the kind of the last token.
#[derive(Clone, Copy)]
pub struct Lexer {
    pub current: usize,
    pub line: u32,
    pub tokens: u32,
    pub errors: u32,
    pub last: u32,
}

// A lexing that stops before the end: its outcome, and how many tokens and errors are kept.
#[derive(Clone, Copy)]
pub struct Stop {
    pub outcome: Outcome,
    pub tokens: u32,
    pub errors: u32,
}

// The answer: the outcome, and how many tokens and errors are kept.
#[repr(C)]
#[derive(Clone, Copy)]
pub struct Scanned {
    pub outcome: u32,
    pub tokens: u32,
    pub errors: u32,
}

impl From<Result<Lexer, Stop>> for Scanned {
    ghost from_gives = { λ r a. a ≡ answer_of r };

    fn from(r: Result<Lexer, Stop>) -> Scanned {
        match r {
            Ok(l) => Scanned {
                outcome: Outcome::Ended as u32,
                tokens: l.tokens,
                errors: l.errors,
            },
            Err(stop) => Scanned {
                outcome: stop.outcome as u32,
                tokens: stop.tokens,
                errors: stop.errors,
            },
        }
    }
}

impl Lexer {
    const START: Lexer = Lexer {
        current: 0,
        line: 1,
        tokens: 0,
        errors: 0,
        last: Token::EOF,
    };

    // The lexing stops here. Stops are rare, so they stay out of the loop over the items.
    #[cold]
    #[inline(never)]
    fn stop(self, outcome: Outcome) -> Stop
        ensures { result ≡ stop_at outcome self }
    {
        Stop {
            outcome,
            tokens: self.tokens,
            errors: self.errors,
        }
    }

    // Where the next bytes stand, so many of them.
    fn span(self, size: usize) -> Span
        requires { self.current + size ≤ 65535 }
        ensures { result ≡ record { start = self.current; length = size } }
    {
        Span {
            start: self.current as u32,
            length: size as u32,
        }
    }
}

// Lexes any bytes into any tables, by a rule. A number that names no rule, and a source that is too long or no text, change nothing.
pub fn scan(rule: u32, source: &[u8], tokens: &mut [u32], errors: &mut [u32]) -> Scanned
    ensures { Lexing (lexed_of rule source.now (room token_width tokens.old) (room error_width errors.old))
        result tokens.old tokens.new errors.old errors.new }
{
    Scanned::from(try_scan(rule, source, tokens, errors))
}

// A refusal keeps nothing.
fn refused(outcome: Outcome) -> Stop
    ensures { result ≡ record { outcome = outcome; tokens = 0; errors = 0 } }
{
    Stop {
        outcome,
        tokens: 0,
        errors: 0,
    }
}

// The same, as the state at the end or where it stops.
#[tactic(auto, unfolding(crate::specs::Lex::lexed_of))]
fn try_scan(rule: u32, source: &[u8], tokens: &mut [u32], errors: &mut [u32]) -> Result<Lexer, Stop>
    ensures { Lexing (lexed_of rule source.now (room token_width tokens.old) (room error_width errors.old))
        (answer_of result) tokens.old tokens.new errors.old errors.new }
{
    if !rules::is_known(rule) {
        return Err(refused(Outcome::WrongRule));
    }
    if source.len() > 65535 {
        return Err(refused(Outcome::TooLong));
    }
    if !text::is_text(source) {
        return Err(refused(Outcome::NotText));
    }
    scan_tokens(rule, source, tokens, errors)
}

// Item by item, up to the end of the source: an item says how many bytes it has, so the next one's place is in the state.
fn scan_tokens(
    rule: u32,
    source: &[u8],
    tokens: &mut [u32],
    errors: &mut [u32],
) -> Result<Lexer, Stop>
    requires { length source.now ≤ 65535 }
    ensures { Does (scan_in (items rule source.now 0) start tokens.old errors.old) result tokens.new errors.new }
{
    let mut l = Lexer::START;
    while l.current < source.len() {
        l = scan_token(tokens, errors, l, items::item_at(rule, source, l.current))?;
    }
    finish(tokens, l)
}

// Rule 7: a Newline where the last token is none, then EOF.
fn finish(tokens: &mut [u32], l: Lexer) -> Result<Lexer, Stop>
    requires { Within l 0 0 }
    ensures { Does (finish_in l tokens.old []) result tokens.new [] }
{
    let l = close(tokens, l)?;
    emit_bare(tokens, l, Token::EOF, 0, 0)
}

fn close(tokens: &mut [u32], l: Lexer) -> Result<Lexer, Stop>
    requires { Within l 0 0 }
    ensures { Does (close_in l tokens.old []) result tokens.new [] }
{
    if l.tokens > 0 && l.last != Token::NEWLINE {
        return emit_bare(tokens, l, Token::NEWLINE, 0, 0);
    }
    Ok(l)
}

// Writes what an item gives.
fn scan_token(tokens: &mut [u32], errors: &mut [u32], l: Lexer, x: Item) -> Result<Lexer, Stop>
    requires { Inside l x }
    ensures { Does (step_in x l tokens.old errors.old) result tokens.new errors.new }
{
    match x {
        Item::Space => Ok(advance(l, 1)),
        Item::Comment(n) => Ok(advance(l, n)),
        Item::Name { kind, size } => emit_bare(tokens, l, kind, size, 0),
        Item::Text {
            size,
            lines,
            length,
        } => emit_string(tokens, l, size, lines, length),
        Item::Number(n) => emit_number(tokens, l, n),
        Item::Mark { kind, size, lines } => emit_bare(tokens, l, kind, size, lines),
        Item::Wrong {
            message,
            size,
            lines,
        } => set_error(errors, l, message, size, lines),
    }
}

// Passes n bytes that emit nothing.
fn advance(l: Lexer, n: usize) -> Lexer
    requires { l.current + n ≤ 65535 }
    ensures { result ≡ advanced l n }
{
    Lexer {
        current: l.current + n,
        ..l
    }
}

// A token without a value.
fn emit_bare(
    tokens: &mut [u32],
    l: Lexer,
    kind: u32,
    size: usize,
    lines: usize,
) -> Result<Lexer, Stop>
    requires { Within l size lines }
    ensures { (result ≡ emit_next l kind size lines tokens.old) × (tokens.new ≡ emit_table l kind size lines no_value tokens.old) }
{
    emit(tokens, l, kind, size, lines, Words::default())
}

// A string, and how many bytes it decodes to.
fn emit_string(
    tokens: &mut [u32],
    l: Lexer,
    size: usize,
    lines: usize,
    length: usize,
) -> Result<Lexer, Stop>
    requires { Within l size lines × (length ≤ 65535) }
    ensures { (result ≡ emit_next l string_kind size lines tokens.old) × (tokens.new ≡ emit_table l string_kind size lines (string_words l size length) tokens.old) }
{
    let w = Words::from(Literal::Text(l.span(size), length as u32));
    emit(tokens, l, Token::STRING, size, lines, w)
}

// A number; a stop where it is cut.
fn emit_number(tokens: &mut [u32], l: Lexer, n: Numeral) -> Result<Lexer, Stop>
    requires { Within l n.size 0 }
    ensures { Does (number_in n l tokens.old []) result tokens.new [] }
{
    if n.cut {
        return Err(l.stop(Outcome::NumberAtEnd));
    }
    let w = Words::from(Literal::number(n.whole, n.places, l.span(n.size)));
    emit(tokens, l, Token::NUMBER, n.size, 0, w)
}

// Writes a token of that kind, with size bytes and as many lines passed; a stop where it finds no room.
fn emit(
    tokens: &mut [u32],
    l: Lexer,
    kind: u32,
    size: usize,
    lines: usize,
    w: Words,
) -> Result<Lexer, Stop>
    requires { Within l size lines }
    ensures { (result ≡ emit_next l kind size lines tokens.old) × (tokens.new ≡ emit_table l kind size lines w tokens.old) }
{
    let line = l.line + (lines as u32);
    let room = records::push(
        tokens,
        l.tokens,
        TokenData {
            kind,
            start: l.current as u32,
            length: size as u32,
            line,
            sort: w.sort,
            low: w.low,
            high: w.high,
            begins: l.line,
        },
    );
    if !room {
        return Err(l.stop(Outcome::NoTokenRoom));
    }
    Ok(Lexer {
        current: l.current + size,
        line,
        tokens: l.tokens + 1,
        last: kind,
        ..l
    })
}

// Records a message about size bytes, with as many lines passed; a stop where it finds no room.
fn set_error(
    errors: &mut [u32],
    l: Lexer,
    message: u32,
    size: usize,
    lines: usize,
) -> Result<Lexer, Stop>
    requires { Within l size lines }
    ensures { (result ≡ error_next l size lines errors.old) × (errors.new ≡ error_table l message lines errors.old) }
{
    let line = l.line + (lines as u32);
    let room = records::push(
        errors,
        l.errors,
        InterpreterError {
            message,
            line,
            pos: l.current as u32,
        },
    );
    if !room {
        return Err(l.stop(Outcome::NoErrorRoom));
    }
    Ok(Lexer {
        current: l.current + size,
        line,
        errors: l.errors + 1,
        ..l
    })
}
