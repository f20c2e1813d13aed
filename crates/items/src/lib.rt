// What stands at a place of the source: bytes to items, by the classes and marks of lexer.rs.
#![tactic(auto)]

ghost use Rattle.std.specs.Prelude.{◌≡◌, ◌+◌, ◌<◌, length, drop};
ghost use Rattle.strings.specs.Strings.{read_of, begun};
ghost use Rattle.numbers.specs.Number.{number_at};
ghost use Rattle.items.specs.Items.{sign_of, name_at, number_item, text_item, pair_at, item_at};

use numbers::Numeral;
use records::Message;
use strings::{Broken, Closed};
use token::Token;

// What a byte is that is no letter and no digit.
#[derive(Clone, Copy)]
pub enum Sign {
    Newline,
    // Space, tab, carriage return: they emit nothing.
    Blank,
    Hash,
    Quote,
    // A mark of one byte: its kind.
    Single(u32),
    // A mark that may have `=` after it: its kind alone (`!` has none), and with it.
    Pair(Option<u32>, u32),
    Illegal,
}

// What stands at a place of the source: all that its bytes give, without the place, the line or a byte.
#[derive(Clone, Copy)]
pub enum Item {
    Space,
    Comment(usize),
    Name {
        kind: u32,
        size: usize,
    },
    Text {
        size: usize,
        lines: usize,
        length: usize,
    },
    Number(Numeral),
    Mark {
        kind: u32,
        size: usize,
        lines: usize,
    },
    Wrong {
        message: u32,
        size: usize,
        lines: usize,
    },
}

impl Item {
    // A newline.
    const LINE: Item = Item::Mark {
        kind: Token::NEWLINE,
        size: 1,
        lines: 1,
    };
}

// What stands at i; past the end a blank. Blanks and newlines are asked for first: they are the commonest.
#[tactic(auto, unfolding(crate::specs::Items::sign_of))]
pub fn item_at(rule: u32, s: &[u8], i: usize) -> Item
    ensures { result ≡ item_at rule (drop i s.now) }
{
    let Some(&c) = s.get(i) else {
        return Item::Space;
    };
    if c == b' ' {
        return Item::Space;
    }
    if c == b'\n' {
        return Item::LINE;
    }
    item_of(rule, s, i)
}

// By the class of its first byte. Letters come first: no sign is one, and of the rest names are the commonest.
fn item_of(rule: u32, s: &[u8], i: usize) -> Item
    requires { i < length s.now }
    ensures { result ≡ item_at rule (drop i s.now) }
{
    let c = s[i];
    if spans::is_alpha(c) {
        return identifier(rule, s, i);
    }
    if spans::is_digit(c) {
        return number(rule, s, i);
    }
    match sign_of(c) {
        Sign::Newline => Item::LINE,
        Sign::Blank => Item::Space,
        Sign::Hash => Item::Comment(spans::comment_end(s, i + 1) - i),
        Sign::Quote => string(s, i),
        Sign::Single(kind) => mark(kind),
        Sign::Pair(alone, with) => pair(s, i, alone, with),
        Sign::Illegal => wrong(Message::ILLEGAL_CHARACTER),
    }
}

// The name that starts at i.
fn identifier(rule: u32, s: &[u8], i: usize) -> Item
    requires { i < length s.now }
    ensures { result ≡ name_at rule (drop i s.now) }
{
    let end = rules::name_end(rule, s, i + 1);
    Item::Name {
        kind: Token::keyword(s, i, end).kind,
        size: end - i,
    }
}

// The number that starts at i, and whether lexing stops at it.
fn number(rule: u32, s: &[u8], i: usize) -> Item
    requires { i < length s.now }
    ensures { result ≡ number_item rule (number_at (drop i s.now)) }
{
    let n = numbers::number(s, i);
    Item::Number(Numeral {
        cut: rules::stops_at(rule, n.cut),
        ..n
    })
}

// The string whose opening quote stands at i.
fn string(s: &[u8], i: usize) -> Item
    requires { i < length s.now }
    ensures { result ≡ text_item (read_of (drop (i + 1) s.now) begun) }
{
    match strings::string(s, i + 1) {
        Ok(
            Closed {
                size,
                lines,
                length,
            },
        ) => Item::Text {
            size: size + 1,
            lines,
            length,
        },
        Err(Broken { size, lines }) => Item::Wrong {
            message: Message::UNCLOSED_STRING,
            size: size + 1,
            lines,
        },
    }
}

// What the byte c is, if it is no letter and no digit.
#[tactic(auto, unfolding(crate::specs::Items::sign_of))]
pub fn sign_of(c: u8) -> Sign
    ensures { result ≡ sign_of c }
{
    match c {
        b'\n' => Sign::Newline,
        b' ' | b'\t' | b'\r' => Sign::Blank,
        b'#' => Sign::Hash,
        b'"' => Sign::Quote,
        b'!' => Sign::Pair(None, Token::BANG_EQUAL),
        b'=' => Sign::Pair(Some(Token::EQUAL), Token::EQUAL_EQUAL),
        b'>' => Sign::Pair(Some(Token::GREATER), Token::GREATER_EQUAL),
        b'<' => Sign::Pair(Some(Token::LESS), Token::LESS_EQUAL),
        b'(' => Sign::Single(Token::LEFT_PAREN),
        b')' => Sign::Single(Token::RIGHT_PAREN),
        b'[' => Sign::Single(Token::LEFT_BRACE),
        b']' => Sign::Single(Token::RIGHT_BRACE),
        b'}' => Sign::Single(Token::RIGHT_CURLY_BRACE),
        b'{' => Sign::Single(Token::LEFT_CURLY_BRACE),
        b',' => Sign::Single(Token::COMMA),
        b'.' => Sign::Single(Token::DOT),
        b'-' => Sign::Single(Token::MINUS),
        b'+' => Sign::Single(Token::PLUS),
        b'/' => Sign::Single(Token::SLASH),
        b'%' => Sign::Single(Token::MOD),
        b'*' => Sign::Single(Token::STAR),
        b'^' => Sign::Single(Token::POWER),
        b':' => Sign::Single(Token::COLON),
        b';' => Sign::Single(Token::SEMICOLON),
        _ => Sign::Illegal,
    }
}

// A mark of one byte.
fn mark(kind: u32) -> Item
    ensures { result ≡ Item.Mark kind 1 0 }
{
    Item::Mark {
        kind,
        size: 1,
        lines: 0,
    }
}

// A message about one byte.
fn wrong(message: u32) -> Item
    ensures { result ≡ Item.Wrong message 1 0 }
{
    Item::Wrong {
        message,
        size: 1,
        lines: 0,
    }
}

// A mark that may have `=` after it, at i. A lone `!` is a message.
fn pair(s: &[u8], i: usize, alone: Option<u32>, with: u32) -> Item
    requires { i < length s.now }
    ensures { result ≡ pair_at alone with (drop (i + 1) s.now) }
{
    if s.get(i + 1) == Some(&b'=') {
        return Item::Mark {
            kind: with,
            size: 2,
            lines: 0,
        };
    }
    match alone {
        Some(kind) => mark(kind),
        None => wrong(Message::LONE_BANG),
    }
}
