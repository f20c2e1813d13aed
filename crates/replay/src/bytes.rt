// The vectors of the crates that read bytes. A byte string stands in front, save for v and u, which have numbers only.
use crate::fields::Fields;
use crate::print;
use literal::{Literal, Span, Words};
use rules::Rule;
use strings::{Broken, Closed};
use token::Token;

// What a decoding's buffer has in each byte before.
const BEFORE: u8 = 0xaa;

// A byte string has at most 256 bytes.
pub(crate) fn vector(letter: u8, mut fields: Fields) -> Option<()> {
    let mut buffer = [0u8; 256];
    let n = fields.string(&mut buffer)?;
    let b = buffer.get(..n)?;
    match letter {
        b'k' => keyword(fields, b),
        b'x' => text_test(fields, b),
        b'n' => number(fields, b),
        b'e' => ends(fields, b),
        b's' => string(fields, b),
        _ => decode(fields, b),
    }
}

// k HEX a e: the kind of the name from a up to e.
fn keyword(mut fields: Fields, b: &[u8]) -> Option<()> {
    let a = fields.number()? as usize;
    let e = fields.number()? as usize;
    fields.end()?;
    print::letter(b'k');
    print::word(Token::keyword(b, a, e).kind);
    print::end();
    Some(())
}

// x HEX: the text test.
fn text_test(fields: Fields, b: &[u8]) -> Option<()> {
    fields.end()?;
    print::letter(b'x');
    print::flag(text::is_text(b));
    print::end();
    Some(())
}

// n HEX start: the number whose first digit stands at start, and its value words.
fn number(mut fields: Fields, b: &[u8]) -> Option<()> {
    let start = fields.number()? as usize;
    fields.end()?;
    let x = numbers::number(b, start);
    print::letter(b'n');
    print::size(x.size);
    print::flag(x.cut);
    print::number(x.whole);
    print::size(x.places);
    value_words(x.whole, x.places);
    print::end();
    Some(())
}

// v m k: the value words of a number by its digits.
pub(crate) fn value(mut fields: Fields) -> Option<()> {
    let m = fields.number()?;
    let k = fields.number()? as usize;
    fields.end()?;
    print::letter(b'v');
    value_words(m, k);
    print::end();
    Some(())
}

// The value words of the number whose digits are m, with k of them after the point.
fn value_words(m: u64, k: usize) {
    let span = Span {
        start: 0,
        length: 0,
    };
    let w = Words::from(Literal::number(m, k, span));
    print::word(w.sort);
    print::word(w.low);
    print::word(w.high);
}

// e HEX i: where the name of rule one, that of rule two, the digits and the comment from i on end.
fn ends(mut fields: Fields, b: &[u8]) -> Option<()> {
    let i = fields.number()? as usize;
    fields.end()?;
    print::letter(b'e');
    print::size(rules::name_end(Rule::ONE, b, i));
    print::size(rules::name_end(Rule::TWO, b, i));
    print::size(spans::digits_end(b, i));
    print::size(spans::comment_end(b, i));
    print::end();
    Some(())
}

// s HEX from: the string whose opening quote stands before from.
fn string(mut fields: Fields, b: &[u8]) -> Option<()> {
    let from = fields.number()? as usize;
    fields.end()?;
    print::letter(b's');
    ended(strings::string(b, from));
    print::end();
    Some(())
}

fn ended(string: Result<Closed, Broken>) {
    print::flag(string.is_ok());
    match string {
        Ok(closed) => {
            print::size(closed.size);
            print::size(closed.lines);
            print::size(closed.length);
        }
        Err(broken) => {
            print::size(broken.size);
            print::size(broken.lines);
        }
    }
}

// d HEX start room: the string decoded into a buffer of room bytes.
fn decode(mut fields: Fields, b: &[u8]) -> Option<()> {
    let start = fields.number()? as usize;
    let room = fields.number()? as usize;
    fields.end()?;
    let mut out = [BEFORE; 256];
    into(b, start, out.get_mut(..room)?);
    Some(())
}

fn into(b: &[u8], start: usize, out: &mut [u8]) {
    let d = decoding::decode(b, start, out);
    print::letter(b'd');
    print::word(d.outcome);
    print::size(d.length);
    print::bytes(out);
    print::end();
}

// u n: decoding a source of 65,535 + n bytes, a quote and letters. It has at most 65,536.
pub(crate) fn too_long(mut fields: Fields) -> Option<()> {
    let n = fields.number()?;
    fields.end()?;
    let mut source = [b'a'; 65536];
    source[0] = b'"';
    let end = n.checked_add(65535)? as usize;
    let mut out = [BEFORE; 4];
    let d = decoding::decode(source.get(..end)?, 0, &mut out);
    print::letter(b'u');
    print::word(d.outcome);
    print::size(d.length);
    print::end();
    Some(())
}
