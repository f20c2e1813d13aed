// The vectors of the lexer: a source is lexed into tables of given sizes, and the answer has every record that is kept.
use crate::fields::Fields;
use crate::{print, tables};
use literal::Sort;
use records::Outcome;

// What every word of a table is before.
const BEFORE: u32 = 7;

// A table has at most so many words.
const MOST_WORDS: usize = 8192;

// c HEX rule tokens errors: the bytes lexed by a rule into a token table and an error table of so many words. A source has at most 4,096 bytes.
pub(crate) fn vector(mut fields: Fields) -> Option<()> {
    let mut b = [0u8; 4096];
    let n = fields.string(&mut b)?;
    let source = b.get(..n)?;
    let rule = tables::low(fields.number()?);
    let t = fields.number()? as usize;
    let e = fields.number()? as usize;
    fields.end()?;
    on_source(rule, source, t, e)
}

// The tables are in a function of their own: a function pays at entry for the room of its arrays, and what is no vector is not to.
fn on_source(rule: u32, source: &[u8], t: usize, e: usize) -> Option<()> {
    let mut tokens = [BEFORE; MOST_WORDS];
    let mut errors = [BEFORE; MOST_WORDS];
    scan(rule, source, tokens.get_mut(..t)?, errors.get_mut(..e)?);
    Some(())
}

// The answer, the kept tokens, the kept errors, and how many words after them have changed.
fn scan(rule: u32, source: &[u8], tokens: &mut [u32], errors: &mut [u32]) {
    let r = lexer::scan(rule, source, tokens, errors);
    print::letter(b'c');
    print::word(r.outcome);
    print::word(r.tokens);
    print::word(r.errors);
    for t in tokens
        .chunks_exact(records::TOKEN_WIDTH)
        .take(r.tokens as usize)
    {
        token(source, t);
    }
    for e in errors
        .chunks_exact(records::ERROR_WIDTH)
        .take(r.errors as usize)
    {
        print::mark(b'e');
        print::words(e);
    }
    print::mark(b'u');
    let t = changed(tokens, records::TOKEN_WIDTH * (r.tokens as usize));
    let e = changed(errors, records::ERROR_WIDTH * (r.errors as usize));
    print::size(t.wrapping_add(e));
    print::end();
}

// How many words from a place on are not as they were before.
fn changed(t: &[u32], from: usize) -> usize {
    let mut n = 0usize;
    for word in t.get(from..).unwrap_or(&[]) {
        n = n.wrapping_add(usize::from(*word != BEFORE));
    }
    n
}

// A token by its words: kind, bytes, line, where it begins, and value.
fn token(source: &[u8], t: &[u32]) {
    if let [kind, start, length, line, sort, low, high, begins] = t {
        print::mark(b't');
        print::word(*kind);
        span(source, *start as usize, *length as usize);
        print::word(*line);
        print::word(*begins);
        value(source, *start as usize, *sort, *low, *high);
    }
}

// So many bytes of the source from start on.
fn span(source: &[u8], start: usize, length: usize) {
    match source.get(start..).and_then(|rest| rest.get(..length)) {
        Some(bytes) => print::bytes(bytes),
        None => print::wrong(),
    }
}

// The value sort; then the bytes of a text, the words of a number, or 0 for a value that has no words.
fn value(source: &[u8], start: usize, sort: u32, low: u32, high: u32) {
    print::word(sort);
    if sort == Sort::Number as u32 {
        print::word(low);
        print::word(high);
    } else if high != 0 {
        print::wrong();
    } else if sort == Sort::Text as u32 {
        text(source, start, low as usize);
    } else {
        print::word(low);
    }
}

// The string at start, decoded into a buffer of just the length that its token tells.
fn text(source: &[u8], start: usize, length: usize) {
    let mut out = [0u8; 4096];
    match out.get_mut(..length) {
        Some(part) => into(source, start, part),
        None => print::wrong(),
    }
}

fn into(source: &[u8], start: usize, out: &mut [u8]) {
    let d = decoding::decode(source, start, out);
    if (d.outcome == Outcome::Ended as u32) & (d.length == out.len()) {
        print::bytes(out);
    } else {
        print::wrong();
    }
}
