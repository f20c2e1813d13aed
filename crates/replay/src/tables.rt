// The vectors of the crate records: each works on a table of its own, and most print it whole.
use crate::fields::Fields;
use crate::print;
use records::{InterpreterError, Node, Record, TokenData};

// The number of words stands in front; a table has at most 64.
pub(crate) fn vector(letter: u8, mut fields: Fields) -> Option<()> {
    let mut words = [7u32; 64];
    let t = words.get_mut(..fields.number()? as usize)?;
    let a = low(fields.number()?);
    if letter == b'l' {
        let m = low(fields.number()?);
        fields.end()?;
        link(t, a, m);
    } else {
        fields.end()?;
        at_record(letter, t, a);
    }
    Some(())
}

// The low 32 bits.
pub(crate) fn low(n: u64) -> u32 {
    (n % 4294967296) as u32
}

// l words r m: m made what follows the node that r names.
fn link(t: &mut [u32], r: u32, m: u32) {
    records::link(t, r, m);
    print::letter(b'l');
    print::words(t);
    print::end();
}

// What is pushed has a number of its own in each word.
const TOKEN: TokenData = TokenData {
    kind: 101,
    start: 102,
    length: 103,
    line: 104,
    sort: 105,
    low: 106,
    high: 107,
    begins: 108,
};

const NODE: Node = Node {
    kind: 101,
    token1: 102,
    token2: 103,
    token3: 104,
    child1: 105,
    child2: 106,
    child3: 107,
    child4: 108,
    next: 109,
};

const ERROR: InterpreterError = InterpreterError {
    message: 101,
    line: 102,
    pos: 103,
};

// The vectors whose one number beside the table's size names a record.
fn at_record(letter: u8, t: &mut [u32], n: u32) {
    match letter {
        b't' => push(letter, t, n, TOKEN),
        b'o' => push(letter, t, n, NODE),
        b'p' => push(letter, t, n, ERROR),
        b'z' => zero(t, n),
        _ => reads(t, n),
    }
}

// Whether there was room for the record, and the table.
fn push<R: Record>(letter: u8, t: &mut [u32], n: u32, record: R) {
    let had_room = records::push(t, n, record);
    print::letter(letter);
    print::flag(had_room);
    print::words(t);
    print::end();
}

// z words n: all from node n on made 0.
fn zero(t: &mut [u32], n: u32) {
    records::zero_rest(t, n);
    print::letter(b'z');
    print::words(t);
    print::end();
}

// r words i: the words of token i that have a reader, then the table's rooms, on a table of 0, 1, 2, ..
fn reads(t: &mut [u32], i: u32) {
    for (k, word) in t.iter_mut().enumerate() {
        *word = low(k as u64);
    }
    print::letter(b'r');
    token(t, i);
    rooms(t);
    print::end();
}

fn token(t: &[u32], i: u32) {
    print::word(records::token_kind(t, i));
    print::word(records::token_start(t, i));
    print::word(records::token_length(t, i));
    print::word(records::token_line(t, i));
}

fn rooms(t: &[u32]) {
    print::word(records::room::<TokenData>(t));
    print::word(records::room::<InterpreterError>(t));
    print::word(records::room::<Node>(t));
}
