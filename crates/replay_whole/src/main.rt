// Runs the whole reading on stored scripts and prints the answer and every word of the tables afterwards. The file `stdout`, which the Rust
// crate `vectors` makes from the original's answers, has what is right. Here it is proved only that nothing goes wrong on any input.
#![tactic(auto)]

ghost use Rattle.std.specs.Prelude.{◌≤◌, length, IfSome};

fn main() {
    let mut input = [0u8; 262144];
    let n = io::read_full(0, &mut input);
    vectors(&input[..n]);
}

// A vector has a line of seven numbers with five digits each, as `Head` has them. The script follows, and a newline.
const HEAD_BYTES: usize = 42;

// The rule, the way, and the sizes of the token, error and node table and of the index in words. The script's length stands before them.
#[derive(Clone, Copy)]
struct Head {
    rule: u32,
    way: u32,
    tokens: usize,
    errors: usize,
    nodes: usize,
    index: usize,
}

impl Head {
    // The numbers of a line behind the first.
    fn of(line: &[u8]) -> Option<Head> {
        let mut fields = line.chunks(6).skip(1).map(number);
        Some(Head {
            rule: fields.next()?,
            way: fields.next()?,
            tokens: fields.next()? as usize,
            errors: fields.next()? as usize,
            nodes: fields.next()? as usize,
            index: fields.next()? as usize,
        })
    }
}

// The number whose five digits a field starts with. Any other byte counts as 0.
fn number(field: &[u8]) -> u32
    ensures { result ≤ 99999 }
{
    match field {
        [a, b, c, d, e, ..] => {
            10000 * digit(*a) + 1000 * digit(*b) + 100 * digit(*c) + 10 * digit(*d) + digit(*e)
        }
        _ => 0,
    }
}

fn digit(byte: u8) -> u32
    ensures { result ≤ 9 }
{
    char::from(byte).to_digit(10).unwrap_or(0)
}

// Answers the vectors. Where none stands, the next one is looked for a byte further on.
fn vectors(s: &[u8]) {
    let mut rest = s;
    while let [_, next @ ..] = rest {
        rest = match vector(rest) {
            Some([_, next @ ..]) => next,
            Some([]) => return,
            None => {
                unknown();
                next
            }
        };
    }
}

// Answers the vector that s starts with, and gives what follows its script. The length alone says whether one stands there.
fn vector(s: &[u8]) -> Option<&[u8]>
    ensures { IfSome result (λ rest. length rest.now ≤ length s.now) }
{
    let (line, rest) = s.split_at_checked(HEAD_BYTES)?;
    let (source, rest) = rest.split_at_checked(number(line) as usize)?;
    let head = Head::of(line)?;
    if answer(head, source).is_none() {
        unknown();
    }
    Some(rest)
}

// What every word of a table and of the index is before.
const BEFORE: u32 = 7;

// A table has at most so many words, and so has the index.
const MOST_WORDS: usize = 4096;

// The answer, where the tables are not too long.
fn answer(head: Head, source: &[u8]) -> Option<()> {
    let mut tokens = [BEFORE; MOST_WORDS];
    let mut errors = [BEFORE; MOST_WORDS];
    let mut nodes = [BEFORE; MOST_WORDS];
    let mut index = [BEFORE; MOST_WORDS];
    read(
        head,
        source,
        tokens.get_mut(..head.tokens)?,
        errors.get_mut(..head.errors)?,
        nodes.get_mut(..head.nodes)?,
        index.get_mut(..head.index)?,
    );
    Some(())
}

// The answer in its order, then every word of each table and of the index.
fn read(
    head: Head,
    source: &[u8],
    tokens: &mut [u32],
    errors: &mut [u32],
    nodes: &mut [u32],
    index: &mut [u32],
) {
    let r = reader::read(head.rule, head.way, source, tokens, errors, nodes, index);
    words(
        b"o",
        &[r.outcome, r.tokens, r.errors, r.nodes, r.first, r.looks],
    );
    words(b"\nt", tokens);
    words(b"\ne", errors);
    words(b"\nn", nodes);
    words(b"\nx", index);
    io::write_all(1, b"\n");
}

fn words(name: &[u8], table: &[u32]) {
    io::write_all(1, name);
    for word in table {
        io::write_all(1, b" ");
        io::print_decimal(1, u64::from(*word));
    }
}

// The answer to what is no vector.
fn unknown() {
    io::write_all(1, b"?\n");
}
