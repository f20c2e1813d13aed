// Runs the leaf crates and the lexer on test vectors: a line of standard input is a vector, and a line of standard output its answer. The file
// `stdout`, which the Rust crate `vectors` makes, has the right answers. Here it is proved only that nothing goes wrong on any input.
#![tactic(auto)]

mod bytes;
mod fields;
mod lexing;
mod print;
mod tables;

use fields::Fields;

fn main() {
    // Room for the whole of standard input.
    let mut input = [0u8; 262144];
    let n = io::read_full(0, &mut input);
    lines(&input[..n]);
}

// Answers every line. The last one may lack its newline.
fn lines(s: &[u8]) {
    for line in s.split_inclusive(|byte| *byte == b'\n') {
        let vector = line.strip_suffix(b"\n").unwrap_or(line);
        if answer(vector).is_none() {
            print::unknown();
        }
    }
}

// Answers a vector, and says nothing of what is none. The letter says what its fields are: a byte string in front, a table's size in front, numbers only,
// or a source to be lexed. A `#` starts a comment.
fn answer(s: &[u8]) -> Option<()> {
    let (letter, rest) = s.split_first()?;
    let fields = Fields::new(rest);
    match letter {
        b'k' | b'x' | b'n' | b'e' | b's' | b'd' => bytes::vector(*letter, fields),
        b't' | b'o' | b'p' | b'l' | b'z' | b'r' => tables::vector(*letter, fields),
        b'v' => bytes::value(fields),
        b'u' => bytes::too_long(fields),
        b'c' => lexing::vector(fields),
        b'#' => Some(()),
        _ => None,
    }
}
