// Writes the parts of an answer: a letter in front, a space before each field.

pub(crate) fn letter(c: u8) {
    io::write_all(1, &[c]);
}

// A letter within an answer: it says what the fields after it are.
pub(crate) fn mark(c: u8) {
    io::write_all(1, &[b' ', c]);
}

pub(crate) fn number(n: u64) {
    io::write_all(1, b" ");
    io::print_decimal(1, n);
}

pub(crate) fn size(n: usize) {
    number(n as u64);
}

pub(crate) fn word(n: u32) {
    number(u64::from(n));
}

pub(crate) fn flag(b: bool) {
    number(u64::from(b));
}

// Every word of a table.
pub(crate) fn words(t: &[u32]) {
    for w in t {
        word(*w);
    }
}

// A byte string in hexadecimal; an empty one is a dash.
pub(crate) fn bytes(s: &[u8]) {
    if s.is_empty() {
        io::write_all(1, b" -");
        return;
    }
    io::write_all(1, b" ");
    for b in s {
        io::print_hex(1, u64::from(*b), 2);
    }
}

// The field of a value that is not as it must be.
pub(crate) fn wrong() {
    io::write_all(1, b" ?");
}

pub(crate) fn end() {
    io::write_all(1, b"\n");
}

// The answer to a line that is no vector.
pub(crate) fn unknown() {
    io::write_all(1, b"?\n");
}
