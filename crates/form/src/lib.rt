// What a reading keeps, as text (docs/RULES.md, 'Outline'): a line `o` for the answer, then a line for each token, error and node.
// A text goes into a lent buffer as far as that has room.
#![tactic(auto)]

ghost use Rattle.std.specs.Prelude.{ℕ, ◌+◌, ◌*◌, ◌≤◌, ◌≡◌, List, [], ◌∷◌, ◌++◌, get_or};
ghost use Rattle.io.specs.Counts.{IsPrefixLen};
ghost use Rattle.form.specs.Text.{Holds, Adds, field, line_of, lines_of, head_of, read_of, text_of, outline_of};

use entry::{Answer, Way};
use records::Outcome;
use rules::Rule;

// The longest script that is read.
const MOST_BYTES: usize = 4096;

// A buffer of so many bytes holds any outline whole: `outline_fits` in `outlining`.
pub const OUTLINE_BYTES: usize = 287353;

// Words for 2,048 tokens, 256 errors and 1,600 nodes, and for an index of the tokens.
const TOKEN_WORDS: usize = records::TOKEN_WIDTH * 2048;

const ERROR_WORDS: usize = records::ERROR_WIDTH * 256;

const NODE_WORDS: usize = records::NODE_WIDTH * 1600;

const INDEX_WORDS: usize = records::INDEX_WIDTH * 2048;

// A lent buffer, and how many of its bytes are written.
#[derive(Drop)]
struct Page<'a> {
    out: &'a mut [u8],
    at: usize,
}

impl<'a> Page<'a> {
    // Nothing is written yet.
    fn new(out: &'a mut [u8]) -> Page<'a>
        ensures same { result.out.ghost_name ≡ out.entry.ghost_name }
        ensures bytes { result.out.now ≡ out.old }
        ensures start { result.at ≡ 0 }
    {
        Page { out, at: 0 }
    }

    // One byte more.
    fn push(&mut self, byte: u8)
        ensures { Adds (byte ∷ []) self.old self.new }
    {
        if self.at < self.out.len() {
            self.out[self.at] = byte;
            self.at += 1;
        }
    }

    // All bytes of s.
    fn text(&mut self, s: &[u8])
        ensures { Adds s.now self.old self.new }
    {
        for byte in s {
            self.push(*byte);
        }
    }

    // A space and a number.
    fn number(&mut self, n: u32)
        ensures { Adds (field n) self.old self.new }
    {
        let mut digits = [0u8; 20];
        let k = io::decimal(u64::from(n), &mut digits);
        self.push(b' ');
        self.text(&digits[..k]);
    }

    // A line: a letter, and the words that are shown of the record at a place.
    fn line(&mut self, letter: u8, table: &[u32], from: usize, shown: &[usize])
        ensures { Adds (line_of letter table.now from shown.now) self.old self.new }
    {
        self.push(letter);
        for k in shown {
            self.number(word(table, from, *k));
        }
        self.push(b'\n');
    }

    // A line for each of so many records.
    fn lines(&mut self, letter: u8, table: &[u32], width: usize, shown: &[usize], count: u32)
        requires { width ≤ 9 }
        ensures { Adds (lines_of letter table.now width shown.now count) self.old self.new }
    {
        for i in 0..count {
            self.line(letter, table, width * (i as usize), shown);
        }
    }

    // The answer's line.
    fn head(&mut self, r: Answer)
        ensures { Adds (head_of (r.outcome ∷ r.tokens ∷ r.errors ∷ r.nodes ∷ r.first ∷ [])) self.old self.new }
    {
        let row = [r.outcome, r.tokens, r.errors, r.nodes, r.first];
        self.line(b'o', &row, 0, &[0, 1, 2, 3, 4]);
    }

    // An answer and the tables that it left.
    fn reading(&mut self, r: Answer, tokens: &[u32], errors: &[u32], nodes: &[u32])
        ensures { (X : List ℕ) → Adds (text_of (read_of r tokens.now errors.now nodes.now X)) self.old self.new }
    {
        self.head(r);
        let token = [0, 1, 2, 3, 7];
        self.lines(b't', tokens, records::TOKEN_WIDTH, &token, r.tokens);
        let error = [0, 1, 2];
        self.lines(b'e', errors, records::ERROR_WIDTH, &error, r.errors);
        let node = [0, 1, 2, 3, 4, 5, 6, 7, 8];
        self.lines(b'n', nodes, records::NODE_WIDTH, &node, r.nodes);
    }

    // The outline of a script.
    fn outline(&mut self, source: &[u8])
        ensures { Adds (outline_of source.now) self.old self.new }
    {
        if MOST_BYTES < source.len() {
            self.head(Answer {
                outcome: Outcome::TooLong as u32,
                ..Answer::default()
            });
            return;
        }
        let mut tokens = [0u32; TOKEN_WORDS];
        let mut errors = [0u32; ERROR_WORDS];
        let mut nodes = [0u32; NODE_WORDS];
        let mut index = [0u32; INDEX_WORDS];
        let r = reader::read(
            Rule::ONE,
            Way::GoOn as u32,
            source,
            &mut tokens,
            &mut errors,
            &mut nodes,
            &mut index,
        );
        self.reading(r, &tokens, &errors, &nodes);
    }
}

// Word k of a table, counted from a place on; 0 past its end.
fn word(table: &[u32], from: usize, k: usize) -> u32
    ensures { result ≡ get_or table.now (from + k) 0 }
{
    match from.checked_add(k) {
        Some(at) => table.get(at).copied().unwrap_or(0),
        None => 0,
    }
}

// The outline of a script, within the rooms of docs/RULES.md, 'Outline', on the old way: 11 is never printed.
pub fn outline(source: &[u8], out: &mut [u8]) -> usize
    ensures holds { Holds (outline_of source.now) out.old out.new result }
    ensures prefix_len { IsPrefixLen result out.new }
{
    let mut page = Page::new(out);
    page.outline(source);
    page.at
}
