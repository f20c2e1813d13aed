// The step from lexing to parsing, and what a whole reading is: its definition and its answer.
#![tactic(auto)]

ghost use Rattle.std.specs.Prelude.{◌≡◌};
ghost use Rattle.entry.specs.Ways.{way_of, outcome_on};
ghost use Rattle.entry.specs.Entry.{entered, Indexes, Enters};

use lexer::Scanned;
use records::Outcome;

// What a reading answers: the outcome, how many tokens, errors and nodes are kept, the first statement, 0 where none is, and how often `check` was called.
#[repr(C)]
#[derive(Clone, Copy, Default)]
pub struct Answer {
    pub outcome: u32,
    pub tokens: u32,
    pub errors: u32,
    pub nodes: u32,
    pub first: u32,
    pub looks: u32,
}

// What was lexed, as an answer without a node.
impl From<Scanned> for Answer {
    ghost from_gives = { λ d a. a ≡ record { outcome = d.outcome; tokens = d.tokens; errors = d.errors; nodes = 0; first = 0; looks = 0 } };

    fn from(d: Scanned) -> Answer {
        Answer {
            outcome: d.outcome,
            tokens: d.tokens,
            errors: d.errors,
            ..Answer::default()
        }
    }
}

// The two ways of a reading.
#[derive(Clone, Copy, PartialEq, Eq, Debug)]
pub enum Way {
    // The new way: nothing is parsed where lexing recorded an error.
    Stop = 0,
    // The old way: what was lexed to its end is parsed.
    GoOn = 1,
}

// A caller gives a number, and every number but 0 means the old way.
impl From<u32> for Way {
    ghost from_gives = { λ n w. w ≡ way_of n };

    fn from(number: u32) -> Way {
        match number {
            0 => Way::Stop,
            _ => Way::GoOn,
        }
    }
}

// What becomes of lexing's outcome on a way.
fn outcome_on(way: u32, outcome: u32, errors: u32) -> u32
    ensures { result ≡ outcome_on way outcome errors }
{
    match Way::from(way) {
        Way::Stop if (outcome == Outcome::Ended as u32) & (errors > 0) => Outcome::NotParsed as u32,
        _ => outcome,
    }
}

// What the index asks of that outcome: where n tokens are to be parsed it is written, or has too little room for them.
fn index_on(tokens: &[u32], index: &mut [u32], outcome: u32, n: u32) -> u32
    ensures { Indexes tokens.now outcome n index.old result index.new }
{
    if (outcome == Outcome::Ended as u32) && !lines::index_lines(tokens, index, n) {
        Outcome::NoBufferRoom as u32
    } else {
        outcome
    }
}

// The step from lexing to parsing: `read` begins with it, and the reading of a statement at a time. With outcome 0 what was lexed is to be parsed, and the index
// is written. Any other ends the reading, and the index is as it was: after 3, 4 and 13 so is the node table, else it is all zeros.
pub fn enter(
    rule: u32,
    way: u32,
    source: &[u8],
    tokens: &mut [u32],
    errors: &mut [u32],
    nodes: &mut [u32],
    index: &mut [u32],
) -> Scanned
    ensures { Enters (entered rule way source.now tokens.old errors.old nodes.old index.old)
        result tokens.new errors.new nodes.new index.new }
{
    let d = lexer::scan(rule, source, tokens, errors);
    let lexed = outcome_on(way, d.outcome, d.errors);
    let outcome = index_on(tokens, index, lexed, d.tokens);
    if (outcome != Outcome::Ended as u32)
        & (outcome != Outcome::NotText as u32)
        & (outcome != Outcome::TooLong as u32)
        & (outcome != Outcome::WrongRule as u32)
    {
        records::zero_rest(nodes, 0);
    }
    Scanned { outcome, ..d }
}
