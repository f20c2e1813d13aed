// The parser that a host keeps between two calls: what becomes of it, and whether it fits the tables that are lent with it.
#![tactic(auto)]

ghost use Rattle.std.specs.Prelude.{◌≡◌, eqb};
ghost use Rattle.records.specs.Outcomes.{goes_on};
ghost use Rattle.host.specs.Kept.{fresh, state_of, marked_as, behind, stopped_at};
ghost use Rattle.host.specs.Fits.{no_eof, only_eof, fits_in};

use parser::State;
use records::{InterpreterError, Node, Outcome, TokenData};
use token::Token;

// What the host keeps between two calls: the cursor, the open loops, how many tokens, errors and nodes stand in the tables, the first and the last
// statement, the last outcome, and the looks so far; `ended` is 0 until the outcome is the final answer. The rule and the way are the host's: they are set before `begin`, and no call
// changes them. A parser of zeros is one that nothing was begun with: a read answers 18.
#[repr(C)]
#[derive(Clone, Copy)]
pub struct Parser {
    pub rule: u32,
    pub way: u32,
    pub current: u32,
    pub loops: u32,
    pub tokens: u32,
    pub errors: u32,
    pub nodes: u32,
    pub first: u32,
    pub last: u32,
    pub ended: u32,
    pub outcome: u32,
    pub looks: u32,
}

// A word of the host's is only carried along, and named by no function here but the conversion.
impl Parser {
    // Before the first statement, with what was lexed.
    pub fn fresh(self, tokens: u32, errors: u32) -> Self
        ensures { result ≡ fresh self tokens errors }
    {
        let begun = Parser {
            current: 0,
            loops: 0,
            tokens,
            errors,
            nodes: 0,
            first: 0,
            last: 0,
            looks: 0,
            ..self
        };
        begun.going_on()
    }

    // Whether the final answer is still to be given.
    pub fn is_open(self) -> bool
        ensures { result ≡ eqb self.ended 0 }
    {
        self.ended == 0
    }

    // A token before EOF is left to be read.
    pub fn going_on(self) -> Self
        ensures { result ≡ marked_as 0 goes_on self }
    {
        Parser {
            ended: 0,
            outcome: u32::from(Outcome::GoesOn),
            ..self
        }
    }

    // The final answer is given.
    pub fn closed(self, outcome: u32) -> Self
        ensures { result ≡ marked_as 1 outcome self }
    {
        Parser {
            ended: 1,
            outcome,
            ..self
        }
    }

    // After a statement, which left this state.
    pub fn behind(self, s: State, statement: u32) -> Self
        ensures { result ≡ behind self s statement }
    {
        Parser {
            current: s.current,
            loops: s.loops,
            errors: s.errors,
            nodes: s.nodes,
            first: parser::first_of(self.first, statement),
            last: statement,
            looks: s.looks,
            ..self
        }
    }

    // At a statement that stopped the reading in this state: none of its nodes is kept, but its errors are, and its looks count.
    pub fn stopped(self, s: State) -> Self
        ensures { result ≡ stopped_at self s }
    {
        Parser {
            errors: s.errors,
            looks: s.looks,
            ..self
        }
    }
}

// Where the reading is that the host keeps.
impl From<Parser> for State {
    ghost from_gives = { λ p s. s ≡ state_of p };

    fn from(p: Parser) -> State {
        State {
            rule: p.rule,
            current: p.current,
            errors: p.errors,
            nodes: p.nodes,
            loops: p.loops,
            looks: p.looks,
        }
    }
}

// Whether none of the first n tokens is EOF.
#[tactic(auto, using(crate::proofs::Cases::eof_there, crate::proofs::Cases::eof_not, crate::proofs::Cases::eof_none))]
pub fn no_eof(tokens: &[u32], n: u32) -> bool
    ensures { result ≡ no_eof tokens.now n }
{
    for i in (0..n).rev() {
        if parser::kind_at(tokens, i) == Token::EOF {
            return false;
        }
    }
    true
}

// Whether the last of n tokens is EOF, and the only one.
#[tactic(auto, using(crate::proofs::Cases::only_none, crate::proofs::Cases::only_last, crate::proofs::Cases::only_other))]
pub fn only_eof(tokens: &[u32], n: u32) -> bool
    ensures { result ≡ only_eof tokens.now n }
{
    let Some(last) = n.checked_sub(1) else {
        return false;
    };
    parser::kind_at(tokens, last) == Token::EOF && no_eof(tokens, last)
}

// Whether a read can go on with what it is lent. The tokens are looked at only where their count fits the table.
#[tactic(auto, using(crate::proofs::Cases::fits_decides, crate::proofs::Cases::fits_fails))]
pub fn fits(tokens: &[u32], errors: &[u32], nodes: &[u32], index: &[u32], p: Parser) -> bool
    ensures { result ≡ fits_in tokens.now errors.now nodes.now index.now p }
{
    let t = records::room::<TokenData>(tokens);
    let e = records::room::<InterpreterError>(errors);
    let n = records::room::<Node>(nodes);
    let x = records::index_room(index);
    let within = (p.tokens <= t)
        & (p.errors <= e)
        & (p.nodes <= n)
        & (p.last <= n)
        & (p.tokens <= x)
        & (p.current < p.tokens)
        & (p.loops <= p.tokens);
    within && only_eof(tokens, p.tokens)
}
