// What the readers of parser.rs stand on: the state, what a reader answers, and the leaves, which look at tokens and write nodes and errors.
#![tactic(auto)]

ghost use Rattle.std.specs.Prelude.{◌≡◌, List, not, ℕ, ◌-◌, eqb, Ok, Err};
ghost use Rattle.token.specs.Kind.{eof_kind};
ghost use Rattle.records.specs.Table.{linked};
ghost use Rattle.rules.specs.Rules.{loops_behind};
ghost use Rattle.parser.specs.Tokens.{kind_at, start_at, line_at, after, indexed, view, skip_lines, peek_at, check_at, matches_at};
ghost use Rattle.parser.specs.Tables.{answered, moved, counted_by, looked, looped, fresh_state, error_at, push_node, push_error, plain, consume_at, require_at};
ghost use Rattle.parser.specs.Programs.{raised};
ghost use Rattle.parser.specs.Grammar.{first_of};

use records::{InterpreterError, Node, Outcome};
use rules::Rule;
use token::Token;

// Where the reading is: the token at the cursor, how many errors and nodes stand in their tables, the open loops of the innermost function, and
// how often `check` was called. The rule is carried along, and no reader changes it.
#[derive(Clone, Copy)]
pub struct State {
    pub rule: u32,
    pub current: u32,
    pub errors: u32,
    pub nodes: u32,
    pub loops: u32,
    pub looks: u32,
}

// What may stand left of `=`: a name, or a property of an object; Empty is told apart since a statement asks for it.
#[derive(Clone, Copy)]
pub enum Form {
    Other,
    Empty,
    Name(u32),
    Property(u32, u32),
}

// What a reader found: a node, what it may be left of `=`, and the outermost access node through which.
#[derive(Clone, Copy)]
pub struct Found {
    pub node: u32,
    pub form: Form,
    pub access: u32,
}

// Why a reading stopped, and its state then.
#[derive(Clone, Copy)]
pub struct Halted {
    pub p: State,
    pub outcome: u32,
}

// A reader's answer: the state after what it found, or a stop, which `?` passes on.
pub type Out = Result<(State, Found), Halted>;

// The next token that is no Newline: its kind, and the token past it.
#[derive(Clone, Copy)]
pub struct Coming {
    pub kind: u32,
    pub past: u32,
}

// ---- looking at tokens. Past the table's end every kind is EOF's.

#[tactic(auto, unfolding(crate::specs::Tokens::kind_at))]
pub fn kind_at(tokens: &[u32], i: u32) -> u32
    ensures { result ≡ kind_at tokens.now i }
{
    records::token_kind(tokens, i)
}

#[tactic(auto, unfolding(crate::specs::Tokens::start_at))]
pub fn start_at(tokens: &[u32], i: u32) -> u32
    ensures { result ≡ start_at tokens.now i }
{
    records::token_start(tokens, i)
}

#[tactic(auto, unfolding(crate::specs::Tokens::line_at))]
pub fn line_at(tokens: &[u32], i: u32) -> u32
    ensures { result ≡ line_at tokens.now i }
{
    records::token_line(tokens, i)
}

// The tokens that are read, with the index of their newlines: what every reader is lent, and none changes.
#[derive(Clone, Copy)]
pub struct Tokens<'a> {
    pub table: &'a [u32],
    pub index: &'a [u32],
}

impl<'a> Tokens<'a> {
    pub fn new(table: &'a [u32], index: &'a [u32]) -> Self
        ensures lent { (result.table.now ≡ table.now) × (result.index.now ≡ index.now) }
        ensures seen { view result ≡ indexed table.now index.now }
    {
        Tokens { table, index }
    }

    pub fn kind_at(&self, i: u32) -> u32
        ensures { result ≡ kind_at self.now.table.now i }
    {
        kind_at(self.table, i)
    }

    // The token after token i; there is none after EOF.
    pub fn next(&self, i: u32) -> u32
        ensures { result ≡ after self.now.table.now i }
    {
        if self.kind_at(i) == Token::EOF {
            return i;
        }
        i + 1
    }

    // Past the newlines: from a Newline the index leads on. A word of it that would lead back is ignored.
    #[tactic(auto, using(crate::proofs::Look::skip_word, crate::proofs::Look::skip_stays, crate::proofs::Look::skip_end))]
    fn skip(&self, at: u32) -> u32
        ensures { result ≡ skip_lines (view self.now) at }
    {
        if self.kind_at(at) == Token::NEWLINE {
            let first = records::index_word(self.index, at);
            if at < first {
                return first - 1;
            }
        }
        at
    }

    // What comes past the newlines, for a reader that tests it for many kinds. Only this function and `check` pass newlines. Both see a token that is no Newline at
    // once, as most are.
    pub fn peek(&self, at: u32) -> Coming
        ensures { result ≡ peek_at (view self.now) at }
    {
        let here = self.kind_at(at);
        if here != Token::NEWLINE {
            let past = self.next(at);
            return Coming { kind: here, past };
        }
        let i = self.skip(at);
        let kind = self.kind_at(i);
        let past = self.next(i);
        Coming { kind, past }
    }

    // `check`: for any kind but Newline it passes newlines. Where it finds the token the cursor stays on it; else the caller keeps its own.
    pub fn check(&self, at: u32, kind: u32) -> Option<u32>
        ensures { result ≡ check_at (view self.now) at kind }
    {
        if kind == Token::NEWLINE {
            if self.kind_at(at) == Token::NEWLINE {
                Some(at)
            } else {
                None
            }
        } else {
            let here = self.kind_at(at);
            if here == kind {
                return Some(at);
            }
            if here != Token::NEWLINE {
                return None;
            }
            let i = self.skip(at);
            if self.kind_at(i) == kind {
                Some(i)
            } else {
                None
            }
        }
    }

    // `matches`: the cursor after the token found.
    pub fn matches(&self, at: u32, kind: u32) -> Option<u32>
        ensures { result ≡ matches_at (view self.now) at kind }
    {
        let i = self.check(at, kind)?;
        Some(self.next(i))
    }

    // `is_at_end`: it passes no newlines.
    pub fn is_at_end(&self, p: State) -> bool
        ensures { result ≡ eqb (kind_at self.now.table.now p.current) eof_kind }
    {
        self.kind_at(p.current) == Token::EOF
    }

    // The error with that message about a token: it carries the token's line, and where the token starts.
    pub fn error_at(&self, message: u32, token: u32) -> InterpreterError
        ensures { result ≡ error_at self.now.table.now message token }
    {
        let line = line_at(self.table, token);
        let pos = start_at(self.table, token);
        InterpreterError { message, line, pos }
    }

    // The one function that records a parser error: message, and the token whose line and start it reports; 6 where it finds no room.
    pub fn set_error(&self, errors: &mut [u32], p: State, message: u32, token: u32) -> Out
        ensures { (N : List ℕ) → answered result errors.new N ≡ push_error self.now.table.now message token p errors.old N }
    {
        let n = p.errors;
        let e = self.error_at(message, token);
        if records::push(errors, n, e) {
            let more = n + 1;
            return gives(State { errors: more, ..p }, 0);
        }
        stopped(p, Outcome::NoErrorRoom as u32)
    }

    // `consume`: one look; the token's reference, or its absence is an error, and 0.
    pub fn consume(&self, errors: &mut [u32], p: State, kind: u32, message: u32) -> Out
        ensures { (N : List ℕ) → answered result errors.new N ≡ consume_at (view self.now) kind message p errors.old N }
    {
        let at = p.current;
        match self.matches(at, kind) {
            Some(i) => gives(p.at_token(i, 1), i),
            None => self.set_error(errors, p.looked(1), message, at),
        }
    }

    // A `consume` whose result is unwrapped: its failure stops the reading.
    pub fn require(&self, errors: &mut [u32], p: State, kind: u32, message: u32) -> Out
        ensures { (N : List ℕ) → answered result errors.new N ≡ require_at (view self.now) kind message p errors.old N }
    {
        let at = p.current;
        match self.matches(at, kind) {
            Some(i) => gives(p.at_token(i, 1), i),
            None => {
                let (q, _) = self.set_error(errors, p.looked(1), message, at)?;
                stopped(q, Outcome::FatalStop as u32)
            }
        }
    }
}

// ---- the state by value

impl State {
    // The reading goes on at token i, found after so many looks.
    #[tactic(auto, unfolding(crate::specs::Tables::counted_by))]
    pub fn at_token(self, i: u32, n: u32) -> Self
        ensures { result ≡ moved (looked self n) i }
    {
        State {
            current: i,
            looks: self.looks.saturating_add(n),
            ..self
        }
    }

    // So many looks more; a count that a word can't hold stays at the greatest. No reading comes near it.
    #[tactic(auto, unfolding(crate::specs::Tables::counted_by))]
    pub fn looked(self, n: u32) -> Self
        ensures { result ≡ looked self n }
    {
        State {
            looks: self.looks.saturating_add(n),
            ..self
        }
    }

    // The reading goes on with so many open loops.
    pub fn with_loops(self, n: u32) -> Self
        ensures { result ≡ looped self n }
    {
        State { loops: n, ..self }
    }

    // The state that a parsing starts in, by a rule and with so many errors recorded before.
    pub fn fresh(rule: u32, errors: u32) -> Self
        ensures { result ≡ fresh_state rule errors }
    {
        State {
            rule,
            current: 0,
            errors,
            nodes: 0,
            loops: 0,
            looks: 0,
        }
    }

    // `previous`: the reference of the token before the cursor is the cursor itself.
    pub fn previous(self) -> u32
        ensures { result ≡ self.current }
    {
        self.current
    }

    #[tactic(auto, unfolding(crate::specs::Programs::raised))]
    pub fn enter_loop(self) -> Self
        ensures { result ≡ looped self (raised self.loops) }
    {
        self.with_loops(self.loops.saturating_add(1))
    }

    pub fn leave_loop(self) -> Self
        ensures { result ≡ looped self (self.loops - 1) }
    {
        self.with_loops(self.loops.saturating_sub(1))
    }

    // After an enhanced for: rule two leaves its loop as a classic for's is left; rule one keeps the count, as the Rust does.
    pub fn give_back(self) -> Self
        ensures { result ≡ looped self (loops_behind self.rule self.loops) }
    {
        if self.rule == Rule::TWO {
            return self.leave_loop();
        }
        self
    }

    pub fn inside_loop(self) -> bool
        ensures { result ≡ not (eqb self.loops 0) }
    {
        self.loops != 0
    }
}

// ---- answers

// A node, or a token's reference, that is nothing left of `=`.
pub fn gives(p: State, n: u32) -> Out
    ensures { result ≡ Ok (p, plain n) }
{
    let found = Found {
        node: n,
        form: Form::Other,
        access: 0,
    };
    Ok((p, found))
}

pub fn stopped(p: State, outcome: u32) -> Out
    ensures { result ≡ Err (record { p = p; outcome = outcome }) }
{
    Err(Halted { p, outcome })
}

// ---- writing

// A list's first member: the one it has, or the one that is added.
#[tactic(auto, unfolding(crate::specs::Grammar::first_of))]
pub fn first_of(first: u32, n: u32) -> u32
    ensures { result ≡ first_of first n }
{
    if first == 0 { n } else { first }
}

// A list that is being read: its first member and its last, 0 while there is none.
#[derive(Clone, Copy)]
pub struct Members {
    pub first: u32,
    pub last: u32,
}

impl Members {
    pub const NONE: Members = Members { first: 0, last: 0 };

    // One member more: the last one leads to it.
    pub fn and(self, nodes: &mut [u32], n: u32) -> Self
        ensures members { result ≡ record { first = first_of self.first n; last = n } }
        ensures next { nodes.new ≡ linked nodes.old self.last n }
    {
        records::link(nodes, self.last, n);
        Members {
            first: first_of(self.first, n),
            last: n,
        }
    }
}

// One more node: its reference; 7 where it finds no room.
pub fn make(nodes: &mut [u32], p: State, d: Node) -> Out
    ensures { (E : List ℕ) → answered result E nodes.new ≡ push_node d p E nodes.old }
{
    let n = p.nodes;
    if records::push(nodes, n, d) {
        let m = n + 1;
        return gives(State { nodes: m, ..p }, m);
    }
    stopped(p, Outcome::NoNodeRoom as u32)
}

// How the parsing ended, how many errors and nodes are kept, the first statement, and how often `check` was called.
#[derive(Clone, Copy)]
pub struct Parsed {
    pub outcome: u32,
    pub errors: u32,
    pub nodes: u32,
    pub first: u32,
    pub looks: u32,
}
