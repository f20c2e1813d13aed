// One statement at a time, over a parser by value: `begin` and `read` for `pair`, which is lent one.
#![tactic(auto)]

ghost use Rattle.std.specs.Prelude.{◌≡◌, List, ℕ};
ghost use Rattle.records.specs.Outcomes.{outcome_number};
ghost use Rattle.steps.specs.Steps.{left, leaving, refused_as, final, rest_of, begun, one_of, next_of};

use entry::Answer;
use host::Parser;
use parser::{State, Tokens};
use records::Outcome;
use token::Token;

// A call's answer, with the parser beside it.
#[repr(C)]
#[derive(Clone, Copy)]
pub struct Stepped {
    pub parser: Parser,
    pub answer: Answer,
}

// The parser as it is, and the answer that it holds.
impl From<Parser> for Stepped {
    ghost from_gives = { λ p s. s ≡ leaving p };

    fn from(p: Parser) -> Stepped {
        Stepped {
            parser: p,
            answer: Answer {
                outcome: p.outcome,
                tokens: p.tokens,
                errors: p.errors,
                nodes: p.nodes,
                first: p.first,
                looks: p.looks,
            },
        }
    }
}

// A refusal: the parser as it is, and an answer without counts.
fn refuse(p: Parser, outcome: Outcome) -> Stepped
    ensures { result ≡ refused_as (outcome_number outcome) p }
{
    Stepped {
        parser: p,
        answer: Answer {
            outcome: outcome.into(),
            ..Answer::default()
        },
    }
}

// The final answer.
fn finish(nodes: &mut [u32], p: Parser, outcome: u32) -> Stepped
    ensures { (T E X : List ℕ) → left result T E nodes.new X ≡ final outcome p T E nodes.old X }
{
    records::zero_rest(nodes, p.nodes);
    Stepped::from(p.closed(outcome))
}

// A token before EOF is left to be read, or the reading is at its end.
fn rest(tokens: &[u32], nodes: &mut [u32], p: Parser) -> Stepped
    ensures { (E X : List ℕ) → left result tokens.now E nodes.new X ≡ rest_of tokens.now p E nodes.old X }
{
    if parser::kind_at(tokens, p.current) == Token::EOF {
        return finish(nodes, p, Outcome::Ended as u32);
    }
    Stepped::from(p.going_on())
}

// One top-level statement, by the reader that `parse` uses too.
fn one(tokens: &[u32], errors: &mut [u32], nodes: &mut [u32], index: &[u32], p: Parser) -> Stepped
    ensures { left result tokens.now errors.new nodes.new index.now ≡ one_of tokens.now p errors.old nodes.old index.now }
{
    if parser::kind_at(tokens, p.current) == Token::EOF {
        return finish(nodes, p, Outcome::Ended as u32);
    }
    let t = Tokens::new(tokens, index);
    match statements::top_level(&t, errors, nodes, State::from(p)) {
        Err(stop) => finish(nodes, p.stopped(stop.p), stop.outcome),
        Ok((u, n)) => {
            records::link(nodes, p.last, n.node);
            rest(tokens, nodes, p.behind(u, n.node))
        }
    }
}

// The core of `begin`: the source is lexed by the parser's rule, and read on its way, whatever else the parser was. Where the rule is none nothing changes.
pub fn start(
    source: &[u8],
    tokens: &mut [u32],
    errors: &mut [u32],
    nodes: &mut [u32],
    index: &mut [u32],
    p: Parser,
) -> Stepped
    ensures { (result ≡ (begun source.now tokens.old errors.old nodes.old index.old p).stepped)
        × (tokens.new ≡ (begun source.now tokens.old errors.old nodes.old index.old p).tokens)
        × (errors.new ≡ (begun source.now tokens.old errors.old nodes.old index.old p).errors)
        × (nodes.new ≡ (begun source.now tokens.old errors.old nodes.old index.old p).nodes)
        × (index.new ≡ (begun source.now tokens.old errors.old nodes.old index.old p).index) }
{
    if !rules::is_known(p.rule) {
        return refuse(p, Outcome::WrongRule);
    }
    let d = entry::enter(p.rule, p.way, source, tokens, errors, nodes, index);
    let q = p.fresh(d.tokens, d.errors);
    if d.outcome == Outcome::Ended as u32 {
        return rest(tokens, nodes, q);
    }
    Stepped::from(q.closed(d.outcome))
}

// The core of `read`: the final answer once more, 18, 13, or one statement. The source is not looked at again.
pub fn step(
    _source: &[u8],
    tokens: &mut [u32],
    errors: &mut [u32],
    nodes: &mut [u32],
    index: &mut [u32],
    p: Parser,
) -> Stepped
    ensures { (result ≡ (next_of tokens.old errors.old nodes.old index.old p).stepped)
        × (tokens.new ≡ (next_of tokens.old errors.old nodes.old index.old p).tokens)
        × (errors.new ≡ (next_of tokens.old errors.old nodes.old index.old p).errors)
        × (nodes.new ≡ (next_of tokens.old errors.old nodes.old index.old p).nodes)
        × (index.new ≡ (next_of tokens.old errors.old nodes.old index.old p).index) }
{
    if !p.is_open() {
        return Stepped::from(p);
    }
    if !host::fits(tokens, errors, nodes, index, p) {
        return refuse(p, Outcome::DoesNotFit);
    }
    if !rules::is_known(p.rule) {
        return refuse(p, Outcome::WrongRule);
    }
    one(tokens, errors, nodes, index, p)
}
