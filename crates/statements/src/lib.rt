// `parse`: the top-level statements, what is kept, and the answer.
#![tactic(auto)]

ghost use Rattle.std.specs.Prelude.{◌≡◌};
ghost use Rattle.parser.specs.Tokens.{indexed, view};
ghost use Rattle.parser.specs.Tables.{answered};
ghost use Rattle.parser.specs.Whole.{top_level, parsed, Parsing};

use parser::{Members, Out, Parsed, State, Tokens};
use records::{Message, Outcome};
use token::Token;

// `parse`: the top-level statements, by a rule, newlines passed by the index that is lent; each is finished after its newline test.
pub fn parse(
    rule: u32,
    tokens: &[u32],
    errors: &mut [u32],
    nodes: &mut [u32],
    index: &[u32],
    recorded: u32,
) -> Parsed
    ensures { Parsing (parsed rule (indexed tokens.now index.now) recorded errors.old nodes.old) result errors.new nodes.new }
{
    let t = Tokens::new(tokens, index);
    let mut s = State::fresh(rule, recorded);
    let mut list = Members::NONE;
    loop {
        let kept = s.nodes;
        if t.is_at_end(s) {
            records::zero_rest(nodes, kept);
            return Parsed {
                outcome: Outcome::Ended as u32,
                errors: s.errors,
                nodes: kept,
                first: list.first,
                looks: s.looks,
            };
        }
        match top_level(&t, errors, nodes, s) {
            Err(stop) => {
                records::zero_rest(nodes, kept);
                return Parsed {
                    outcome: stop.outcome,
                    errors: stop.p.errors,
                    nodes: kept,
                    first: list.first,
                    looks: stop.p.looks,
                };
            }
            Ok((u, n)) => {
                list = list.and(nodes, n.node);
                s = u;
            }
        }
    }
}

// A top-level statement and its newline test: what `parse` does at each turn, and a read of one statement once.
pub fn top_level(t: &Tokens, errors: &mut [u32], nodes: &mut [u32], p: State) -> Out
    ensures { answered result errors.new nodes.new ≡ top_level (view t.now) p errors.old nodes.old }
{
    let (q, n) = grammar::declaration(t, errors, nodes, p, 128)?;
    let (s, _) = t.consume(errors, q, Token::NEWLINE, Message::EXPECTED_NEW_LINE)?;
    Ok((s, n))
}
