// The whole reading. `reader_c` has it for Rust and C.
#![tactic(auto)]

ghost use Rattle.entry.specs.Reading.{reading, Answers};

use entry::Answer;
use records::Outcome;

// Reads a source into the three tables, with an index of its newlines, by the rule and on the way that are asked for. Where it is not parsed no node is kept,
// and the index is as it was.
pub fn read(
    rule: u32,
    way: u32,
    source: &[u8],
    tokens: &mut [u32],
    errors: &mut [u32],
    nodes: &mut [u32],
    index: &mut [u32],
) -> Answer
    ensures { Answers (reading rule way source.now tokens.old errors.old nodes.old index.old)
        result tokens.new errors.new nodes.new index.new }
{
    let d = entry::enter(rule, way, source, tokens, errors, nodes, index);
    let lexed = Answer::from(d);
    if d.outcome != Outcome::Ended as u32 {
        return lexed;
    }
    let p = statements::parse(rule, tokens, errors, nodes, index, d.errors);
    Answer {
        outcome: p.outcome,
        tokens: d.tokens,
        errors: p.errors,
        nodes: p.nodes,
        first: p.first,
        looks: p.looks,
    }
}
