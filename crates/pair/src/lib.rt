// What Rust and C link for one statement at a time, over a parser that the host keeps and lends.
#![tactic(auto)]

ghost use Rattle.std.specs.Prelude.{◌≡◌};
ghost use Rattle.steps.specs.Steps.{begun, next_of};

use entry::Answer;
use host::Parser;

// `begin` for Rust and C: lexes the source, and leaves a parser that reads its statements. Only the rule and the way of the lent parser matter.
#[unsafe(no_mangle)]
pub extern "C" fn kettleplume_begin(
    parser: &mut Parser,
    source: &[u8],
    tokens: &mut [u32],
    errors: &mut [u32],
    nodes: &mut [u32],
    index: &mut [u32],
) -> Answer
    ensures { (result ≡ (begun source.now tokens.old errors.old nodes.old index.old parser.old).stepped.answer)
        × (parser.new ≡ (begun source.now tokens.old errors.old nodes.old index.old parser.old).stepped.parser)
        × (tokens.new ≡ (begun source.now tokens.old errors.old nodes.old index.old parser.old).tokens)
        × (errors.new ≡ (begun source.now tokens.old errors.old nodes.old index.old parser.old).errors)
        × (nodes.new ≡ (begun source.now tokens.old errors.old nodes.old index.old parser.old).nodes)
        × (index.new ≡ (begun source.now tokens.old errors.old nodes.old index.old parser.old).index) }
{
    let p = *parser;
    let s = steps::start(source, tokens, errors, nodes, index, p);
    *parser = s.parser;
    s.answer
}

// `read` for Rust and C: one top-level statement, over a parser, a source, tables and an index as the last call left them. The index is read, never written.
#[unsafe(no_mangle)]
pub extern "C" fn kettleplume_next(
    parser: &mut Parser,
    source: &[u8],
    tokens: &mut [u32],
    errors: &mut [u32],
    nodes: &mut [u32],
    index: &mut [u32],
) -> Answer
    ensures { (result ≡ (next_of tokens.old errors.old nodes.old index.old parser.old).stepped.answer)
        × (parser.new ≡ (next_of tokens.old errors.old nodes.old index.old parser.old).stepped.parser)
        × (tokens.new ≡ (next_of tokens.old errors.old nodes.old index.old parser.old).tokens)
        × (errors.new ≡ (next_of tokens.old errors.old nodes.old index.old parser.old).errors)
        × (nodes.new ≡ (next_of tokens.old errors.old nodes.old index.old parser.old).nodes)
        × (index.new ≡ (next_of tokens.old errors.old nodes.old index.old parser.old).index) }
{
    let p = *parser;
    let s = steps::step(source, tokens, errors, nodes, index, p);
    *parser = s.parser;
    s.answer
}
