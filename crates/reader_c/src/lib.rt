// What Rust and C link. A slice crosses the border as a pointer and a length; a struct is laid out as C does.
#![tactic(auto)]

ghost use Rattle.std.specs.Prelude.{length};
ghost use Rattle.records.specs.Table.{room, token_width, error_width};
ghost use Rattle.lexer.specs.Lex.{lexed_of, Lexing};
ghost use Rattle.decoding.specs.Decode.{decode_of, Decoding};
ghost use Rattle.entry.specs.Reading.{reading, Answers};

use decoding::Decoded;
use entry::Answer;
use lexer::Scanned;

// `reader::read` for Rust and C.
#[unsafe(no_mangle)]
pub extern "C" fn kettleplume_read(
    rule: u32,
    way: u32,
    source: &[u8],
    tokens: &mut [u32],
    errors: &mut [u32],
    nodes: &mut [u32],
    index: &mut [u32],
) -> Answer
    ensures { Answers (reading rule way source.now tokens.old errors.old nodes.old index.old)
        result tokens.new errors.new nodes.new index.new }
{
    reader::read(rule, way, source, tokens, errors, nodes, index)
}

// Lexes a source by a rule into a token table and an error table.
#[unsafe(no_mangle)]
pub extern "C" fn kettleplume_scan(
    rule: u32,
    source: &[u8],
    tokens: &mut [u32],
    errors: &mut [u32],
) -> Scanned
    ensures { Lexing (lexed_of rule source.now (room token_width tokens.old) (room error_width errors.old))
        result tokens.old tokens.new errors.old errors.new }
{
    lexer::scan(rule, source, tokens, errors)
}

// Decodes the string whose opening quote stands at start.
#[unsafe(no_mangle)]
pub extern "C" fn kettleplume_decode(source: &[u8], start: usize, buffer: &mut [u8]) -> Decoded
    ensures { Decoding (decode_of source.now start (length buffer.old)) result buffer.old buffer.new }
{
    decoding::decode(source, start, buffer)
}
