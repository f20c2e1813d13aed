// The newline index: written once, after lexing, so that no reader walks the same newlines again.
#![tactic(auto)]

ghost use Rattle.std.specs.Prelude.{◌≡◌, cond, ◌+◌, ◌<◌, eqb};
ghost use Rattle.token.specs.Kind.{newline_kind};
ghost use Rattle.parser.specs.Tokens.{kind_at};
ghost use Rattle.lines.specs.Lines.{Indexed};

use token::Token;

// The word of token i, where `behind` is the word of the token after it: a Newline has the same word, any other token its own reference.
fn word_at(tokens: &[u32], i: u32, behind: u32) -> u32
    requires { i < 4294967295 }
    ensures { result ≡ cond (eqb (kind_at tokens.now i) newline_kind) behind (i + 1) }
{
    if parser::kind_at(tokens, i) == Token::NEWLINE {
        behind
    } else {
        i + 1
    }
}

// Writes the words of the first n tokens, where the index has room for them. It goes backwards, so each token is looked at once.
pub fn index_lines(tokens: &[u32], index: &mut [u32], n: u32) -> bool
    ensures { Indexed tokens.now index.old n result index.new }
{
    if records::index_room(index) < n {
        return false;
    }
    let mut word = n;
    for i in (0..n).rev() {
        word = word_at(tokens, i, word);
        index[i as usize] = word;
    }
    true
}
