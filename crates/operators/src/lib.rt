// The binary operators, `or` to `power`, as far as no reader is called: their levels, what a turn of the readers' one loop does, and the row of an operation.
#![tactic(auto)]

ghost use Rattle.std.specs.Prelude.{◌≡◌, leb, ◌-◌};
ghost use Rattle.parser.specs.Tokens.{view};
ghost use Rattle.parser.specs.Nodes as rows;
ghost use Rattle.parser.specs.Grammar.{levels, row_if};
ghost use Rattle.operators.specs.Operators.{rank_in, tests_of, behind_in, turn_at};

use parser::Tokens;
use records::Node;
use token::Token;

// What a turn of the readers' one loop takes, the operator's level and the token to go on at, if it takes one; and how often the Rust's nested loops call `check` for it. The right
// operand is of the tighter levels, so that a level groups left.
#[derive(Clone, Copy)]
pub struct Tried {
    pub turn: Option<(u32, u32)>,
    pub looks: u32,
}

// The level of a binary operator, loosest 1 to tightest 7; 0 for any other kind.
#[tactic(auto, unfolding(crate::specs::Operators::rank_in, pieces::specs::Pieces::among))]
pub fn rank_of(kind: u32) -> u32
    ensures { result ≡ rank_in 1 levels kind }
{
    match kind {
        Token::OR => 1,
        Token::AND => 2,
        Token::EQUAL_EQUAL => 3,
        Token::BANG_EQUAL => 3,
        Token::GREATER => 4,
        Token::GREATER_EQUAL => 4,
        Token::LESS => 4,
        Token::LESS_EQUAL => 4,
        Token::PLUS => 5,
        Token::MINUS => 5,
        Token::SLASH => 6,
        Token::MOD => 6,
        Token::STAR => 6,
        Token::POWER => 7,
        _ => 0,
    }
}

// How many operators the loosest so many levels have: the tests that are made where none is found.
#[tactic(auto, unfolding(crate::specs::Operators::tests_of))]
fn tests_of(level: u32) -> u32
    ensures { result ≡ tests_of levels level }
{
    match level {
        0 => 0,
        1 => 1,
        2 => 2,
        3 => 4,
        4 => 8,
        5 => 10,
        6 => 13,
        _ => 14,
    }
}

// How many of the tests come after the one that finds this operator, the tightest level's first; all of them for any other kind.
#[tactic(auto, unfolding(crate::specs::Operators::behind_in, pieces::specs::Pieces::among, pieces::specs::Pieces::place_in))]
fn behind_of(kind: u32) -> u32
    ensures { result ≡ behind_in 0 levels kind }
{
    match kind {
        Token::OR => 0,
        Token::AND => 1,
        Token::EQUAL_EQUAL => 3,
        Token::BANG_EQUAL => 2,
        Token::GREATER => 7,
        Token::GREATER_EQUAL => 6,
        Token::LESS => 5,
        Token::LESS_EQUAL => 4,
        Token::PLUS => 9,
        Token::MINUS => 8,
        Token::SLASH => 12,
        Token::MOD => 11,
        Token::STAR => 10,
        Token::POWER => 13,
        _ => 14,
    }
}

// The turn at a token, where the levels tighter than `looser` are read and the last turn left those up to `tightest` open. An operator's level is between the two
// exactly if the number of tests that come after its own is at least that of the levels up to `looser`, and below that of the levels up to `tightest`.
pub fn turn_at(t: &Tokens, at: u32, looser: u32, tightest: u32) -> Tried
    ensures { result ≡ turn_at (view t.now) at looser tightest }
{
    let coming = t.peek(at);
    let kind = coming.kind;
    let open = tests_of(tightest);
    let closed = tests_of(looser);
    let behind = behind_of(kind);
    if (closed <= behind) & (behind < open) {
        let rank = rank_of(kind);
        return Tried {
            turn: Some((rank, coming.past)),
            looks: open.saturating_sub(behind),
        };
    }
    Tried {
        turn: None,
        looks: open.saturating_sub(closed),
    }
}

// `and` and `or` make a Logical, the others a Binary.
pub fn operation(rank: u32, left: u32, operator: u32, right: u32) -> Node
    ensures { result ≡ row_if (leb rank 2) (rows.logical_row left operator right) (rows.binary_row left operator right) }
{
    if rank <= 2 {
        pieces::row(Node::LOGICAL, operator, 0, 0, left, right, 0, 0)
    } else {
        pieces::row(Node::BINARY, operator, 0, 0, left, right, 0, 0)
    }
}
