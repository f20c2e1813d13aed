// The token type of token.rs: the kind numbers, named here once, and the kind of a name.
#![tactic(auto)]

ghost use Rattle.std.specs.Prelude.{◌≡◌, min, ◌≤◌, length};
ghost use Rattle.token.specs.Keyword.{keyword_of, part};
ghost use Rattle.token.specs.Page.{letters_from};

// A token's kind: its place in the `Token` enum, EOF 0 to Catch 49.
#[derive(Clone, Copy)]
pub struct Token {
    pub kind: u32,
}

impl Token {
    pub const EOF: u32 = 0;

    pub const NEWLINE: u32 = 1;

    pub const LEFT_PAREN: u32 = 2;

    pub const RIGHT_PAREN: u32 = 3;

    pub const LEFT_BRACE: u32 = 4;

    pub const RIGHT_BRACE: u32 = 5;

    pub const RIGHT_CURLY_BRACE: u32 = 6;

    pub const LEFT_CURLY_BRACE: u32 = 7;

    pub const COMMA: u32 = 8;

    pub const DOT: u32 = 9;

    pub const MINUS: u32 = 10;

    pub const PLUS: u32 = 11;

    pub const SLASH: u32 = 12;

    pub const MOD: u32 = 13;

    pub const STAR: u32 = 14;

    pub const POWER: u32 = 15;

    pub const COLON: u32 = 16;

    pub const SEMICOLON: u32 = 17;

    pub const BANG_EQUAL: u32 = 18;

    pub const EQUAL: u32 = 19;

    pub const EQUAL_EQUAL: u32 = 20;

    pub const GREATER: u32 = 21;

    pub const GREATER_EQUAL: u32 = 22;

    pub const LESS: u32 = 23;

    pub const LESS_EQUAL: u32 = 24;

    pub const IDENTIFIER: u32 = 25;

    pub const STRING: u32 = 26;

    pub const NUMBER: u32 = 27;

    pub const AND: u32 = 28;

    pub const CLASS: u32 = 29;

    pub const ELSE: u32 = 30;

    pub const FALSE: u32 = 31;

    pub const FN: u32 = 32;

    pub const FOR: u32 = 33;

    pub const IF: u32 = 34;

    pub const ELIF: u32 = 35;

    pub const NIL: u32 = 36;

    pub const OR: u32 = 37;

    pub const RETURN: u32 = 38;

    pub const BREAK: u32 = 39;

    pub const CONTINUE: u32 = 40;

    pub const SUPER: u32 = 41;

    pub const THIS: u32 = 42;

    pub const TRUE: u32 = 43;

    pub const LET: u32 = 44;

    pub const WHILE: u32 = 45;

    pub const NOT: u32 = 46;

    pub const IN: u32 = 47;

    pub const TRY: u32 = 48;

    pub const CATCH: u32 = 49;

    // The token that the bytes of s from a up to e spell, as far as s has them: a keyword, or an Identifier.
    pub fn keyword(s: &[u8], a: usize, e: usize) -> Self
        ensures { result.kind ≡ keyword_of (part a e s.now) }
    {
        let kind = match s.get(a..e.min(s.len())) {
            Some(name) => keywords(name),
            None => Token::IDENTIFIER,
        };
        Token { kind }
    }
}

// The decision over the 22 words of `keywords` in lexer.rs, on one page: by length first, then by letters, within a length in the
// table's order. A word stands as the number that its letters make, two digits for each: a is 61, o 6f, p 70, z 7a. Then come its
// kind, its row in the table and its letters. specs/Page.antt is the same page in letters that the prover reads.
pub fn keywords(x: &[u8]) -> u32
    ensures { result ≡ keyword_of x.now }
{
    match x.len() {
        2 => match letters(x) {
            0x66_6e => Token::FN, // 5 fn
            0x69_66 => Token::IF, // 7 if
            0x6f_72 => Token::OR, // 10 or
            0x69_6e => Token::IN, // 20 in
            _ => Token::IDENTIFIER,
        },
        3 => match letters(x) {
            0x61_6e_64 => Token::AND, // 1 and
            0x66_6f_72 => Token::FOR, // 6 for
            0x6e_69_6c => Token::NIL, // 9 nil
            0x6c_65_74 => Token::LET, // 17 let
            0x6e_6f_74 => Token::NOT, // 19 not
            0x74_72_79 => Token::TRY, // 21 try
            _ => Token::IDENTIFIER,
        },
        4 => match letters(x) {
            0x65_6c_73_65 => Token::ELSE, // 3 else
            0x65_6c_69_66 => Token::ELIF, // 8 elif
            0x74_68_69_73 => Token::THIS, // 15 this
            0x74_72_75_65 => Token::TRUE, // 16 true
            _ => Token::IDENTIFIER,
        },
        5 => match letters(x) {
            0x63_6c_61_73_73 => Token::CLASS, // 2 class
            0x66_61_6c_73_65 => Token::FALSE, // 4 false
            0x62_72_65_61_6b => Token::BREAK, // 12 break
            0x73_75_70_65_72 => Token::SUPER, // 14 super
            0x77_68_69_6c_65 => Token::WHILE, // 18 while
            0x63_61_74_63_68 => Token::CATCH, // 22 catch
            _ => Token::IDENTIFIER,
        },
        6 => match letters(x) {
            0x72_65_74_75_72_6e => Token::RETURN, // 11 return
            _ => Token::IDENTIFIER,
        },
        8 => match letters(x) {
            0x63_6f_6e_74_69_6e_75_65 => Token::CONTINUE, // 13 continue
            _ => Token::IDENTIFIER,
        },
        _ => Token::IDENTIFIER,
    }
}

// The letters of x as one number, a byte each, the first the highest: eight of them fit.
fn letters(x: &[u8]) -> u64
    requires { length x.now ≤ 8 }
    ensures { result ≡ letters_from 0 x.now }
{
    let mut n: u64 = 0;
    for &b in x {
        n = n * 256 + b as u64;
    }
    n
}
