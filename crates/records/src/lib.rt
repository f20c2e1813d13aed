// Token, error and node records in lent tables of words, and the words of an index.
#![tactic(auto)]

ghost use Rattle.std.proofs.Common.{rules};
ghost use Rattle.std.specs.Prelude.{◌≡◌, ℕ, List, length, min, ◌<◌, refl};
ghost use Rattle.records.specs.Table.{token_width, error_width, node_width, index_width, room, field, linked, zeroed, Pushed};
ghost use Rattle.records.specs.Words.{token_words, error_words, node_words};
ghost use Rattle.records.specs.Outcomes.{outcome_number};

// The words of a token, of an error and of a node; an index has one for each token.
pub const TOKEN_WIDTH: usize = 8;

pub const ERROR_WIDTH: usize = 3;

pub const NODE_WIDTH: usize = 9;

pub const INDEX_WIDTH: usize = 1;

// A record of a table: how many words it has, and which they are.
pub trait Record: Copy {
    ghost WIDTH: { ℕ };

    ghost words: { Self → List ℕ };

    const WIDTH: usize;

    // Writes the words, in the order in which they stand in a table, over as many others; nothing where there are more or fewer.
    fn write(self, to: &mut [u32])
        ensures written { length to.old ≡ WIDTH → to.new ≡ words self }
        ensures kept { (length to.old ≡ WIDTH → ⊥) → to.new ≡ to.old };

    ghost not_empty: { 0 < WIDTH };

    ghost has_width: { (r : Self) → length (words r) ≡ WIDTH };
}

// The words of a token: sort says what value it has, low and high hold it; begins is the line counter when its first byte was met, line the counter after its last.
#[derive(Clone, Copy)]
pub struct TokenData {
    pub kind: u32,
    pub start: u32,
    pub length: u32,
    pub line: u32,
    pub sort: u32,
    pub low: u32,
    pub high: u32,
    pub begins: u32,
}

impl Record for TokenData {
    ghost WIDTH = { token_width };

    ghost words = { token_words };

    ghost not_empty = { Prim.search rules };

    ghost has_width = { λ _. refl };

    const WIDTH: usize = TOKEN_WIDTH;

    fn write(self, to: &mut [u32]) {
        if to.len() == TOKEN_WIDTH {
            to[0] = self.kind;
            to[1] = self.start;
            to[2] = self.length;
            to[3] = self.line;
            to[4] = self.sort;
            to[5] = self.low;
            to[6] = self.high;
            to[7] = self.begins;
        }
    }
}

// The three words of an error.
#[derive(Clone, Copy)]
pub struct InterpreterError {
    pub message: u32,
    pub line: u32,
    pub pos: u32,
}

impl Record for InterpreterError {
    ghost WIDTH = { error_width };

    ghost words = { error_words };

    ghost not_empty = { Prim.search rules };

    ghost has_width = { λ _. refl };

    const WIDTH: usize = ERROR_WIDTH;

    fn write(self, to: &mut [u32]) {
        if to.len() == ERROR_WIDTH {
            to[0] = self.message;
            to[1] = self.line;
            to[2] = self.pos;
        }
    }
}

// The nine words of a node: tokens, children and next are references, index + 1, and 0 is nothing.
#[derive(Clone, Copy)]
pub struct Node {
    pub kind: u32,
    pub token1: u32,
    pub token2: u32,
    pub token3: u32,
    pub child1: u32,
    pub child2: u32,
    pub child3: u32,
    pub child4: u32,
    pub next: u32,
}

impl Record for Node {
    ghost WIDTH = { node_width };

    ghost words = { node_words };

    ghost not_empty = { Prim.search rules };

    ghost has_width = { λ _. refl };

    const WIDTH: usize = NODE_WIDTH;

    fn write(self, node: &mut [u32]) {
        if node.len() == NODE_WIDTH {
            node[0] = self.kind;
            node[1] = self.token1;
            node[2] = self.token2;
            node[3] = self.token3;
            node[4] = self.child1;
            node[5] = self.child2;
            node[6] = self.child3;
            node[7] = self.child4;
            node[8] = self.next;
        }
    }
}

// A node's kind: the `Expr` enum in its order, 1 to 17, the `Stmt` enum in its order, 18 to 30, an elif branch, a parameter or loop name. `Kinds` of specs/ has the same for definitions.
impl Node {
    pub const FN_EXPR: u32 = 1;

    pub const VAR: u32 = 2;

    pub const LIST: u32 = 3;

    pub const DICTIONARY: u32 = 4;

    pub const ASSIGN: u32 = 5;

    pub const ACCESS: u32 = 6;

    pub const BINARY: u32 = 7;

    pub const CALL: u32 = 8;

    pub const GET: u32 = 9;

    pub const SET: u32 = 10;

    pub const SUPER: u32 = 11;

    pub const GROUPING: u32 = 12;

    pub const LITERAL: u32 = 13;

    pub const LOGICAL: u32 = 14;

    pub const THIS: u32 = 15;

    pub const UNARY: u32 = 16;

    pub const EMPTY: u32 = 17;

    pub const FN: u32 = 18;

    pub const LET: u32 = 19;

    pub const BLOCK: u32 = 20;

    pub const CLASS: u32 = 21;

    pub const CLASSIC_FOR: u32 = 22;

    pub const ENHANCED_FOR: u32 = 23;

    pub const WHILE: u32 = 24;

    pub const IF: u32 = 25;

    pub const CONTINUE: u32 = 26;

    pub const RETURN: u32 = 27;

    pub const BREAK: u32 = 28;

    pub const TRY_CATCH: u32 = 29;

    pub const EXPR: u32 = 30;

    pub const ELIF: u32 = 31;

    pub const NAME: u32 = 32;
}

// The outcomes of docs/RULES.md, 'Outcomes', in their order. `outcome_number` of specs/Outcomes.antt has each one's number, which is what an answer and a host see.
#[derive(Clone, Copy, PartialEq, Eq, Debug)]
pub enum Outcome {
    // The end was reached.
    Ended = 0,
    FatalStop = 1,
    // A number with a point runs to the last byte.
    NumberAtEnd = 2,
    NotText = 3,
    // Over 65,535 bytes.
    TooLong = 4,
    NoTokenRoom = 5,
    NoErrorRoom = 6,
    NoNodeRoom = 7,
    // A level over 128 would open.
    TooDeep = 8,
    // Decoding: no string stands there.
    NotAString = 9,
    // Decoding: the buffer is too short. A reading: the newline index is.
    NoBufferRoom = 10,
    // The new way: lexing recorded an error, so nothing is parsed.
    NotParsed = 11,
    // The number names no rule; nothing changed.
    WrongRule = 13,
    // The pair: what the parser holds doesn't fit what is lent.
    DoesNotFit = 18,
    // The pair: a token before EOF is left to be read.
    GoesOn = 19,
}

impl From<Outcome> for u32 {
    ghost from_gives = { λ o n. n ≡ outcome_number o };

    fn from(outcome: Outcome) -> u32 {
        outcome as u32
    }
}

// The messages of docs/RULES.md, 'Messages', each with the original's text: first the lexer's in the order of lexer.rs, then the parser's where each first stands in parser.rs; the tenth counts where `fn_stmt` has it. specs/Messages.antt has the same for definitions.
#[derive(Clone, Copy)]
pub struct Message {
    pub number: u32,
}

impl Message {
    // '!' cannot be used here
    pub const LONE_BANG: u32 = 1;

    // Illegal character
    pub const ILLEGAL_CHARACTER: u32 = 2;

    // Closing " was expected
    pub const UNCLOSED_STRING: u32 = 3;

    // Expected new line
    pub const EXPECTED_NEW_LINE: u32 = 4;

    // Expected variable name
    pub const EXPECTED_VARIABLE_NAME: u32 = 5;

    // Expected '{' at this position
    pub const EXPECTED_LEFT_CURLY: u32 = 6;

    // Expected '}' at this position
    pub const EXPECTED_RIGHT_CURLY: u32 = 7;

    // Expected function name
    pub const EXPECTED_FUNCTION_NAME: u32 = 8;

    // Expect '(' after function name
    pub const EXPECT_PAREN_AFTER_NAME: u32 = 9;

    // Max number of parameters is 255
    pub const MAX_PARAMETERS: u32 = 10;

    // Expected function parameter
    pub const EXPECTED_PARAMETER: u32 = 11;

    // Expect ')' after expression
    pub const EXPECT_PAREN_AFTER_EXPRESSION: u32 = 12;

    // Expected '(' after function name
    pub const EXPECTED_PAREN_AFTER_NAME: u32 = 13;

    // Expect function parameter
    pub const EXPECT_PARAMETER: u32 = 14;

    // Expected semicolon
    pub const EXPECTED_SEMICOLON: u32 = 15;

    // Empty expression or let was expected at this position
    pub const EMPTY_OR_LET: u32 = 16;

    // Expected 'in'
    pub const EXPECTED_IN: u32 = 17;

    // A catch block was expected at this position
    pub const EXPECTED_CATCH: u32 = 18;

    // Statement only allowed for use inside loop
    pub const ONLY_INSIDE_LOOP: u32 = 19;

    // Expected ']' at end of list
    pub const EXPECTED_END_OF_LIST: u32 = 20;

    // Expected '}' at the end of dict
    pub const EXPECTED_END_OF_DICT: u32 = 21;

    // Expected ':' after key
    pub const EXPECTED_COLON_AFTER_KEY: u32 = 22;

    // Undefined statement
    pub const UNDEFINED_STATEMENT: u32 = 23;

    // Expected ']' at the end of slice
    pub const EXPECTED_END_OF_SLICE: u32 = 24;

    // Expected property name after '.'
    pub const EXPECTED_PROPERTY_NAME: u32 = 25;

    // Expect ')' after arguments
    pub const EXPECT_PAREN_AFTER_ARGUMENTS: u32 = 26;

    // Max number of arguments is 255
    pub const MAX_ARGUMENTS: u32 = 27;

    // Undefined expression
    pub const UNDEFINED_EXPRESSION: u32 = 28;

    // Keyword 'super' is only valid for property accessing
    pub const SUPER_ONLY_FOR_PROPERTY: u32 = 29;
}

// A table never counts more records than a word can name.
fn cap(records: usize) -> u32
    ensures { result ≡ min records 4294967295 }
{
    records.min(4294967295) as u32
}

// How many records of the type R the table has room for.
pub fn room<R: Record>(table: &[u32]) -> u32
    ensures { result ≡ room R.WIDTH table.now }
{
    cap(table.len() / R::WIDTH)
}

// How many tokens the index has room for.
pub fn index_room(index: &[u32]) -> u32
    ensures { result ≡ room index_width index.now }
{
    cap(index.len() / INDEX_WIDTH)
}

// The index's word of token i, and 0 past the end.
pub fn index_word(index: &[u32], i: u32) -> u32
    ensures { result ≡ field index_width 0 index.now i }
{
    if i < index_room(index) {
        return index[i as usize];
    }
    0
}

// Writes r as record n, where there is room for it.
pub fn push<R: Record>(table: &mut [u32], n: u32, r: R) -> bool
    ensures { Pushed R.WIDTH table.old n (R.words r) result table.new }
{
    if n < room::<R>(table) {
        let at = R::WIDTH * (n as usize);
        r.write(&mut table[at..at + R::WIDTH]);
        return true;
    }
    false
}

// Word k of token i. Past the end it is 0, which as a kind is EOF's.
fn token_word(tokens: &[u32], i: u32, k: usize) -> u32
    requires { k < token_width }
    ensures { result ≡ field token_width k tokens.now i }
{
    if i < room::<TokenData>(tokens) {
        let at = TOKEN_WIDTH * (i as usize) + k;
        return tokens[at];
    }
    0
}

// The kind of token i, and EOF's, 0, past the end.
pub fn token_kind(tokens: &[u32], i: u32) -> u32
    ensures { result ≡ field token_width 0 tokens.now i }
{
    token_word(tokens, i, 0)
}

// Where token i starts in the source.
pub fn token_start(tokens: &[u32], i: u32) -> u32
    ensures { result ≡ field token_width 1 tokens.now i }
{
    token_word(tokens, i, 1)
}

// How many bytes of the source token i is.
pub fn token_length(tokens: &[u32], i: u32) -> u32
    ensures { result ≡ field token_width 2 tokens.now i }
{
    token_word(tokens, i, 2)
}

// The line of token i.
pub fn token_line(tokens: &[u32], i: u32) -> u32
    ensures { result ≡ field token_width 3 tokens.now i }
{
    token_word(tokens, i, 3)
}

// Makes next what follows the node that reference r names, if r names one.
pub fn link(nodes: &mut [u32], r: u32, next: u32)
    ensures { nodes.new ≡ linked nodes.old r next }
{
    if r == 0 {
        return;
    }
    if r <= room::<Node>(nodes) {
        let at = NODE_WIDTH * ((r - 1) as usize) + 8;
        nodes[at] = next;
    }
}

// Zeroes every word from node n on, a spare tail too.
pub fn zero_rest(nodes: &mut [u32], n: u32)
    ensures { nodes.new ≡ zeroed node_width nodes.old n }
{
    let at = NODE_WIDTH * (n as usize);
    let kept = at.min(nodes.len());
    nodes[kept..].fill(0);
}
