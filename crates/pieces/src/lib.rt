// The parts of the readers that call no reader: rows, endings, lists of names. The crates `operators` and `grammar`, which use this one, have the operators and the readers that call each other.
#![tactic(auto)]

ghost use Rattle.std.specs.Prelude.{◌≡◌, List, ℕ, ◌-◌, Ok};
ghost use Rattle.rules.specs.Rules.{loops_behind};
ghost use Rattle.parser.specs.Tokens.{indexed, view};
ghost use Rattle.parser.specs.Tables.{reply, answered, looked, looped, and_then, push_node, push_error};
ghost use Rattle.parser.specs.Nodes as rows;
ghost use Rattle.parser.specs.Tables as tables;
ghost use Rattle.parser.specs.Programs.{Which, Reader, run};
ghost use Rattle.parser.specs.Grammar as specs;
ghost use Rattle.parser.specs.Grammar.{named, last_of, form_through, fuel, names_from, closed, super_expr};
ghost use Rattle.pieces.specs.Pieces as pieces;
ghost use Rattle.pieces.specs.Pieces.{end_class, place_in, unless_none, literals, prefixes, suffixes};

use parser::{Form, Found, Members, Out, State, Tokens};
use records::{Message, Node, Outcome};
use token::Token;

// A row of the node table; `next` is 0 until a list goes on.
pub fn row(kind: u32, t1: u32, t2: u32, t3: u32, c1: u32, c2: u32, c3: u32, c4: u32) -> Node
    ensures { result ≡ rows.row kind t1 t2 t3 c1 c2 c3 c4 }
{
    Node {
        kind,
        token1: t1,
        token2: t2,
        token3: t3,
        child1: c1,
        child2: c2,
        child3: c3,
        child4: c4,
        next: 0,
    }
}

// What was found, with another node and another form.
pub fn gives_form(p: State, n: u32, form: Form, access: u32) -> Out
    ensures { result ≡ Ok (p, record { node = n; form = form; access = access }) }
{
    let found = Found {
        node: n,
        form,
        access,
    };
    Ok((p, found))
}

// The same form. A value that is handed on as a whole is read in wider pieces than it was written in, and the processor waits for that; every operand passes
// here, so its form is taken apart and made anew.
fn same_form(form: Form) -> Form
    ensures { result ≡ form }
{
    match form {
        Form::Other => Form::Other,
        Form::Empty => Form::Empty,
        Form::Name(t) => Form::Name(t),
        Form::Property(t, o) => Form::Property(t, o),
    }
}

// What was found.
pub fn found(p: State, f: Found) -> Out
    ensures { result ≡ Ok (p, f) }
{
    gives_form(p, f.node, same_form(f.form), f.access)
}

// The `last` of an expression statement: none if the expression is Empty.
pub fn last_of(form: Form, t: u32) -> u32
    ensures { result ≡ last_of form t }
{
    match form {
        Form::Other => t,
        Form::Empty => 0,
        Form::Name(_) => t,
        Form::Property(_, _) => t,
    }
}

// What stands left of `=` through an access.
pub fn form_through(form: Form) -> Form
    ensures { result ≡ form_through form }
{
    match form {
        Form::Other => Form::Other,
        Form::Empty => Form::Other,
        Form::Name(t) => Form::Name(t),
        Form::Property(t, o) => Form::Property(t, o),
    }
}

// An error that stops the reading.
pub fn fatal(t: &Tokens, errors: &mut [u32], p: State, message: u32, token: u32) -> Out
    ensures { (N : List ℕ) → answered result errors.new N ≡ and_then (push_error t.now.table.now message token p errors.old N) λ f q E N. reply q (tables.Stop 1) E N }
{
    let (q, _) = t.set_error(errors, p, message, token)?;
    parser::stopped(q, Outcome::FatalStop as u32)
}

// Parameters up to what is no comma; the 257th is message 10.
pub fn parameters(t: &Tokens, errors: &mut [u32], nodes: &mut [u32], p: State, message: u32) -> Out
    ensures { (low : Which → Reader) → answered result errors.new nodes.new ≡ run (view t.now) low (specs.parameters (view t.now) message) p errors.old nodes.old }
{
    let at = p.current;
    if let Some(i) = t.check(at, Token::RIGHT_PAREN) {
        return parser::gives(p.at_token(i, 1), 0);
    }
    let mut s = p.looked(1);
    let mut list = Members::NONE;
    let mut n: u32 = 0;
    loop {
        if 255 < n {
            let at = s.current;
            return fatal(t, errors, s, Message::MAX_PARAMETERS, at);
        }
        let (q, i) = t.require(errors, s, Token::IDENTIFIER, message)?;
        let (u, d) = parser::make(nodes, q, row(Node::NAME, i.node, 0, 0, 0, 0, 0, 0))?;
        list = list.and(nodes, d.node);
        n += 1;
        let at = u.current;
        let Some(i) = t.matches(at, Token::COMMA) else {
            return parser::gives(u.looked(1), list.first);
        };
        s = u.at_token(i, 1);
    }
}

// `expression_stmt`, after its expression.
pub fn expression_stmt(nodes: &mut [u32], expression: Out) -> Out
    ensures { (E : List ℕ) → answered result E nodes.new ≡ and_then (answered expression E nodes.old) λ e q E N. push_node (rows.expr_row (last_of e.form q.current) e.node) q E N }
{
    let (q, e) = expression?;
    let last = last_of(e.form, q.current);
    parser::make(nodes, q, row(Node::EXPR, last, 0, 0, e.node, 0, 0, 0))
}

// The node of a function, after what its body gave.
pub fn fn_node(nodes: &mut [u32], body: Out, kind: u32, name: u32, params: u32) -> Out
    ensures { (E : List ℕ) → answered result E nodes.new ≡ and_then (answered body E nodes.old) λ stmts q E N. push_node (rows.row kind name 0 0 params stmts.node 0 0) q E N }
{
    let (q, stmts) = body?;
    parser::make(nodes, q, row(kind, name, 0, 0, params, stmts.node, 0, 0))
}

// The superclass, if `<` follows.
pub fn superclass(t: &Tokens, errors: &mut [u32], nodes: &mut [u32], p: State) -> Out
    ensures { (low : Which → Reader) → answered result errors.new nodes.new ≡ run (view t.now) low (pieces.superclass) p errors.old nodes.old }
{
    let at = p.current;
    let Some(i) = t.matches(at, Token::LESS) else {
        return parser::gives(p.looked(1), 0);
    };
    let (q, c) = t.consume(
        errors,
        p.at_token(i, 1),
        Token::IDENTIFIER,
        Message::EXPECTED_VARIABLE_NAME,
    )?;
    parser::make(nodes, q, row(Node::VAR, c.node, 0, 0, 0, 0, 0, 0))
}

pub fn end_class(
    t: &Tokens,
    errors: &mut [u32],
    nodes: &mut [u32],
    p: State,
    name: u32,
    methods: u32,
    statics: u32,
    sup: u32,
) -> Out
    ensures { (low : Which → Reader) → answered result errors.new nodes.new ≡ run (view t.now) low (end_class name sup methods statics) p errors.old nodes.old }
{
    let (q, _) = t.consume(
        errors,
        p,
        Token::RIGHT_CURLY_BRACE,
        Message::EXPECTED_RIGHT_CURLY,
    )?;
    parser::make(
        nodes,
        q,
        row(Node::CLASS, name, 0, 0, methods, statics, sup, 0),
    )
}

// The names of an enhanced for; commas between them may be missing.
pub fn names(t: &Tokens, nodes: &mut [u32], p: State) -> Out
    ensures { (low : Which → Reader) (E : List ℕ) → answered result E nodes.new ≡ run (view t.now) low (names_from (view t.now) (fuel (view t.now)) 0 0) p E nodes.old }
{
    let mut s = p;
    let mut list = Members::NONE;
    loop {
        let at = s.current;
        let Some(i) = t.matches(at, Token::IDENTIFIER) else {
            return parser::gives(s.looked(1), list.first);
        };
        let (u, n) = parser::make(
            nodes,
            s.at_token(i, 1),
            row(Node::NAME, i, 0, 0, 0, 0, 0, 0),
        )?;
        list = list.and(nodes, n.node);
        let at = u.current;
        s = match t.matches(at, Token::COMMA) {
            Some(j) => u.at_token(j, 1),
            None => u.looked(1),
        };
    }
}

// The node of an if, after the statements of its else, which were read as a block. The Rust stays on the brace after them and asks for it again: one look more.
pub fn if_node(
    nodes: &mut [u32],
    others: Out,
    keyword: u32,
    cond: u32,
    stmts: u32,
    elifs: u32,
) -> Out
    ensures { (E : List ℕ) → answered result E nodes.new ≡ and_then (answered others E nodes.old) λ o q E N. push_node (rows.if_row keyword cond stmts elifs o.node) (looked q 1) E N }
{
    let (q, o) = others?;
    parser::make(
        nodes,
        q.looked(1),
        row(Node::IF, keyword, 0, 0, cond, stmts, elifs, o.node),
    )
}

// The node of an enhanced for, after its body; the loop count is given back where the rule says so.
pub fn for_node(nodes: &mut [u32], body: Out, keyword: u32, ids: u32, collection: u32) -> Out
    ensures { (E : List ℕ) → answered result E nodes.new ≡ and_then (answered body E nodes.old) λ stmt q E N. push_node (rows.enhanced_for_row keyword ids collection stmt.node) (looped q (loops_behind q.rule q.loops)) E N }
{
    let (after, stmt) = body?;
    parser::make(
        nodes,
        after.give_back(),
        row(
            Node::ENHANCED_FOR,
            keyword,
            0,
            0,
            ids,
            collection,
            stmt.node,
            0,
        ),
    )
}

// `brk` and `cont`: they differ in the node's kind.
pub fn jump(
    t: &Tokens,
    errors: &mut [u32],
    nodes: &mut [u32],
    p: State,
    kind: u32,
    keyword: u32,
) -> Out
    ensures { (low : Which → Reader) (I : List ℕ) → answered result errors.new nodes.new ≡ run (indexed t.now.table.now I) low (pieces.jump kind keyword) p errors.old nodes.old }
{
    if p.inside_loop() {
        return parser::make(nodes, p, row(kind, keyword, 0, 0, 0, 0, 0, 0));
    }
    let (q, _) = t.set_error(errors, p, Message::ONLY_INSIDE_LOOP, before(keyword))?;
    parser::make(nodes, q, row(kind, keyword, 0, 0, 0, 0, 0, 0))
}

// The index of a token with that reference.
pub fn before(token: u32) -> u32
    ensures { result ≡ token - 1 }
{
    token.saturating_sub(1)
}

// `list` and `dictionary`, after their elements: the closing mark, with the message where it is missing, and the node of that kind.
pub fn collection(
    t: &Tokens,
    errors: &mut [u32],
    nodes: &mut [u32],
    elements: Out,
    mark: u32,
    message: u32,
    kind: u32,
) -> Out
    ensures { (low : Which → Reader) → answered result errors.new nodes.new ≡ and_then (answered elements errors.old nodes.old) λ e q E N. run (view t.now) low (pieces.collection_end mark message kind e) q E N }
{
    let (q, e) = elements?;
    let (s, mark) = t.require(errors, q, mark, message)?;
    parser::make(nodes, s, row(kind, mark.node, 0, 0, e.node, 0, 0, 0))
}

// The parts of an access: the object, the token of its opening brace, and up to three parts with the tokens of the colons between them; 0 for what is not there.
#[derive(Clone, Copy)]
pub struct Access {
    pub object: Found,
    pub brace: u32,
    pub first: u32,
    pub first_colon: u32,
    pub second: u32,
    pub second_colon: u32,
    pub third: u32,
}

impl Access {
    // The first part and the colon after it.
    pub fn new(object: Found, brace: u32, first: u32, first_colon: u32) -> Self
        ensures { result ≡ record { object = object; brace = brace; first = first; first_colon = first_colon; second = 0; second_colon = 0; third = 0 } }
    {
        Access {
            object,
            brace,
            first,
            first_colon,
            second: 0,
            second_colon: 0,
            third: 0,
        }
    }

    // The second part and the colon after it.
    pub fn and(self, second: u32, second_colon: u32) -> Self
        ensures { result ≡ record { object = self.object; brace = self.brace; first = self.first; first_colon = self.first_colon; second = second; second_colon = second_colon; third = self.third } }
    {
        Access {
            second,
            second_colon,
            ..self
        }
    }
}

// The closing mark and the node of an access.
pub fn close_access(t: &Tokens, errors: &mut [u32], nodes: &mut [u32], p: State, a: Access) -> Out
    ensures { (low : Which → Reader) → answered result errors.new nodes.new ≡ run (view t.now) low (closed (view t.now) a.object a.brace a.first a.first_colon a.second a.second_colon a.third) p errors.old nodes.old }
{
    let (q, _) = t.consume(
        errors,
        p,
        Token::RIGHT_BRACE,
        Message::EXPECTED_END_OF_SLICE,
    )?;
    let (q, n) = parser::make(
        nodes,
        q,
        row(
            Node::ACCESS,
            a.brace,
            a.first_colon,
            a.second_colon,
            a.object.node,
            a.first,
            a.second,
            a.third,
        ),
    )?;
    gives_form(q, n.node, form_through(a.object.form), n.node)
}

// The last part of a slice, after its expression.
pub fn step(t: &Tokens, errors: &mut [u32], nodes: &mut [u32], third: Out, a: Access) -> Out
    ensures { (low : Which → Reader) → answered result errors.new nodes.new ≡ and_then (answered third errors.old nodes.old) λ e q E N. run (view t.now) low (closed (view t.now) a.object a.brace a.first a.first_colon a.second a.second_colon e.node) q E N }
{
    let (q, e) = third?;
    let third = e.node;
    close_access(t, errors, nodes, q, Access { third, ..a })
}

pub fn super_expr(t: &Tokens, errors: &mut [u32], nodes: &mut [u32], p: State, keyword: u32) -> Out
    ensures { (low : Which → Reader) → answered result errors.new nodes.new ≡ run (view t.now) low (super_expr (view t.now) keyword) p errors.old nodes.old }
{
    let at = p.current;
    if let Some(i) = t.check(at, Token::LEFT_PAREN) {
        return parser::make(
            nodes,
            p.at_token(i, 1),
            row(Node::SUPER, keyword, 0, 0, 0, 0, 0, 0),
        );
    }
    let (q, _) = t.consume(
        errors,
        p.looked(1),
        Token::DOT,
        Message::SUPER_ONLY_FOR_PROPERTY,
    )?;
    let (q, m) = t.require(
        errors,
        q,
        Token::IDENTIFIER,
        Message::EXPECTED_VARIABLE_NAME,
    )?;
    parser::make(nodes, q, row(Node::SUPER, keyword, m.node, 0, 0, 0, 0, 0))
}

// A grouping, after its expression.
pub fn grouping(t: &Tokens, errors: &mut [u32], nodes: &mut [u32], p: State, e: u32) -> Out
    ensures { (low : Which → Reader) → answered result errors.new nodes.new ≡ run (view t.now) low (pieces.grouping e) p errors.old nodes.old }
{
    let (q, _) = t.consume(
        errors,
        p,
        Token::RIGHT_PAREN,
        Message::EXPECT_PAREN_AFTER_EXPRESSION,
    )?;
    parser::make(nodes, q, row(Node::GROUPING, 0, 0, 0, e, 0, 0, 0))
}

// The node of a name, which may stand left of `=`.
pub fn variable(nodes: &mut [u32], p: State, token: u32) -> Out
    ensures { (E : List ℕ) → answered result E nodes.new ≡ and_then (push_node (rows.var_row token) p E nodes.old) λ n q E N. reply q (tables.Node (named token n.node)) E N }
{
    let (q, n) = parser::make(nodes, p, row(Node::VAR, token, 0, 0, 0, 0, 0, 0))?;
    gives_form(q, n.node, Form::Name(token), 0)
}

pub fn empty(nodes: &mut [u32], p: State) -> Out
    ensures { (E : List ℕ) → answered result E nodes.new ≡ and_then (push_node rows.empty_row p E nodes.old) λ n q E N. reply q (tables.Node (record { node = n.node; form = Form.Empty; access = 0 })) E N }
{
    let (q, n) = parser::make(nodes, p, row(Node::EMPTY, 0, 0, 0, 0, 0, 0, 0))?;
    gives_form(q, n.node, Form::Empty, 0)
}

// Which of `primary`'s first tests finds a literal's token of this kind, if any does.
#[tactic(auto, unfolding(crate::specs::Pieces::place_in, crate::specs::Pieces::unless_none))]
pub fn literal_place(kind: u32) -> Option<u32>
    ensures { result ≡ unless_none (place_in 1 literals kind) }
{
    match kind {
        Token::NUMBER => Some(1),
        Token::STRING => Some(2),
        Token::FALSE => Some(3),
        Token::TRUE => Some(4),
        Token::NIL => Some(5),
        _ => None,
    }
}

// Which of `unary`'s tests finds a prefix operator of this kind, if any does.
#[tactic(auto, unfolding(crate::specs::Pieces::place_in, crate::specs::Pieces::unless_none))]
pub fn prefix_place(kind: u32) -> Option<u32>
    ensures { result ≡ unless_none (place_in 1 prefixes kind) }
{
    match kind {
        Token::NOT => Some(1),
        Token::MINUS => Some(2),
        _ => None,
    }
}

// Which of `call`'s tests finds what goes on with an expression, of this kind, if any does.
#[tactic(auto, unfolding(crate::specs::Pieces::place_in, crate::specs::Pieces::unless_none))]
pub fn suffix_place(kind: u32) -> Option<u32>
    ensures { result ≡ unless_none (place_in 1 suffixes kind) }
{
    match kind {
        Token::LEFT_PAREN => Some(1),
        Token::DOT => Some(2),
        Token::LEFT_BRACE => Some(3),
        _ => None,
    }
}

// `finish_call`, after its arguments.
pub fn finish_call(t: &Tokens, errors: &mut [u32], nodes: &mut [u32], args: Out, callee: u32) -> Out
    ensures { (low : Which → Reader) → answered result errors.new nodes.new ≡ and_then (answered args errors.old nodes.old) λ e q E N. run (view t.now) low (pieces.call_end callee e) q E N }
{
    let (q, e) = args?;
    let (s, mark) = t.require(
        errors,
        q,
        Token::RIGHT_PAREN,
        Message::EXPECT_PAREN_AFTER_ARGUMENTS,
    )?;
    parser::make(
        nodes,
        s,
        row(Node::CALL, mark.node, 0, 0, callee, e.node, 0, 0),
    )
}

// A property, after its dot.
pub fn get(t: &Tokens, errors: &mut [u32], nodes: &mut [u32], p: State, object: u32) -> Out
    ensures { (low : Which → Reader) → answered result errors.new nodes.new ≡ run (view t.now) low (pieces.get object) p errors.old nodes.old }
{
    let (q, name) = t.require(
        errors,
        p,
        Token::IDENTIFIER,
        Message::EXPECTED_PROPERTY_NAME,
    )?;
    let (q, n) = parser::make(nodes, q, row(Node::GET, name.node, 0, 0, object, 0, 0, 0))?;
    gives_form(q, n.node, Form::Property(name.node, object), 0)
}

// A name gives an Assign, a property a Set; anything else is message 23 at the `=`.
pub fn assigned(
    t: &Tokens,
    errors: &mut [u32],
    nodes: &mut [u32],
    p: State,
    left: Found,
    value: u32,
    equal: u32,
) -> Out
    ensures { (low : Which → Reader) (I : List ℕ) → answered result errors.new nodes.new ≡ run (indexed t.now.table.now I) low (specs.assigned left.form left.access value equal) p errors.old nodes.old }
{
    let f = left.form;
    match f {
        Form::Name(t) => parser::make(
            nodes,
            p,
            row(Node::ASSIGN, t, 0, 0, value, left.access, 0, 0),
        ),
        Form::Property(t, o) => parser::make(
            nodes,
            p,
            row(Node::SET, t, 0, 0, o, value, left.access, 0),
        ),
        Form::Other => fatal(t, errors, p, Message::UNDEFINED_STATEMENT, before(equal)),
        Form::Empty => fatal(t, errors, p, Message::UNDEFINED_STATEMENT, before(equal)),
    }
}
