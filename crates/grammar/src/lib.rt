// The readers of parser.rs, `declaration` to `super_expr`, as far as they call each other: one cycle of calls. Each answers with the state and what it found; a stop is passed on. `levels` is how many levels may still open.
#![tactic(auto)]

ghost use Rattle.std.specs.Prelude.{◌≡◌, ◌-◌};
ghost use Rattle.parser.specs.Tokens.{view};
ghost use Rattle.parser.specs.Tables.{answered, and_then};
ghost use Rattle.parser.specs.Programs.{Declaration, Assignment};
ghost use Rattle.parser.specs.Grammar as specs;
ghost use Rattle.parser.specs.Grammar.{fuel, fn_stmt, fn_expr, methods_from, let_stmt, for_loop, enhanced_for, try_catch, if_stmt, elifs_from, while_stmt, dict_elements_from, open_slice, levels, lower};
ghost use Rattle.pieces.specs.Pieces as pieces;
ghost use Rattle.pieces.specs.Pieces.{run_at, end_class};
ghost use Rattle.operators.specs.Operators.{behind_first};

use parser::{Found, Members, Out, State, Tokens};
use pieces::Access;
use records::{Message, Node, Outcome};
use token::Token;

// Declarations up to the closing brace, which is passed.
#[cycle(grammar)]
fn block(t: &Tokens, errors: &mut [u32], nodes: &mut [u32], p: State, levels: u32) -> Out
    ensures { answered result errors.new nodes.new ≡ run_at (view t.now) levels (specs.block (view t.now)) p errors.old nodes.old }
{
    let mut list = Members::NONE;
    let mut s = p;
    loop {
        let at = s.current;
        if let Some(i) = t.matches(at, Token::RIGHT_CURLY_BRACE) {
            return parser::gives(s.at_token(i, 1), list.first);
        }
        let (q, n) = declaration(t, errors, nodes, s.looked(1), levels)?;
        list = list.and(nodes, n.node);
        s = q;
    }
}

// A function from its parameters on; its loops are its own.
#[cycle(grammar)]
fn func(
    t: &Tokens,
    errors: &mut [u32],
    nodes: &mut [u32],
    p: State,
    levels: u32,
    kind: u32,
    name: u32,
    message: u32,
) -> Out
    ensures { answered result errors.new nodes.new ≡ run_at (view t.now) levels (pieces.func (view t.now) kind name message) p errors.old nodes.old }
{
    let (q, params) = pieces::parameters(t, errors, nodes, p, message)?;
    let (s, _) = t.consume(
        errors,
        q,
        Token::RIGHT_PAREN,
        Message::EXPECT_PAREN_AFTER_EXPRESSION,
    )?;
    let at = s.current;
    match t.matches(at, Token::LEFT_CURLY_BRACE) {
        Some(i) => {
            let b = block(t, errors, nodes, s.at_token(i, 1), levels);
            pieces::fn_node(nodes, b, kind, name, params.node)
        }
        None => {
            let g = assignment(t, errors, nodes, s.looked(1), levels);
            let b = pieces::expression_stmt(nodes, g);
            pieces::fn_node(nodes, b, kind, name, params.node)
        }
    }
}

#[cycle(grammar)]
fn fn_stmt(t: &Tokens, errors: &mut [u32], nodes: &mut [u32], p: State, levels: u32) -> Out
    ensures { answered result errors.new nodes.new ≡ run_at (view t.now) levels (fn_stmt (view t.now)) p errors.old nodes.old }
{
    let (q, name) = t.require(
        errors,
        p,
        Token::IDENTIFIER,
        Message::EXPECTED_FUNCTION_NAME,
    )?;
    let outer = q.loops;
    let (s, _) = t.consume(
        errors,
        q.with_loops(0),
        Token::LEFT_PAREN,
        Message::EXPECT_PAREN_AFTER_NAME,
    )?;
    let (u, f) = func(
        t,
        errors,
        nodes,
        s,
        levels,
        Node::FN,
        name.node,
        Message::EXPECTED_PARAMETER,
    )?;
    Ok((u.with_loops(outer), f))
}

#[cycle(grammar)]
fn fn_expr(t: &Tokens, errors: &mut [u32], nodes: &mut [u32], p: State, levels: u32) -> Out
    ensures { answered result errors.new nodes.new ≡ run_at (view t.now) levels (fn_expr (view t.now)) p errors.old nodes.old }
{
    let (s, _) = t.consume(
        errors,
        p,
        Token::LEFT_PAREN,
        Message::EXPECTED_PAREN_AFTER_NAME,
    )?;
    let outer = s.loops;
    let (u, f) = func(
        t,
        errors,
        nodes,
        s.with_loops(0),
        levels,
        Node::FN_EXPR,
        0,
        Message::EXPECT_PARAMETER,
    )?;
    Ok((u.with_loops(outer), f))
}

#[cycle(grammar)]
fn class(t: &Tokens, errors: &mut [u32], nodes: &mut [u32], p: State, levels: u32) -> Out
    ensures { answered result errors.new nodes.new ≡ run_at (view t.now) levels (specs.class (view t.now)) p errors.old nodes.old }
{
    let (q, name) = t.consume(
        errors,
        p,
        Token::IDENTIFIER,
        Message::EXPECTED_VARIABLE_NAME,
    )?;
    let (q, sup) = pieces::superclass(t, errors, nodes, q)?;
    let (q, _) = t.consume(
        errors,
        q,
        Token::LEFT_CURLY_BRACE,
        Message::EXPECTED_LEFT_CURLY,
    )?;
    methods(t, errors, nodes, q, levels, name.node, sup.node)
}

// Methods and static methods, up to the brace or the end; then the class.
#[cycle(grammar)]
fn methods(
    t: &Tokens,
    errors: &mut [u32],
    nodes: &mut [u32],
    p: State,
    levels: u32,
    name: u32,
    sup: u32,
) -> Out
    ensures { answered result errors.new nodes.new ≡ run_at (view t.now) levels (methods_from (view t.now) (fuel (view t.now)) (end_class name sup) 0 0 0 0) p errors.old nodes.old }
{
    let mut s = p;
    let mut list = Members::NONE;
    let mut statics = Members::NONE;
    loop {
        let at = s.current;
        if let Some(i) = t.check(at, Token::RIGHT_CURLY_BRACE) {
            return pieces::end_class(
                t,
                errors,
                nodes,
                s.at_token(i, 1),
                name,
                list.first,
                statics.first,
                sup,
            );
        }
        let u = s.looked(1);
        if t.is_at_end(s) {
            return pieces::end_class(t, errors, nodes, u, name, list.first, statics.first, sup);
        }
        if let Some(i) = t.matches(at, Token::CLASS) {
            let (q, n) = fn_stmt(t, errors, nodes, u.at_token(i, 1), levels)?;
            statics = statics.and(nodes, n.node);
            s = q;
        } else {
            let (q, n) = fn_stmt(t, errors, nodes, u.looked(1), levels)?;
            list = list.and(nodes, n.node);
            s = q;
        }
    }
}

#[cycle(grammar)]
fn let_stmt(t: &Tokens, errors: &mut [u32], nodes: &mut [u32], p: State, levels: u32) -> Out
    ensures { answered result errors.new nodes.new ≡ run_at (view t.now) levels (let_stmt (view t.now)) p errors.old nodes.old }
{
    let (q, name) = t.require(
        errors,
        p,
        Token::IDENTIFIER,
        Message::EXPECTED_VARIABLE_NAME,
    )?;
    let at = q.current;
    let Some(i) = t.matches(at, Token::EQUAL) else {
        return parser::make(
            nodes,
            q.looked(1),
            pieces::row(Node::LET, name.node, 0, 0, 0, 0, 0, 0),
        );
    };
    let (s, e) = assignment(t, errors, nodes, q.at_token(i, 1), levels)?;
    parser::make(
        nodes,
        s,
        pieces::row(Node::LET, name.node, 0, 0, e.node, 0, 0, 0),
    )
}

#[cycle(grammar)]
fn for_loop(
    t: &Tokens,
    errors: &mut [u32],
    nodes: &mut [u32],
    p: State,
    levels: u32,
    keyword: u32,
) -> Out
    ensures { answered result errors.new nodes.new ≡ run_at (view t.now) levels (for_loop (view t.now) keyword) p errors.old nodes.old }
{
    let s = p.enter_loop();
    let at = s.current;
    if let Some(i) = t.check(at, Token::IDENTIFIER) {
        return for_in(t, errors, nodes, s.at_token(i, 1), levels, keyword);
    }
    let s = s.looked(1);
    if let Some(i) = t.matches(at, Token::SEMICOLON) {
        return for_c(t, errors, nodes, s.at_token(i, 1), levels, keyword, 0);
    }
    let s = s.looked(1);
    if let Some(i) = t.matches(at, Token::LET) {
        let (q, n) = let_stmt(t, errors, nodes, s.at_token(i, 1), levels)?;
        let (q, _) = t.consume(errors, q, Token::SEMICOLON, Message::EXPECTED_SEMICOLON)?;
        return for_c(t, errors, nodes, q, levels, keyword, n.node);
    }
    let (q, _) = t.set_error(errors, s.looked(1), Message::EMPTY_OR_LET, at)?;
    for_c(t, errors, nodes, q, levels, keyword, 0)
}

#[cycle(grammar)]
fn for_c(
    t: &Tokens,
    errors: &mut [u32],
    nodes: &mut [u32],
    p: State,
    levels: u32,
    keyword: u32,
    init: u32,
) -> Out
    ensures { answered result errors.new nodes.new ≡ run_at (view t.now) levels (pieces.classic (view t.now) keyword init) p errors.old nodes.old }
{
    let (q, cond) = assignment(t, errors, nodes, p, levels)?;
    let (q, _) = t.consume(errors, q, Token::SEMICOLON, Message::EXPECTED_SEMICOLON)?;
    let (q, inc) = assignment(t, errors, nodes, q, levels)?;
    let (q, stmt) = declaration(t, errors, nodes, q, levels)?;
    parser::make(
        nodes,
        q.leave_loop(),
        pieces::row(
            Node::CLASSIC_FOR,
            keyword,
            0,
            0,
            init,
            cond.node,
            inc.node,
            stmt.node,
        ),
    )
}

#[cycle(grammar)]
fn for_in(
    t: &Tokens,
    errors: &mut [u32],
    nodes: &mut [u32],
    p: State,
    levels: u32,
    keyword: u32,
) -> Out
    ensures { answered result errors.new nodes.new ≡ run_at (view t.now) levels (enhanced_for (view t.now) keyword) p errors.old nodes.old }
{
    let (q, ids) = pieces::names(t, nodes, p)?;
    let (q, _) = t.consume(errors, q, Token::IN, Message::EXPECTED_IN)?;
    let (q, collection) = assignment(t, errors, nodes, q, levels)?;
    let stmt = declaration(t, errors, nodes, q, levels);
    pieces::for_node(nodes, stmt, keyword, ids.node, collection.node)
}

#[cycle(grammar)]
fn try_catch(t: &Tokens, errors: &mut [u32], nodes: &mut [u32], p: State, levels: u32) -> Out
    ensures { answered result errors.new nodes.new ≡ run_at (view t.now) levels (try_catch (view t.now)) p errors.old nodes.old }
{
    let (q, tried) = declaration(t, errors, nodes, p, levels)?;
    let (q, _) = t.consume(errors, q, Token::CATCH, Message::EXPECTED_CATCH)?;
    let (q, name) = t.require(
        errors,
        q,
        Token::IDENTIFIER,
        Message::EXPECTED_VARIABLE_NAME,
    )?;
    let (q, caught) = declaration(t, errors, nodes, q, levels)?;
    parser::make(
        nodes,
        q,
        pieces::row(
            Node::TRY_CATCH,
            name.node,
            0,
            0,
            tried.node,
            caught.node,
            0,
            0,
        ),
    )
}

#[cycle(grammar)]
fn if_stmt(
    t: &Tokens,
    errors: &mut [u32],
    nodes: &mut [u32],
    p: State,
    levels: u32,
    keyword: u32,
) -> Out
    ensures { answered result errors.new nodes.new ≡ run_at (view t.now) levels (if_stmt (view t.now) keyword) p errors.old nodes.old }
{
    let (q, cond) = assignment(t, errors, nodes, p, levels)?;
    let (q, _) = t.consume(
        errors,
        q,
        Token::LEFT_CURLY_BRACE,
        Message::EXPECTED_LEFT_CURLY,
    )?;
    let (q, stmts) = block(t, errors, nodes, q, levels)?;
    let (q, e) = elifs(t, errors, nodes, q, levels)?;
    let at = q.current;
    let Some(i) = t.matches(at, Token::ELSE) else {
        return parser::make(
            nodes,
            q.looked(1),
            pieces::row(Node::IF, keyword, 0, 0, cond.node, stmts.node, e.node, 0),
        );
    };
    let (q, _) = t.consume(
        errors,
        q.at_token(i, 1),
        Token::LEFT_CURLY_BRACE,
        Message::EXPECTED_LEFT_CURLY,
    )?;
    let o = block(t, errors, nodes, q, levels);
    pieces::if_node(nodes, o, keyword, cond.node, stmts.node, e.node)
}

#[cycle(grammar)]
fn elifs(t: &Tokens, errors: &mut [u32], nodes: &mut [u32], p: State, levels: u32) -> Out
    ensures { answered result errors.new nodes.new ≡ run_at (view t.now) levels (elifs_from (view t.now) (fuel (view t.now)) 0 0) p errors.old nodes.old }
{
    let mut s = p;
    let mut list = Members::NONE;
    loop {
        let at = s.current;
        let Some(i) = t.matches(at, Token::ELIF) else {
            return parser::gives(s.looked(1), list.first);
        };
        let (q, cond) = assignment(t, errors, nodes, s.at_token(i, 1), levels)?;
        let (q, _) = t.consume(
            errors,
            q,
            Token::LEFT_CURLY_BRACE,
            Message::EXPECTED_LEFT_CURLY,
        )?;
        let (q, stmts) = block(t, errors, nodes, q, levels)?;
        let (u, n) = parser::make(
            nodes,
            q,
            pieces::row(Node::ELIF, 0, 0, 0, cond.node, stmts.node, 0, 0),
        )?;
        list = list.and(nodes, n.node);
        s = u;
    }
}

#[cycle(grammar)]
fn ret(
    t: &Tokens,
    errors: &mut [u32],
    nodes: &mut [u32],
    p: State,
    levels: u32,
    keyword: u32,
) -> Out
    ensures { answered result errors.new nodes.new ≡ run_at (view t.now) levels (specs.ret (view t.now) keyword) p errors.old nodes.old }
{
    let at = p.current;
    if let Some(i) = t.check(at, Token::NEWLINE) {
        return parser::make(
            nodes,
            p.at_token(i, 1),
            pieces::row(Node::RETURN, keyword, 0, 0, 0, 0, 0, 0),
        );
    }
    let (q, e) = assignment(t, errors, nodes, p.looked(1), levels)?;
    parser::make(
        nodes,
        q,
        pieces::row(Node::RETURN, keyword, 0, 0, e.node, 0, 0, 0),
    )
}

#[cycle(grammar)]
fn while_stmt(
    t: &Tokens,
    errors: &mut [u32],
    nodes: &mut [u32],
    p: State,
    levels: u32,
    keyword: u32,
) -> Out
    ensures { answered result errors.new nodes.new ≡ run_at (view t.now) levels (while_stmt (view t.now) keyword) p errors.old nodes.old }
{
    let (q, cond) = assignment(t, errors, nodes, p.enter_loop(), levels)?;
    let (q, stmt) = declaration(t, errors, nodes, q, levels)?;
    parser::make(
        nodes,
        q.leave_loop(),
        pieces::row(Node::WHILE, keyword, 0, 0, cond.node, stmt.node, 0, 0),
    )
}

// `statement`: one look at the next token that is no Newline, then the tests in the Rust's order.
#[cycle(grammar)]
fn stmt(t: &Tokens, errors: &mut [u32], nodes: &mut [u32], p: State, levels: u32) -> Out
    ensures { answered result errors.new nodes.new ≡ run_at (view t.now) levels (specs.statement (view t.now)) p errors.old nodes.old }
{
    let coming = t.peek(p.current);
    let i = coming.past;
    match coming.kind {
        Token::FOR => for_loop(t, errors, nodes, p.at_token(i, 1), levels, i),
        Token::TRY => try_catch(t, errors, nodes, p.at_token(i, 2), levels),
        Token::IF => if_stmt(t, errors, nodes, p.at_token(i, 3), levels, i),
        Token::RETURN => ret(t, errors, nodes, p.at_token(i, 4), levels, i),
        Token::BREAK => pieces::jump(t, errors, nodes, p.at_token(i, 5), Node::BREAK, i),
        Token::CONTINUE => pieces::jump(t, errors, nodes, p.at_token(i, 6), Node::CONTINUE, i),
        Token::WHILE => while_stmt(t, errors, nodes, p.at_token(i, 7), levels, i),
        Token::LEFT_CURLY_BRACE => {
            let (q, b) = block(t, errors, nodes, p.at_token(i, 8), levels)?;
            parser::make(nodes, q, pieces::row(Node::BLOCK, 0, 0, 0, b.node, 0, 0, 0))
        }
        _ => {
            let g = assignment(t, errors, nodes, p.looked(8), levels);
            pieces::expression_stmt(nodes, g)
        }
    }
}

// `declaration`, without its newline test. It opens a level.
#[cycle(grammar)]
pub fn declaration(t: &Tokens, errors: &mut [u32], nodes: &mut [u32], p: State, levels: u32) -> Out
    ensures { answered result errors.new nodes.new ≡ lower (view t.now) levels Declaration p errors.old nodes.old }
{
    if levels == 0 {
        return parser::stopped(p, Outcome::TooDeep as u32);
    }
    let coming = t.peek(p.current);
    let i = coming.past;
    match coming.kind {
        Token::CLASS => class(t, errors, nodes, p.at_token(i, 1), levels - 1),
        Token::FN => fn_stmt(t, errors, nodes, p.at_token(i, 2), levels - 1),
        Token::LET => let_stmt(t, errors, nodes, p.at_token(i, 3), levels - 1),
        _ => stmt(t, errors, nodes, p.looked(3), levels - 1),
    }
}

// Up to the mark, or to what is no comma; the 256th argument of a call is message 27.
#[cycle(grammar)]
fn arguments(
    t: &Tokens,
    errors: &mut [u32],
    nodes: &mut [u32],
    p: State,
    levels: u32,
    mark: u32,
) -> Out
    ensures { answered result errors.new nodes.new ≡ run_at (view t.now) levels (specs.arguments (view t.now) mark) p errors.old nodes.old }
{
    let at = p.current;
    if let Some(i) = t.check(at, mark) {
        return parser::gives(p.at_token(i, 1), 0);
    }
    let mut s = p.looked(1);
    let mut list = Members::NONE;
    let mut n: u32 = 0;
    loop {
        if (mark == Token::RIGHT_PAREN) & (255 <= n) {
            let at = s.current;
            return pieces::fatal(t, errors, s, Message::MAX_ARGUMENTS, at);
        }
        let (u, e) = assignment(t, errors, nodes, s, levels)?;
        list = list.and(nodes, e.node);
        n += 1;
        let at = u.current;
        let Some(i) = t.matches(at, Token::COMMA) else {
            return parser::gives(u.looked(1), list.first);
        };
        let v = u.at_token(i, 1);
        if let Some(j) = t.check(i, mark) {
            return parser::gives(v.at_token(j, 1), list.first);
        }
        s = v.looked(1);
    }
}

// Keys and values in turn.
#[cycle(grammar)]
fn pairs(t: &Tokens, errors: &mut [u32], nodes: &mut [u32], p: State, levels: u32) -> Out
    ensures { answered result errors.new nodes.new ≡ run_at (view t.now) levels (dict_elements_from (view t.now) (fuel (view t.now)) 0 0) p errors.old nodes.old }
{
    let mut s = p;
    let mut list = Members::NONE;
    loop {
        let at = s.current;
        if let Some(i) = t.check(at, Token::RIGHT_CURLY_BRACE) {
            return parser::gives(s.at_token(i, 1), list.first);
        }
        let (q, key) = assignment(t, errors, nodes, s.looked(1), levels)?;
        let (q, _) = t.consume(errors, q, Token::COLON, Message::EXPECTED_COLON_AFTER_KEY)?;
        let (u, value) = assignment(t, errors, nodes, q, levels)?;
        list = list.and(nodes, key.node);
        records::link(nodes, key.node, value.node);
        list.last = value.node;
        let at = u.current;
        let Some(i) = t.matches(at, Token::COMMA) else {
            return parser::gives(u.looked(1), list.first);
        };
        s = u.at_token(i, 1);
    }
}

// A slice without its first part, after the first colon.
#[cycle(grammar)]
fn upto(
    t: &Tokens,
    errors: &mut [u32],
    nodes: &mut [u32],
    p: State,
    levels: u32,
    object: Found,
    brace: u32,
    c: u32,
) -> Out
    ensures { answered result errors.new nodes.new ≡ run_at (view t.now) levels (open_slice (view t.now) object brace c) p errors.old nodes.old }
{
    let from = Access::new(object, brace, 0, c);
    let at = p.current;
    if let Some(d) = t.matches(at, Token::COLON) {
        let g = assignment(t, errors, nodes, p.at_token(d, 1), levels);
        return pieces::step(t, errors, nodes, g, from.and(0, d));
    }
    let (q, second) = assignment(t, errors, nodes, p.looked(1), levels)?;
    let at = q.current;
    if let Some(d) = t.matches(at, Token::COLON) {
        let g = assignment(t, errors, nodes, q.at_token(d, 1), levels);
        return pieces::step(t, errors, nodes, g, from.and(second.node, d));
    }
    pieces::close_access(t, errors, nodes, q.looked(1), from.and(second.node, 0))
}

// A slice with its first part, after the first colon.
#[cycle(grammar)]
fn slice(
    t: &Tokens,
    errors: &mut [u32],
    nodes: &mut [u32],
    p: State,
    levels: u32,
    object: Found,
    brace: u32,
    first: u32,
    c: u32,
) -> Out
    ensures { answered result errors.new nodes.new ≡ run_at (view t.now) levels (specs.slice (view t.now) object brace first c) p errors.old nodes.old }
{
    let from = Access::new(object, brace, first, c);
    let at = p.current;
    if let Some(d) = t.matches(at, Token::COLON) {
        let g = assignment(t, errors, nodes, p.at_token(d, 1), levels);
        return pieces::step(t, errors, nodes, g, from.and(0, d));
    }
    let u = p.looked(1);
    if let Some(i) = t.check(at, Token::RIGHT_BRACE) {
        return pieces::close_access(t, errors, nodes, u.at_token(i, 1), from);
    }
    let v = u.looked(1);
    if t.is_at_end(p) {
        return pieces::close_access(t, errors, nodes, v, from);
    }
    let (q, second) = assignment(t, errors, nodes, v, levels)?;
    let at = q.current;
    let Some(d) = t.matches(at, Token::COLON) else {
        return pieces::close_access(t, errors, nodes, q.looked(1), from.and(second.node, 0));
    };
    let upto = from.and(second.node, d);
    let s = q.at_token(d, 1);
    if let Some(i) = t.check(d, Token::RIGHT_BRACE) {
        return pieces::close_access(t, errors, nodes, s.at_token(i, 1), upto);
    }
    let w = s.looked(1);
    if t.is_at_end(s) {
        return pieces::close_access(t, errors, nodes, w, upto);
    }
    let g = assignment(t, errors, nodes, w, levels);
    pieces::step(t, errors, nodes, g, upto)
}

#[cycle(grammar)]
fn access(
    t: &Tokens,
    errors: &mut [u32],
    nodes: &mut [u32],
    p: State,
    levels: u32,
    object: Found,
    brace: u32,
) -> Out
    ensures { answered result errors.new nodes.new ≡ run_at (view t.now) levels (specs.access (view t.now) object brace) p errors.old nodes.old }
{
    let at = p.current;
    if let Some(c) = t.matches(at, Token::COLON) {
        return upto(t, errors, nodes, p.at_token(c, 1), levels, object, brace, c);
    }
    let (q, first) = assignment(t, errors, nodes, p.looked(1), levels)?;
    let first = first.node;
    let at = q.current;
    if let Some(c) = t.matches(at, Token::COLON) {
        let s = q.at_token(c, 1);
        return slice(t, errors, nodes, s, levels, object, brace, first, c);
    }
    let a = Access::new(object, brace, first, 0);
    pieces::close_access(t, errors, nodes, q.looked(1), a)
}

#[cycle(grammar)]
fn primary(t: &Tokens, errors: &mut [u32], nodes: &mut [u32], p: State, levels: u32) -> Out
    ensures { answered result errors.new nodes.new ≡ run_at (view t.now) levels (specs.primary (view t.now)) p errors.old nodes.old }
{
    let at = p.current;
    let coming = t.peek(at);
    let kind = coming.kind;
    let j = coming.past;
    if let Some(n) = pieces::literal_place(kind) {
        return parser::make(
            nodes,
            p.at_token(j, n),
            pieces::row(Node::LITERAL, j, 0, 0, 0, 0, 0, 0),
        );
    }
    match kind {
        Token::IDENTIFIER => pieces::variable(nodes, p.at_token(j, 6), j),
        Token::LEFT_PAREN => {
            let (q, e) = assignment(t, errors, nodes, p.at_token(j, 7), levels)?;
            pieces::grouping(t, errors, nodes, q, e.node)
        }
        Token::LEFT_BRACE => {
            let q = p.at_token(j, 8);
            let g = arguments(t, errors, nodes, q, levels, Token::RIGHT_BRACE);
            let message = Message::EXPECTED_END_OF_LIST;
            pieces::collection(t, errors, nodes, g, Token::RIGHT_BRACE, message, Node::LIST)
        }
        Token::LEFT_CURLY_BRACE => {
            let g = pairs(t, errors, nodes, p.at_token(j, 9), levels);
            let mark = Token::RIGHT_CURLY_BRACE;
            let message = Message::EXPECTED_END_OF_DICT;
            pieces::collection(t, errors, nodes, g, mark, message, Node::DICTIONARY)
        }
        Token::FN => fn_expr(t, errors, nodes, p.at_token(j, 10), levels),
        Token::THIS => {
            let d = pieces::row(Node::THIS, j, 0, 0, 0, 0, 0, 0);
            parser::make(nodes, p.at_token(j, 11), d)
        }
        Token::SUPER => pieces::super_expr(t, errors, nodes, p.at_token(j, 12), j),
        _ => {
            let s = p.looked(12);
            if let Some(i) = t.matches(at, Token::NEWLINE) {
                return pieces::empty(nodes, s.at_token(i, 1));
            }
            pieces::fatal(t, errors, s.looked(1), Message::UNDEFINED_EXPRESSION, at)
        }
    }
}

// Most expressions end with their `primary`; those leave before the loop.
#[cycle(grammar)]
fn call(t: &Tokens, errors: &mut [u32], nodes: &mut [u32], p: State, levels: u32) -> Out
    ensures { answered result errors.new nodes.new ≡ run_at (view t.now) levels (specs.call (view t.now)) p errors.old nodes.old }
{
    let (u, first) = primary(t, errors, nodes, p, levels)?;
    let at = u.current;
    let coming = t.peek(at);
    if pieces::suffix_place(coming.kind).is_none() {
        return pieces::found(u.looked(3), first);
    }
    let mut e = first;
    let mut q = u;
    loop {
        let at = q.current;
        let coming = t.peek(at);
        let kind = coming.kind;
        let j = coming.past;
        match kind {
            Token::LEFT_PAREN => {
                let mark = Token::RIGHT_PAREN;
                let args = arguments(t, errors, nodes, q.at_token(j, 1), levels, mark);
                let (r, n) = pieces::finish_call(t, errors, nodes, args, e.node)?;
                e = n;
                q = r;
            }
            Token::DOT => {
                let (r, n) = pieces::get(t, errors, nodes, q.at_token(j, 2), e.node)?;
                e = n;
                q = r;
            }
            Token::LEFT_BRACE => {
                let (r, n) = access(t, errors, nodes, q.at_token(j, 3), levels, e, j)?;
                e = n;
                q = r;
            }
            _ => return pieces::found(q.looked(3), e),
        }
    }
}

#[cycle(grammar)]
fn unary(t: &Tokens, errors: &mut [u32], nodes: &mut [u32], p: State, levels: u32) -> Out
    ensures { answered result errors.new nodes.new ≡ run_at (view t.now) levels (specs.unary (view t.now)) p errors.old nodes.old }
{
    let at = p.current;
    let coming = t.peek(at);
    let kind = coming.kind;
    if let Some(n) = pieces::prefix_place(kind) {
        let j = coming.past;
        let q = p.at_token(j, n);
        if levels == 0 {
            return parser::stopped(q, Outcome::TooDeep as u32);
        }
        let (s, e) = unary(t, errors, nodes, q, levels - 1)?;
        return parser::make(nodes, s, pieces::row(Node::UNARY, j, 0, 0, e.node, 0, 0, 0));
    }
    call(t, errors, nodes, p.looked(2), levels)
}

// `or` to `power` after their first operand, without the loosest so many levels: the nested loops as one, from the tightest level to the loosest.
#[cycle(grammar)]
fn binary(
    t: &Tokens,
    errors: &mut [u32],
    nodes: &mut [u32],
    operand: Out,
    levels: u32,
    looser: u32,
) -> Out
    ensures { answered result errors.new nodes.new ≡ and_then (answered operand errors.old nodes.old) λ g q E N. run_at (view t.now) levels (behind_first (view t.now) looser g) q E N }
{
    let (mut s, mut left) = operand?;
    let mut r: u32 = 7;
    loop {
        let at = s.current;
        let tried = operators::turn_at(t, at, looser, r);
        let n = tried.looks;
        let Some((rank, j)) = tried.turn else {
            return pieces::found(s.looked(n), left);
        };
        let g = unary(t, errors, nodes, s.at_token(j, n), levels);
        let (q, right) = binary(t, errors, nodes, g, levels, rank)?;
        let (u, n) = parser::make(
            nodes,
            q,
            operators::operation(rank, left.node, j, right.node),
        )?;
        left = n;
        s = u;
        r = rank;
    }
}

// `assignment`: the value is read before the left side is judged. It opens a level.
#[cycle(grammar)]
fn assignment(t: &Tokens, errors: &mut [u32], nodes: &mut [u32], p: State, levels: u32) -> Out
    ensures { answered result errors.new nodes.new ≡ lower (view t.now) levels Assignment p errors.old nodes.old }
{
    if levels == 0 {
        return parser::stopped(p, Outcome::TooDeep as u32);
    }
    let first = unary(t, errors, nodes, p, levels - 1);
    let (q, left) = binary(t, errors, nodes, first, levels - 1, 0)?;
    let at = q.current;
    let Some(i) = t.matches(at, Token::EQUAL) else {
        return Ok((q.looked(1), left));
    };
    let (s, value) = assignment(t, errors, nodes, q.at_token(i, 1), levels - 1)?;
    pieces::assigned(t, errors, nodes, s, left, value.node, i)
}
