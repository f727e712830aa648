// The state of a reading of a program.

use crate::stack::Stack;
use ceal_base::fault::Span;
use ceal_base::items::Items;
use ceal_base::operators::{Binary, Unary};
use ceal_base::syntax::{
    Entry, Expr, Exprs, FieldDecl, Fields, Ident, Stmt, Stmts, StructDecl, TypeForm,
};

/// An expression, and where it begins with the parentheses round it.
#[derive(Drop)]
pub struct Piece {
    pub from: Span,
    pub expr: Expr,
}

/// What waits for an operand within a whole expression.
#[derive(Drop)]
pub enum Frame {
    /// `(`, and the nesting outside it
    Open(Span, u32),
    Prefix(Unary, Span),
    /// `&`
    Address(Span),
    /// `[` after an operand of `&`: the span of the `&`, the operand, and the nesting outside
    Index(Span, Expr, u32),
    /// a binary operator and its left side
    Left(Piece, Binary, Span),
}

/// What is given a value.
#[derive(Drop)]
pub enum Target {
    Declare(Span, TypeForm, Ident),
    Assign(Ident),
}

/// What a list of arguments is for.
#[derive(Drop)]
pub enum Callee {
    Call(Ident),
    /// the span of `alloc`, the struct's name and the function's
    Alloc(Target, Span, Ident, Ident),
}

/// What a whole expression is wanted for.
#[derive(Drop)]
pub enum Receiver {
    Value(Target),
    Read(Target, Span),
    /// the arguments before it
    Argument(Callee, Exprs),
    /// what is to the left of the last `->`, and the field's name
    Set(Expr, Ident),
    /// the first operand of a `write`
    Write(Span),
    /// the second operand of a `write`, after the first
    Store(Span, Expr),
    If(Span),
    While(Span),
}

/// A whole expression that is being read: the nesting at it, its operators so far, what waits within it, and what it
/// is for.
#[derive(Drop)]
pub struct Whole {
    pub nesting: u32,
    pub operators: u32,
    pub frames: Stack<Frame>,
    pub receiver: Receiver,
}

/// A place within a whole expression.
#[derive(Drop)]
pub enum Place {
    /// an operand is wanted
    Want,
    /// an operand without a sign before it is wanted, after `&`
    Post,
    /// an operand was read
    Have(Piece),
    /// an operand with an index was read
    Element(Piece),
    /// the name of a field of this operand is wanted
    Access(Piece),
}

/// A place within a type, by what was read of it.
#[derive(Drop)]
pub enum TypePart {
    Struct,
    StructNamed(Ident),
    Mod,
    ModInt,
    ModStruct,
    ModNamed(Ident),
    Done(TypeForm),
}

/// What one more token makes of a type.
#[derive(Drop)]
pub enum Typing {
    More(TypePart),
    /// the type has ended, and the token is the name after it
    Named(TypeForm, Ident),
}

/// A place within an `alloc` or a `modref`.
#[derive(Drop)]
pub enum Making {
    Alloc(Target, Span),
    Shape(Target, Span, Ident),
    Modref(Target, Span),
    /// `(` is wanted, and then `)`
    Typed(Stmt),
    Opened(Stmt),
}

/// What an open block belongs to.
#[derive(Drop)]
pub enum Owner {
    While(Span, Expr),
    Then(Span, Expr),
    Else(Span, Expr, Stmts),
}

/// An `if` whose else part is an `if` that is not ended.
#[derive(Drop)]
pub struct Chained {
    pub span: Span,
    pub test: Expr,
    pub first: Stmts,
}

/// What an open block is in: the statements before its statement, the ifs that wait for that statement, what the
/// block belongs to, and the nesting outside, with and without those ifs.
#[derive(Drop)]
pub struct Opened {
    pub before: Stmts,
    pub chain: Stack<Chained>,
    pub owner: Owner,
    pub base: u32,
    pub nesting: u32,
}

/// A place within a statement.
#[derive(Drop)]
pub enum Mode {
    Body,
    Typing(Span, TypePart),
    Declared(Span, TypeForm, Ident),
    Named(Ident),
    Owned(Span),
    /// after an arrow of a field assignment's left side, with its operators
    Path(Expr, u32),
    Reached(Expr, Ident, u32),
    Value(Target),
    Making(Making),
    /// `(` is wanted, and then arguments
    Calls(Callee),
    First(Callee),
    /// `(` is wanted, and then a whole expression
    Before(Receiver),
    Within(Whole, Place),
    /// `;` is wanted
    Ends(Stmt),
    /// a statement that ends by itself
    Ended(Stmt),
    /// `{` is wanted
    Opens(Owner),
    /// after the first block of an `if`
    Closed(Span, Expr, Stmts),
    Otherwise(Span, Expr, Stmts),
}

/// The head of a function.
#[derive(Drop)]
pub struct Head {
    pub initialiser: Option<Ident>,
    pub name: Ident,
    pub params: Fields,
}

/// A function's body: what is before it, its open blocks, the statements of the innermost one, the ifs that wait
/// for the statement that is being read, and the nesting without them and with them.
#[derive(Drop)]
pub struct Inside {
    pub entries: Items<Entry>,
    pub head: Head,
    pub opened: Stack<Opened>,
    pub done: Stmts,
    pub chain: Stack<Chained>,
    pub base: u32,
    pub nesting: u32,
}

/// A struct that is being read, and how many fields its members are.
#[derive(Drop)]
pub struct Layout {
    pub decl: StructDecl,
    pub count: u32,
}

/// A place within a struct.
#[derive(Drop)]
pub enum StructPlace {
    Begun,
    Named(Ident),
    Members(Layout),
    Typing(Layout, TypePart),
    /// after a member, or after a modifiable that may be a row of them
    Ends(Layout, FieldDecl),
    /// the length of a row is wanted
    Length(Layout, FieldDecl),
    /// `]` is wanted after the length
    Sized(Layout, FieldDecl, u64),
    Closed(StructDecl),
}

/// A place within the head of a function.
#[derive(Drop)]
pub enum HeadPlace {
    Ceal,
    CealNamed(Ident),
    Init,
    InitNamed(Ident),
    InitOpened(Ident),
    InitStruct(Ident),
    Shaped(Head),
    Starred(Head),
    First(Head),
    Next(Head),
    Typing(Head, TypePart),
    Named(Head),
    Done(Head),
}

/// A place within a program.
#[derive(Drop)]
pub enum State {
    Top(Items<Entry>),
    Struct(Items<Entry>, StructPlace),
    Head(Items<Entry>, HeadPlace),
    In(Inside, Mode),
    Finished(Items<Entry>),
}
