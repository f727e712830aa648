// The tree of a source text, as the grammar has it.

use crate::boxed::Boxed;
use crate::fault::Span;
use crate::items::Items;
use crate::operators::{Binary, Unary};
use crate::text::Text;

/// A name, and its place.
#[derive(Drop)]
pub struct Ident {
    pub text: Text,
    pub span: Span,
}

/// An expression. `span` is that of its first token, parentheses round the whole of it left out: of `(null)` it is
/// that of `null`, of `(a) + b` that of the `(`.
#[cycle(expr)]
#[derive(Drop)]
pub struct Expr {
    pub span: Span,
    pub form: ExprForm,
}

/// What an expression is made of. Parentheses leave nothing in it.
#[cycle(expr)]
#[derive(Drop)]
pub enum ExprForm {
    Num(i64),
    Null,
    Var(Ident),
    /// `self`
    Own,
    Unary(Unary, Boxed<Expr>),
    /// the span is that of the operator
    Binary(Binary, Span, Boxed<Expr>, Boxed<Expr>),
    /// `E->f`
    Field(Boxed<Expr>, Ident),
    /// `&E`
    Address(Boxed<Expr>),
    /// `&E[I]`: the field access, which names a row of modifiables, and the index
    Pick(Boxed<Expr>, Boxed<Expr>),
}

/// Expressions in text order.
pub type Exprs = Items<Expr>;

/// The type that a declaration, a parameter or a field names.
#[derive(Drop)]
pub enum TypeForm {
    /// `int`
    Int,
    /// `struct S *`
    Ptr(Ident),
    /// `mod int *`
    ModInt,
    /// `mod struct S *`
    ModPtr(Ident),
    /// `mod int f`, only of a field
    CellInt,
    /// `mod struct S f`, only of a field
    CellPtr(Ident),
    /// `mod int f[N]`, only of a field: a row of N modifiables
    CellRow(u32),
    /// `mod struct S f[N]`, only of a field
    CellPtrRow(Ident, u32),
}

/// What a variable is given. The span is that of `read`, `alloc` or `modref`.
#[derive(Drop)]
pub enum Value {
    Plain(Expr),
    Read(Span, Expr),
    /// the struct's name, and the function's
    Alloc(Span, Ident, Ident, Exprs),
    ModrefInt(Span),
    Modref(Span, Ident),
}

/// A statement. The span is that of its first token; in `Assign` and `Call` that token is the name.
#[derive(Drop)]
pub enum Stmt {
    Declare(Span, TypeForm, Ident, Value),
    Assign(Ident, Value),
    /// what is to the left of the last `->`, the field's name, and the value
    SetField(Span, Expr, Ident, Expr),
    Write(Span, Expr, Expr),
    Call(Ident, Exprs),
    /// the test, and both parts; `else if` is an else part of one statement
    If(Span, Expr, Items<Stmt>, Items<Stmt>),
    While(Span, Expr, Items<Stmt>),
    Return(Span),
    Break(Span),
    Continue(Span),
}

/// Statements in text order.
pub type Stmts = Items<Stmt>;

/// A field or a parameter.
#[derive(Drop)]
pub struct FieldDecl {
    pub form: TypeForm,
    pub name: Ident,
}

/// Fields or parameters in text order.
pub type Fields = Items<FieldDecl>;

/// A function: an initialiser where `initialiser` names the struct of `self`, else a core function. `params` has no
/// `self`; `close` is the span of the closing brace.
#[derive(Drop)]
pub struct FunctionDecl {
    pub initialiser: Option<Ident>,
    pub name: Ident,
    pub params: Fields,
    pub body: Stmts,
    pub close: Span,
}

/// A struct.
#[derive(Drop)]
pub struct StructDecl {
    pub name: Ident,
    pub fields: Fields,
}

/// What a program is a list of.
#[derive(Drop)]
pub enum Entry {
    Struct(StructDecl),
    Function(FunctionDecl),
}

/// A source text's tree: its entries in text order.
#[derive(Drop)]
pub struct Tree {
    pub entries: Items<Entry>,
}
