// A program with its names resolved. A struct, a function and a field are given by their number in text order
// from 0, core functions and initialisers numbered together; a variable by its number in its function, parameters
// first and then declarations in text order.

use crate::boxed::Boxed;
use crate::fault::Span;
use crate::items::Items;
use crate::kind::{FieldKind, Kind, Kinds};
use crate::operators::{Binary, Unary};
use crate::syntax::Ident;
use crate::text::Text;

/// A field of a struct. A row of modifiables `f[N]` is N fields of one kind, named `f[0]` to `f[N-1]`: `row` is N at
/// the first of them, and 0 at every other field.
#[derive(Drop)]
pub struct FieldInfo {
    pub name: Text,
    pub kind: FieldKind,
    pub row: u32,
}

/// A struct: its name, and its fields in text order.
#[derive(Drop)]
pub struct StructInfo {
    pub name: Text,
    pub fields: Items<FieldInfo>,
}

/// The structs of a program in text order.
pub type Structs = Items<StructInfo>;

/// An expression. `span` is that of its first token, parentheses round the whole of it left out; `kind` is None
/// only for `null`.
#[cycle(typed_expr)]
#[derive(Drop)]
pub struct TypedExpr {
    pub span: Span,
    pub kind: Option<Kind>,
    pub form: TypedForm,
}

/// What an expression is made of.
#[cycle(typed_expr)]
#[derive(Drop)]
pub enum TypedForm {
    Num(i64),
    Null,
    Var(u32),
    /// `self`
    Own,
    Unary(Unary, Boxed<TypedExpr>),
    /// the span is that of the operator; of `Pick` it is that of the field's name, and its operands are the address of
    /// the row's first modifiable and the index
    Binary(Binary, Span, Boxed<TypedExpr>, Boxed<TypedExpr>),
    /// a plain field: what is to the left of the last `->`, the struct's number, the field's number
    Field(Boxed<TypedExpr>, u32, u32),
    /// `&` of an embedded modifiable, with the same parts
    Address(Boxed<TypedExpr>, u32, u32),
}

/// Expressions in text order.
pub type TypedExprs = Items<TypedExpr>;

/// What a variable is given. The span of a value other than `Plain` is that of its first word.
#[derive(Drop)]
pub enum TypedValue {
    Plain(TypedExpr),
    Read(Span, TypedExpr),
    /// `name` is the span of the function's name
    Alloc {
        span: Span,
        shape: u32,
        function: u32,
        name: Span,
        args: TypedExprs,
    },
    ModrefInt(Span),
    /// the number is that of the struct to which the modifiable's content points
    Modref(Span, u32),
}

/// A statement. The span is that of its first token.
#[derive(Drop)]
pub enum TypedStmt {
    Declare(Span, u32, Kind, TypedValue),
    Assign(Span, u32, TypedValue),
    /// the left side before the last `->`, the struct's number, the field's number, the value
    SetField(Span, TypedExpr, u32, u32, TypedExpr),
    /// the place, and the value
    Write(Span, TypedExpr, TypedExpr),
    Call(Span, u32, TypedExprs),
    If(Span, TypedExpr, Items<TypedStmt>, Items<TypedStmt>),
    While(Span, TypedExpr, Items<TypedStmt>),
    Return(Span),
    Break(Span),
    Continue(Span),
}

/// Statements in text order.
pub type TypedStmts = Items<TypedStmt>;

/// A function: an initialiser where `initialiser` has the number of the struct of `self`, else a core function.
/// `params` is the number of parameters, `self` not counted; `kinds` are those of all variables, parameters first;
/// `close` is the span of the closing brace.
#[derive(Drop)]
pub struct TypedFunction {
    pub initialiser: Option<u32>,
    pub name: Ident,
    pub params: u32,
    pub kinds: Kinds,
    pub body: TypedStmts,
    pub close: Span,
}

/// A program.
#[derive(Drop)]
pub struct Typed {
    pub structs: Structs,
    pub functions: Items<TypedFunction>,
}
