// The reserved words.

ghost use Rattle.std.specs.Prelude.{◌≡◌, ◌≢◌, IfSome, IfNone};
ghost use Rattle.ceal_lex.specs.Spelling.{reserved_text};
ghost use Rattle.ceal_lex.specs.declared.token.Reserved.{Reserved as ReservedWord};

use crate::token::Reserved;

/// The reserved word that these bytes are, if they are one.
pub fn reserved(text: &[u8]) -> Option<Reserved>
    ensures spelled { IfSome result (λ w. text.now ≡ reserved_text w) }
    ensures none { IfNone result ((w : ReservedWord) → text.now ≢ reserved_text w) }
{
    match text {
        b"struct" => Some(Reserved::Struct),
        b"int" => Some(Reserved::Int),
        b"mod" => Some(Reserved::Mod),
        b"ceal" => Some(Reserved::Ceal),
        b"init" => Some(Reserved::Init),
        b"self" => Some(Reserved::Own),
        b"read" => Some(Reserved::Read),
        b"write" => Some(Reserved::Write),
        b"alloc" => Some(Reserved::Alloc),
        b"modref" => Some(Reserved::Modref),
        b"if" => Some(Reserved::If),
        b"else" => Some(Reserved::Else),
        b"while" => Some(Reserved::While),
        b"return" => Some(Reserved::Return),
        b"null" => Some(Reserved::Null),
        b"break" => Some(Reserved::Break),
        b"continue" => Some(Reserved::Continue),
        _ => None,
    }
}
