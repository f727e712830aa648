// The words that commands begin with.

ghost use Rattle.std.specs.Prelude.{◌≡◌, ◌≢◌, IfSome, IfNone};
ghost use Rattle.ceal_script.specs.Keywords.{keyword_text};
ghost use Rattle.ceal_script.specs.declared.keyword.Keyword.{Keyword as KeywordOf};

/// A word that a command begins with.
#[derive(Clone, Copy)]
pub enum Keyword {
    Mod,
    New,
    Set,
    Run,
    Propagate,
    Get,
    Show,
    Blocks,
    Steps,
    Work,
    Bound,
}

/// The keyword that a word is, if it is one.
pub fn read_keyword(word: &[u8]) -> Option<Keyword>
    ensures spelled { IfSome result (λ k. word.now ≡ keyword_text k) }
    ensures none { IfNone result ((k : KeywordOf) → word.now ≢ keyword_text k) }
{
    match word {
        b"mod" => Some(Keyword::Mod),
        b"new" => Some(Keyword::New),
        b"set" => Some(Keyword::Set),
        b"run" => Some(Keyword::Run),
        b"propagate" => Some(Keyword::Propagate),
        b"get" => Some(Keyword::Get),
        b"show" => Some(Keyword::Show),
        b"blocks" => Some(Keyword::Blocks),
        b"steps" => Some(Keyword::Steps),
        b"work" => Some(Keyword::Work),
        b"bound" => Some(Keyword::Bound),
        _ => None,
    }
}
