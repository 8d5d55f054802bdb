//! The table of the rows that evaluate or that change something, but for loops and branches.
ghost use Rattle.std.specs.Prelude.{◌≡◌, option_map};
ghost use Rattle.wl_state.specs.Kinds.{defining_row_of, other_row_of, row_by, row_of};

/// A row of the table.
#[derive(Clone, Copy)]
pub enum Kind {
    Set,
    SetDelayed,
    UpSet,
    UpSetDelayed,
    TagSet,
    TagSetDelayed,
    Unset,
    TagUnset,
    AddTo,
    SubtractFrom,
    TimesBy,
    DivideBy,
    AppendTo,
    PrependTo,
    PreIncrement,
    PreDecrement,
    Increment,
    Decrement,
    Clear,
    ClearAll,
    Attributes,
    SetAttributes,
    ClearAttributes,
    Protect,
    Unprotect,
    MatchQ,
    MemberQ,
    Count,
    Cases,
    DeleteCases,
    FreeQ,
    Replace,
    ReplaceAll,
    ReplaceRepeated,
    Module,
    With,
    Block,
    Throw,
    Catch,
    Abort,
    CheckAbort,
    Break,
    Continue,
    Print,
    Message,
    Off,
    On,
    MessageName,
    Quiet,
    Check,
    Out,
    In,
}

/// The row of this name, where it is one of definitions and entries.
fn defining(name: &str) -> Option<Kind>
    ensures { option_map row_by result ≡ defining_row_of name.now }
{
    match name {
        "Set" => Some(Kind::Set),
        "SetDelayed" => Some(Kind::SetDelayed),
        "UpSet" => Some(Kind::UpSet),
        "UpSetDelayed" => Some(Kind::UpSetDelayed),
        "TagSet" => Some(Kind::TagSet),
        "TagSetDelayed" => Some(Kind::TagSetDelayed),
        "Unset" => Some(Kind::Unset),
        "TagUnset" => Some(Kind::TagUnset),
        "AddTo" => Some(Kind::AddTo),
        "SubtractFrom" => Some(Kind::SubtractFrom),
        "TimesBy" => Some(Kind::TimesBy),
        "DivideBy" => Some(Kind::DivideBy),
        "AppendTo" => Some(Kind::AppendTo),
        "PrependTo" => Some(Kind::PrependTo),
        "PreIncrement" => Some(Kind::PreIncrement),
        "PreDecrement" => Some(Kind::PreDecrement),
        "Increment" => Some(Kind::Increment),
        "Decrement" => Some(Kind::Decrement),
        "Clear" => Some(Kind::Clear),
        "ClearAll" => Some(Kind::ClearAll),
        "Attributes" => Some(Kind::Attributes),
        "SetAttributes" => Some(Kind::SetAttributes),
        "ClearAttributes" => Some(Kind::ClearAttributes),
        "Protect" => Some(Kind::Protect),
        "Unprotect" => Some(Kind::Unprotect),
        _ => None,
    }
}

/// The row of this name, where it is one of matches, scopes, ends and messages.
pub fn other(name: &str) -> Option<Kind>
    ensures { option_map row_by result ≡ other_row_of name.now }
{
    match name {
        "MatchQ" => Some(Kind::MatchQ),
        "MemberQ" => Some(Kind::MemberQ),
        "Count" => Some(Kind::Count),
        "Cases" => Some(Kind::Cases),
        "DeleteCases" => Some(Kind::DeleteCases),
        "FreeQ" => Some(Kind::FreeQ),
        "Replace" => Some(Kind::Replace),
        "ReplaceAll" => Some(Kind::ReplaceAll),
        "ReplaceRepeated" => Some(Kind::ReplaceRepeated),
        "Module" => Some(Kind::Module),
        "With" => Some(Kind::With),
        "Block" => Some(Kind::Block),
        "Throw" => Some(Kind::Throw),
        "Catch" => Some(Kind::Catch),
        "Abort" => Some(Kind::Abort),
        "CheckAbort" => Some(Kind::CheckAbort),
        "Break" => Some(Kind::Break),
        "Continue" => Some(Kind::Continue),
        "Print" => Some(Kind::Print),
        "Message" => Some(Kind::Message),
        "Off" => Some(Kind::Off),
        "On" => Some(Kind::On),
        "MessageName" => Some(Kind::MessageName),
        "Quiet" => Some(Kind::Quiet),
        "Check" => Some(Kind::Check),
        "Out" => Some(Kind::Out),
        "In" => Some(Kind::In),
        _ => None,
    }
}

impl Kind {
    /// The row of this name.
    pub fn named(name: &str) -> Option<Kind>
        ensures { option_map row_by result ≡ row_of name.now }
    {
        if let Some(kind) = defining(name) {
            return Some(kind);
        }
        other(name)
    }
}
