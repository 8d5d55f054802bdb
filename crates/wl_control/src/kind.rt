//! The table of the rows.
ghost use Rattle.std.specs.Prelude.{◌≡◌, option_map};
ghost use Rattle.wl_control.specs.Table.{row_of};
ghost use Rattle.wl_control.specs.Kinds.{row_by};

/// A row of the table.
#[derive(Clone, Copy)]
pub enum Kind {
    If,
    Which,
    Switch,
    And,
    Or,
    CompoundExpression,
    While,
    For,
    Do,
    Table,
    Select,
    Scan,
    Fold,
    FoldList,
    Nest,
    NestList,
    FixedPoint,
}

/// The row of this name.
pub(crate) fn kind_of(name: &str) -> Option<Kind>
    ensures { option_map row_by result ≡ row_of name.now }
{
    match name {
        "If" => Some(Kind::If),
        "Which" => Some(Kind::Which),
        "Switch" => Some(Kind::Switch),
        "And" => Some(Kind::And),
        "Or" => Some(Kind::Or),
        "CompoundExpression" => Some(Kind::CompoundExpression),
        "While" => Some(Kind::While),
        "For" => Some(Kind::For),
        "Do" => Some(Kind::Do),
        "Table" => Some(Kind::Table),
        "Select" => Some(Kind::Select),
        "Scan" => Some(Kind::Scan),
        "Fold" => Some(Kind::Fold),
        "FoldList" => Some(Kind::FoldList),
        "Nest" => Some(Kind::Nest),
        "NestList" => Some(Kind::NestList),
        "FixedPoint" => Some(Kind::FixedPoint),
        _ => None,
    }
}
