// The words for what a fault speaks of.
ghost use Rattle.std.specs.Prelude.{◌≡◌};
ghost use Rattle.lt_text_lines.specs.Words.{syntax_kind_text, name_kind_text, found_text};
ghost use Rattle.lt_base.specs.TypeText.{ty_text};

use lt_base::Ty;
use lt_resolve::NameKind;
use lt_syntax::SyntaxKind;

/// The number and the name of a kind of syntax faults.
pub(crate) fn syntax_kind(kind: SyntaxKind) -> &'static str
    ensures { result.now ≡ syntax_kind_text kind }
{
    match kind {
        SyntaxKind::BadByte => "1 BadByte",
        SyntaxKind::BadNumber => "2 BadNumber",
        SyntaxKind::Unexpected => "3 Unexpected",
        SyntaxKind::TooDeep => "4 TooDeep",
    }
}

/// The number and the name of a kind of faults of names.
pub(crate) fn name_kind(kind: NameKind) -> &'static str
    ensures { result.now ≡ name_kind_text kind }
{
    match kind {
        NameKind::Twice => "1 Twice",
        NameKind::Unknown => "2 Unknown",
        NameKind::NoEquation => "3 NoEquation",
        NameKind::TwoEquations => "4 TwoEquations",
        NameKind::EquationForInput => "5 EquationForInput",
        NameKind::NoMain => "6 NoMain",
        NameKind::WrongCount => "7 WrongCount",
        NameKind::NotOneOutput => "8 NotOneOutput",
        NameKind::Recursive => "9 Recursive",
        NameKind::Limit => "10 Limit",
    }
}

/// A type.
pub(crate) fn ty(ty: Ty) -> &'static str
    ensures { result.now ≡ ty_text ty }
{
    match ty {
        Ty::Int => "int",
        Ty::Bool => "bool",
    }
}

/// A type that was found, or none.
pub(crate) fn found_type(got: Option<Ty>) -> &'static str
    ensures { result.now ≡ found_text got }
{
    match got {
        Some(Ty::Int) => "int",
        Some(Ty::Bool) => "bool",
        None => "no type",
    }
}
