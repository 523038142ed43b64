// The names of models.
ghost use Rattle.std.specs.Prelude.{◌≡◌, ◌≤◌};
ghost use Rattle.std.specs.Result.{result_ok};
ghost use Rattle.modelfile.specs.Kinds.{kind_of, cells_of, fits};

use super::kind::Kind;
use knots::model::KnotLayout;
use models::layout::Layout;
use models::table::TableLayout;

// A word that names no kind.
#[derive(Clone, Copy, Debug, PartialEq, Eq)]
pub struct UnknownName;

impl TryFrom<&[u8]> for Kind {
    type Error = UnknownName;

    ghost try_from_gives = { λ word r. result_ok r ≡ kind_of word.now };

    fn try_from(word: &[u8]) -> Result<Kind, UnknownName> {
        match word {
            b"table" => Ok(Kind::Table),
            b"knot" => Ok(Kind::Knots),
            _ => Err(UnknownName),
        }
    }
}

// How many rates a set has.
pub fn cells(kind: Kind) -> u32
    ensures value { result ≡ cells_of kind }
    ensures bound { result ≤ 484 }
{
    match kind {
        Kind::Table => TableLayout::CELLS,
        Kind::Knots => KnotLayout::CELLS,
    }
}

// Whether a word may stand after the numbers of a model: a name, or none at the end of the text.
pub fn may_follow(word: &[u8]) -> bool
    ensures { result ≡ fits word.now }
{
    word.is_empty() || Kind::try_from(word).is_ok()
}
