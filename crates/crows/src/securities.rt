// The securities of callers in C, and back.
ghost use Rattle.std.specs.Prelude.{◌≡◌, map};
ghost use Rattle.std.specs.List.{list_all};
ghost use Rattle.crows.specs.Rows.{security_of, security_fits, security_numbers};

use super::row::CSecurity;
use tables::row::SecurityRow;

fn security_of(row: &CSecurity) -> SecurityRow
    ensures { result ≡ security_of row.now }
{
    SecurityRow {
        price: row.price,
        haircut: row.haircut,
        listed: row.listed == 1,
    }
}

fn security_numbers(row: &SecurityRow) -> CSecurity
    ensures { result ≡ security_numbers row.now }
{
    CSecurity {
        price: row.price,
        haircut: row.haircut,
        listed: u8::from(row.listed),
    }
}

fn security_fits(row: &CSecurity) -> bool
    ensures { result ≡ security_fits row.now }
{
    row.listed <= 1
}

pub(crate) fn securities_fit(rows: &[CSecurity]) -> bool
    ensures { result ≡ list_all security_fits rows.now }
{
    rows.iter().all(security_fits)
}

// The securities that these stand for.
pub(crate) fn securities_of(rows: [CSecurity; 32]) -> [SecurityRow; 32]
    ensures { result ≡ map security_of rows }
{
    rows.map(|row| security_of(&row))
}

// And back.
pub(crate) fn securities_numbers(rows: [SecurityRow; 32]) -> [CSecurity; 32]
    ensures { result ≡ map security_numbers rows }
{
    rows.map(|row| security_numbers(&row))
}
