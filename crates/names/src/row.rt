// The rows by name: the first six bytes of a text tell its row.
ghost use Rattle.std.specs.Prelude.{◌≡◌, ◌<◌};
ghost use Rattle.std.specs.List.{position};
ghost use Rattle.parts.specs.Found.{found};
ghost use Rattle.parts.specs.Part.{same_bytes};
ghost use Rattle.rows.specs.Table.{line_name, table, rows};
ghost use Rattle.names.specs.Text.{row_named, Key};

use rows::NAME;

// The first six bytes of a text of a row.
pub fn key_of(row: usize) -> [u8; NAME]
    requires { row < rows }
    ensures { Key row result }
{
    let entry = rows::row_at(row);
    entry.0
}

// The place of the line of the table that has this name.
fn place_of(name: &[u8]) -> Option<usize>
    ensures { result ≡ position (λ line. same_bytes (line_name line) name.now) table }
{
    rows::table()
        .iter()
        .position(|line| parts::same_bytes(&line.0, name))
}

// The row that a text's first six bytes name; none where they name none.
pub fn row_named(text: &[u8]) -> Option<usize>
    ensures { result ≡ found rows (row_named text.now) }
{
    place_of(&text[..NAME.min(text.len())])
}
