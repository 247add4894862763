// A table of differences as 128 bytes: row by row, two bytes an entry, high byte first.
ghost use Rattle.std.specs.Prelude.{◌≡◌, ◌+◌, ◌≤◌, length};
ghost use Rattle.std.proofs.lemmas.List.Edits.{sets};
ghost use Rattle.answers.specs.Tables.{table_length, entry_bytes, row_bytes, table_bytes};

use differences::Row;
use records::storing;

// How many bytes a table has, a row, and an entry.
pub const LENGTH: usize = 128;

const ROW: usize = 16;

const ENTRY: usize = 2;

fn put_entry(out: &mut [u8], at: usize, bits: u16)
    requires { at + 2 ≤ length out.old }
    ensures { out.new ≡ sets out.old at (entry_bytes bits) }
{
    storing::put_bytes(out, at, &bits.to_be_bytes());
}

fn put_row(out: &mut [u8], at: usize, row: Row)
    requires { at + 16 ≤ length out.old }
    ensures { out.new ≡ sets out.old at (row_bytes row) }
{
    for y in 0..8 {
        put_entry(out, at + ENTRY * y, row.to[y]);
    }
}

// The eight rows at the front of the buffer.
pub fn put_table(out: &mut [u8], rows: [Row; 8])
    requires { table_length ≤ length out.old }
    ensures { out.new ≡ sets out.old 0 (table_bytes rows) }
{
    for x in 0..8 {
        put_row(out, ROW * x, rows[x]);
    }
}
