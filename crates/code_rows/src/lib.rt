// The basic codes (document 01, "Training sequences"), as two tables of bytes. Each table is named by exactly one function, which hands it out whole:
// who reads a row fetches the table once a call and lends it on.
#![tactic(auto)]

mod long;
mod short;

ghost use Rattle.std.specs.Prelude.{◌≡◌};
ghost use Rattle.code_text.specs.Rows.{table, long_rows, short_rows};

// The long rows, for burst types 1 and 3: row n is bytes 57n to 57n + 56.
pub fn long_table() -> [u8; 7296]
    ensures { result ≡ table 57 long_rows }
{
    long::LONG
}

// The short rows, for burst type 2: row n is bytes 24n to 24n + 23.
pub fn short_table() -> [u8; 3072]
    ensures { result ≡ table 24 short_rows }
{
    short::SHORT
}
