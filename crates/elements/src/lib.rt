// Elements read from the tables of the crate code_rows: one, and a run of them that starts and ends anywhere. Each function fetches its table once and lends a row of it.
// Public for the crates midambles, blocks, signal_card and correlation, whose calls have tested the cell and the chip before.
#![tactic(auto)]

mod filling;
mod reading;

ghost use Rattle.std.specs.Prelude.{◌≡◌, ◌++◌, [], ℕ, ◌<◌, ◌≤◌, ◌+◌, get_or, drop, length};
ghost use Rattle.laws.specs.Runs.{run};
ghost use Rattle.elements.specs.Elements.{rows_of, element};
ghost use Rattle.codes.specs.Codes.{code_of};

// Element chip + by of a cell's row. Public for the crate midambles.
pub fn chip_at(cell: u32, burst: u32, chip: u32, by: u32) -> u8
    requires { (cell < 128) × (1 ≤ chip) × (chip ≤ 512) × (by < 2048) }
    ensures { result ≡ element (code_of burst).period (get_or (rows_of burst) cell []) (chip + by) }
{
    if burst == 2 {
        let t = code_rows::short_table();
        return reading::row_of(&t, 24, cell).element_in(chip, by);
    }
    let t = code_rows::long_table();
    reading::row_of(&t, 57, cell).element_in(chip, by)
}

// As many elements of a cell's short row as `count`, the first of them element by + 1, into the first places of `out`. Apart from the long ones, so that a call has one of the tables on
// its stack and not both.
fn fill_short(cell: u32, by: u32, count: usize, out: &mut [u8])
    requires { (cell < 128) × (count ≤ length out.old) }
    ensures { out.new ≡ run (λ (i : ℕ). element (code_of 2).period (get_or (rows_of 2) cell []) (i + by)) count ++ drop count out.old }
{
    let t = code_rows::short_table();
    filling::fill_from(reading::row_of(&t, 24, cell), by, count, out);
}

// The same of a cell's long row.
fn fill_long(cell: u32, by: u32, count: usize, out: &mut [u8])
    requires { (cell < 128) × (count ≤ length out.old) }
    ensures { out.new ≡ run (λ (i : ℕ). element (code_of 1).period (get_or (rows_of 1) cell []) (i + by)) count ++ drop count out.old }
{
    let t = code_rows::long_table();
    filling::fill_from(reading::row_of(&t, 57, cell), by, count, out);
}

// The same of the row that serves a burst type. Public for the crates blocks and correlation.
pub fn fill_elements(cell: u32, burst: u32, by: u32, count: usize, out: &mut [u8])
    requires { (cell < 128) × (by < 2048) × (count ≤ 512) × (count ≤ length out.old) }
    ensures { out.new ≡ run (λ (i : ℕ). element (code_of burst).period (get_or (rows_of burst) cell []) (i + by)) count ++ drop count out.old }
{
    if burst == 2 {
        fill_short(cell, by, count, out);
        return;
    }
    fill_long(cell, by, count, out);
}

// A whole midamble of a cell's row, shifted: as many elements as a midamble of its code has chips. Public for the crates midambles and signal_card.
pub fn fill_chips(cell: u32, burst: u32, by: u32, out: &mut [u8])
    requires { (cell < 128) × (by < 2048) × ((code_of burst).length ≤ length out.old) }
    ensures { out.new ≡ run (λ (i : ℕ). element (code_of burst).period (get_or (rows_of burst) cell []) (i + by)) (code_of burst).length ++ drop (code_of burst).length out.old }
{
    let length = codes::code_of(burst).length;
    fill_elements(cell, burst, by, length as usize, out);
}
