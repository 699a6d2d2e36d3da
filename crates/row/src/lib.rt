// One row of a strip: where it stands, and the row handed back as that part of the strip.
#![tactic(auto)]

ghost use Rattle.std.specs.Prelude.{◌≡◌};
ghost use Rattle.row.specs.Rows.{find_row, row_of, words_of, pointer_to, row_told};

use refusal::Fault;
use strip::check::check_row;
use strip::read::{body_start, header_fields};

// A part of a strip: `count` words from the index `start` on. No `Range`: C is told a start and a length.
#[derive(Clone, Copy)]
pub struct Part {
    pub start: usize,
    pub count: usize,
}

// Where row y of an accepted strip stands, from the red word of its first pixel to the blue word of its last.
#[tactic(auto, using(crate::proofs::Rows::row_short))]
pub fn find_row(strip: &[u32], y: usize) -> Result<Part, Fault>
    ensures answer { result ≡ find_row strip.now y }
    ensures told { row_told result ≡ row_told (find_row strip.now y) }
{
    check_row(strip, y)?;
    let width = header_fields(strip).width as usize;
    Ok(Part {
        start: body_start(strip) + 3 * (width * y),
        count: 3 * width,
    })
}

// The words of row y; the empty part where `check_row` refuses.
#[tactic(auto, using(crate::proofs::Rows::found_inside))]
pub fn row(strip: &[u32], y: usize) -> &[u32]
    ensures words { result.now ≡ words_of (row_of strip.now y) strip.now }
    ensures place { result.ref_ptr ≡ pointer_to (row_of strip.now y) strip.entry.ref_ptr }
{
    let Ok(part) = find_row(strip, y) else {
        return &strip[..0];
    };
    let start = part.start;
    let end = start + part.count;
    &strip[start..end]
}
