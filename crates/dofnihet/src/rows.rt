// Rows of a strip.
ghost use Rattle.std.specs.Prelude.{◌≡◌};
ghost use Rattle.row.specs.Rows.{find_row};
ghost use Rattle.answers.specs.Answers.{row_answer};

use answers::rows::RowAnswer;
use row::find_row;

// Where row y of a strip stands.
#[unsafe(no_mangle)]
pub extern "C" fn dofnihet_row_of(strip: &[u32], y: u64) -> RowAnswer
    ensures { result ≡ row_answer (find_row strip.now y) }
{
    find_row(strip, y as usize).into()
}
