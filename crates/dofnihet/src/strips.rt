// Strips checked and read back.
ghost use Rattle.std.specs.Prelude.{◌≡◌, length};
ghost use Rattle.refusal.specs.Verdicts.{report_of};
ghost use Rattle.strip.specs.Checks.{check_strip, check_output};
ghost use Rattle.strip.specs.Reading.{read_header, strip_codes};
ghost use Rattle.answers.specs.Answers.{header_answer, Reports};

use answers::headers::HeaderAnswer;
use refusal::{Outcome, report};
use strip::check::check;
use strip::read::{header, unpack};

// Every check of a strip.
#[unsafe(no_mangle)]
pub extern "C" fn dofnihet_check(strip: &[u32]) -> Outcome
    ensures { result ≡ report_of (check_strip strip.now) }
{
    report(check(strip))
}

// The channels of a strip as 16-bit numbers; a refusal leaves the output as it was.
#[unsafe(no_mangle)]
pub extern "C" fn dofnihet_unpack(strip: &[u32], output: &mut [u16]) -> Outcome
    ensures { Reports (check_output strip.now (length output.old)) (strip_codes strip.now) output.old result output.new }
{
    report(unpack(strip, output))
}

// Width, height, key and white point of a strip.
#[unsafe(no_mangle)]
pub extern "C" fn dofnihet_header_of(strip: &[u32]) -> HeaderAnswer
    ensures { result ≡ header_answer (read_header strip.now) }
{
    header(strip).into()
}
