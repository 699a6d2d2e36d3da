// A page mapped to levels.
ghost use Rattle.std.specs.Prelude.{◌≡◌, ◌<◌, length};
ghost use Rattle.refusal.specs.Output.{after};
ghost use Rattle.refusal.specs.Verdicts.{report_of};
ghost use Rattle.average.specs.loops.Sums.{IsTally};
ghost use Rattle.page.specs.Checks.{check_map};
ghost use Rattle.page.specs.Mapping.{tone_under, strip_levels};
ghost use Rattle.page.specs.Claims.{MapPromise};

use average::average::lit_average;
use average::tally::Tally;
use body::levels::map_levels;
use body::tally::tally_keeping;
use light::{check_light, enough_for, lit_up_to};
use refusal::Fault;
use strip::check::check_output;
use strip::read::{body, header_fields};
use tone::tone::Tone;
use word::header::Header;

// What a page is mapped under: its key, the average of a tally with a lit pixel, and its white point.
#[tactic(auto, using(crate::proofs::Handed::has_average))]
pub fn tone_of(header: Header, tally: Tally) -> Tone
    requires { (0 < tally.count) × IsTally tally }
    ensures { result ≡ tone_under header tally }
{
    Tone {
        key: header.key,
        average: lit_average(tally.count, tally.sum),
        white: header.white,
    }
}

// A page that is to be mapped into an output of so many bytes. Lit pixels are counted until they are enough.
fn check_map(strip: &[u32], room: usize) -> Result<(), Fault>
    ensures { result ≡ check_map strip.now room }
{
    check_output(strip, room)?;
    let words = body(strip);
    let pixels = (words.len() / 3) as u64;
    check_light(lit_up_to(words, enough_for(pixels)), pixels)
}

// Three level bytes a pixel, into the front of the output; a refusal leaves the output as it was.
pub fn map(strip: &[u32], output: &mut [u8]) -> Result<(), Fault>
    ensures verdict { result ≡ check_map strip.now (length output.old) }
    ensures outcome { report_of result ≡ report_of (check_map strip.now (length output.old)) }
    ensures content { output.new ≡ after result (strip_levels strip.now) output.old }
    ensures bound { MapPromise strip.now result output.new }
{
    check_map(strip, output.len())?;
    let tally = tally_keeping(body(strip), output);
    map_levels(body(strip), tone_of(header_fields(strip), tally), output);
    Ok(())
}
