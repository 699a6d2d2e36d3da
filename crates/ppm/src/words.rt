// The words of a strip's file.
ghost use Rattle.std.specs.Prelude.{◌≤◌, ◌/◌, ◌≡◌, length};
ghost use Rattle.refusal.specs.Output.{onto, after};
ghost use Rattle.ppm.specs.Words.{little_endian, check_bytes};
ghost use Rattle.refusal.specs.Verdicts.{report_of};

use refusal::{Fault, Refusal};

// The words of the bytes, into the front of the output.
fn fill_words(bytes: &[u8], output: &mut [u32])
    requires { length bytes.now / 4 ≤ length output.old }
    ensures { output.new ≡ onto (little_endian bytes.now) output.old }
{
    let (chunks, _) = bytes.as_chunks::<4>();
    for (i, chunk) in chunks.iter().enumerate() {
        output[i] = u32::from_le_bytes(*chunk);
    }
}

// The little-endian words of the bytes, into the front of the output; a refusal leaves the output as it was. By `return` and not by `require`:
// of that chain the proof did not close.
#[tactic(auto, using(crate::proofs::Endian::uneven, crate::proofs::Endian::too_many, crate::proofs::Endian::words_fit))]
pub fn store_words(bytes: &[u8], output: &mut [u32]) -> Result<(), Fault>
    ensures verdict { result ≡ check_bytes bytes.now (length output.old) }
    ensures outcome { report_of result ≡ report_of (check_bytes bytes.now (length output.old)) }
    ensures content { output.new ≡ after result (little_endian bytes.now) output.old }
{
    if bytes.len() % 4 != 0 {
        return Err(Refusal::WrongLength.at(0));
    }
    if bytes.len() / 4 > output.len() {
        return Err(Refusal::SmallOutput.at(0));
    }
    fill_words(bytes, output);
    Ok(())
}
