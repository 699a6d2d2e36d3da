// Where things stand in any row of words, and what an accepted strip holds: its header, and its channels as 16-bit numbers.
ghost use Rattle.std.specs.Prelude.{◌≡◌, map, ◌≤◌, min, length};
ghost use Rattle.word.specs.Fields.{low16};
ghost use Rattle.word.specs.Words.{pixels, body_start, end_index};
ghost use Rattle.strip.specs.Checks.{word_at, header_fields, declared_length, body_part, check_output};
ghost use Rattle.strip.specs.Reading.{read_header, strip_codes, header_told};
ghost use Rattle.refusal.specs.Output.{onto, after};
ghost use Rattle.refusal.specs.Verdicts.{report_of};

use crate::check::{check, check_output};
use refusal::Fault;
use word::header::{Header, height_in, low_half, pixel_count, white_in, width_in};

// The word at an index of a row; 0 where there is none.
pub(crate) fn word_at(row: &[u32], i: usize) -> u32
    ensures { result ≡ word_at row.now i }
{
    row.get(i).copied().unwrap_or(0)
}

// The pixels that the strip at the front of a row declares.
pub(crate) fn declared_pixels(row: &[u32]) -> usize
    ensures { result ≡ pixels (header_fields row.now) }
{
    pixel_count(word_at(row, 0))
}

// The index of its first channel word.
pub fn body_start(row: &[u32]) -> usize
    ensures { result ≡ body_start (header_fields row.now) }
{
    word::body::body_start(header_fields(row))
}

// The index of its end word.
pub(crate) fn end_index(row: &[u32]) -> usize
    ensures { result ≡ end_index (header_fields row.now) }
{
    body_start(row) + 3 * declared_pixels(row)
}

// How many words it declares.
pub fn declared_length(row: &[u32]) -> usize
    ensures { result ≡ declared_length row.now }
{
    end_index(row) + 1
}

// Its channel words; a row that is cut short has those that are there.
pub fn body(row: &[u32]) -> &[u32]
    ensures { result.now ≡ body_part row.now }
{
    let start = body_start(row).min(row.len());
    let end = end_index(row).min(row.len());
    &row[start..end]
}

// The header that its first words declare.
pub fn header_fields(row: &[u32]) -> Header
    ensures { result ≡ header_fields row.now }
{
    Header {
        width: width_in(word_at(row, 0)) as u64,
        height: height_in(word_at(row, 0)) as u64,
        key: low_half(word_at(row, 1)) as u64,
        white: white_in(word_at(row, 2)),
    }
}

// The header of a strip, or its refusal.
pub fn header(strip: &[u32]) -> Result<Header, Fault>
    ensures answer { result ≡ read_header strip.now }
    ensures told { header_told result ≡ header_told (read_header strip.now) }
{
    check(strip)?;
    Ok(header_fields(strip))
}

// The lower halves of the words, into the front of the output.
fn store_codes(words: &[u32], output: &mut [u16])
    requires { length words.now ≤ length output.old }
    ensures { output.new ≡ onto (map low16 words.now) output.old }
{
    for (i, &word) in words.iter().enumerate() {
        output[i] = low_half(word);
    }
}

// The channels of an accepted strip as 16-bit numbers, into the front of the output; a refusal leaves the output as it was.
#[tactic(auto, using(crate::proofs::Bodies::body_fits, crate::proofs::Bodies::codes_of_body))]
pub fn unpack(strip: &[u32], output: &mut [u16]) -> Result<(), Fault>
    ensures verdict { result ≡ check_output strip.now (length output.old) }
    ensures outcome { report_of result ≡ report_of (check_output strip.now (length output.old)) }
    ensures content { output.new ≡ after result (strip_codes strip.now) output.old }
{
    check_output(strip, output.len())?;
    store_codes(body(strip), output);
    Ok(())
}
