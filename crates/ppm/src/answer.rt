// The answer of the picture program.
ghost use Rattle.std.specs.Prelude.{◌≤◌, ◌≡◌, ◌++◌, length, take};
ghost use Rattle.io.specs.Counts.{IsPrefixLen};
ghost use Rattle.refusal.specs.Refusals.{outcome_of};
ghost use Rattle.refusal.specs.Output.{onto, after};
ghost use Rattle.ppm.specs.Words.{little_endian, check_bytes};
ghost use Rattle.ppm.specs.Answers.{printed_refusal, printed_of, printed_for, bytes_of, counts_of};

use crate::put::put;
use crate::text::{front, refused};
use crate::words::store_words;
use page::map::map;
use refusal::{Fault, Outcome};
use word::header::{height_in, pixel_count, width_in};

// An answer in two lent outputs, a text and the samples behind it: how many bytes of each are its. Memory is fixed: the
// caller lends the two, and has them back; slices of them would keep both lent.
#[derive(Clone, Copy)]
pub struct Answer {
    pub text: usize,
    pub samples: usize,
}

// The answer to a refusal, its line alone.
fn refusal_line(fault: Fault, text: &mut [u8; 50]) -> Answer
    ensures counts { result ≡ counts_of (printed_refusal (outcome_of fault.refusal fault.index)) }
    ensures text { text.new ≡ onto (printed_refusal (outcome_of fault.refusal fault.index)).text text.old }
{
    let told = Outcome::from(fault);
    Answer {
        text: refused(told.number, told.place as u64, text),
        samples: 0,
    }
}

// The answer to a strip.
fn picture(strip: &[u32], text: &mut [u8; 50], samples: &mut [u8; 16380]) -> Answer
    requires { length strip.now ≤ 16384 }
    ensures counts { result ≡ counts_of (printed_of strip.now) }
    ensures text { text.new ≡ onto (printed_of strip.now).text text.old }
    ensures samples { samples.new ≡ onto (printed_of strip.now).samples samples.old }
{
    if let Err(fault) = map(strip, samples) {
        return refusal_line(fault, text);
    }
    let width = width_in(strip[0]) as u64;
    let height = height_in(strip[0]) as u64;
    let count = 3 * pixel_count(strip[0]);
    Answer {
        text: front(width, height, text),
        samples: count,
    }
}

// The answer to the bytes of the input, of which at most 65,537 matter. The strip is laid into the front of the words. `bytes` says of the
// clauses before it what a caller prints, text and then samples; `lent` is what lending these two fronts asks.
pub fn answer_to(
    input: &[u8],
    words: &mut [u32; 16384],
    text: &mut [u8; 50],
    samples: &mut [u8; 16380],
) -> Answer
    ensures words { words.new ≡ after (check_bytes input.now 16384) (little_endian input.now) words.old }
    ensures counts { result ≡ counts_of (printed_for input.now) }
    ensures text { text.new ≡ onto (printed_for input.now).text text.old }
    ensures samples { samples.new ≡ onto (printed_for input.now).samples samples.old }
    ensures bytes { take result.text text.new ++ take result.samples samples.new ≡ bytes_of (printed_for input.now) }
    ensures lent { IsPrefixLen result.text text.new × IsPrefixLen result.samples samples.new }
{
    if input.len() > 65536 {
        return Answer {
            text: put(b"long\n", 0, text),
            samples: 0,
        };
    }
    if let Err(fault) = store_words(input, words) {
        return refusal_line(fault, text);
    }
    let count = input.len() / 4;
    picture(&words[..count], text, samples)
}
