// What every conversion is made of: the format of a source, and the conversion of a source in any format.
ghost use Rattle.std.specs.Prelude.{◌≡◌, ℕ, ◌*◌, List, length};
ghost use Rattle.word.specs.Words.{body_words, strip_of};
ghost use Rattle.word.specs.Placing.{Placed, first_refusal, channels_of};
ghost use Rattle.refusal.specs.Output.{after};
ghost use Rattle.refusal.specs.Verdicts.{and_then};
ghost use Rattle.frame.specs.Frames.{check_frame};

use frame::{body_end, check_frame, store_frame};
use refusal::Fault;
use word::body::body_start;
use word::header::Header;

// How a source is laid out, checked and stored.
pub trait Format {
    type Element;

    // The elements of a pixel.
    const PER_PIXEL: u8;

    ghost PER_PIXEL: { ℕ };

    // What a source decodes to, its channels in order.
    ghost decoded: { List Self.Element → List Placed };

    // The first channel that is refused.
    fn check(source: &[Self::Element]) -> Result<(), Fault>
        ensures { result ≡ first_refusal (decoded source.now) };

    // The channel words.
    fn store(source: &[Self::Element], body: &mut [u32])
        requires { length body.old ≡ length (decoded source.now) }
        ensures { body.new ≡ body_words 0 (channels_of (decoded source.now)) };

    // A pixel has three channels.
    ghost three_a_pixel: { (n : ℕ) (xs : List Self.Element) → length xs ≡ PER_PIXEL * n → length (decoded xs) ≡ 3 * n };
}

// A source into the strip of a page; a refusal leaves the output as it was.
#[tactic(auto, using(crate::proofs::Pages::checked), unfolding(refusal::specs::Verdicts::and_then))]
pub fn convert<F: Format>(
    source: &[F::Element],
    header: Header,
    output: &mut [u32],
) -> Result<(), Fault>
    ensures verdict { result ≡ and_then (check_frame header F.PER_PIXEL (length source.now) (length output.old)) (first_refusal (F.decoded source.now)) }
    ensures content { output.new ≡ after result (strip_of header (channels_of (F.decoded source.now))) output.old }
{
    check_frame(header, F::PER_PIXEL, source.len(), output.len())?;
    F::check(source)?;
    let start = body_start(header);
    let end = body_end(header);
    F::store(source, &mut output[start..end]);
    store_frame(header, output);
    Ok(())
}
