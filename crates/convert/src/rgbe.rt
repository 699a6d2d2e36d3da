// A picture of RGBE pixels into a strip.
ghost use Rattle.std.specs.Prelude.{◌≡◌, ◌+◌, ◌^◌, ◌<◌, length, slice_set};
ghost use Rattle.word.specs.Placing.{first_refusal};
ghost use Rattle.refusal.specs.Output.{after};
ghost use Rattle.refusal.specs.Verdicts.{report_of};
ghost use Rattle.convert.specs.Formats.{rgbe, decoded_source};
ghost use Rattle.convert.specs.loops.Stores.{pixel_of, pixel_word};
ghost use Rattle.convert.specs.Converting.{check_source, converted};
ghost use Rattle.convert.specs.loops.Counts.{length_elements};

use crate::format::{Format, convert};
use frame::decoded_word;
use number::source::rgbe_to_channel;
use refusal::Fault;
use word::body::verdict_at;
use word::header::Header;

struct Rgbe;

// The first channel of a pixel that is too bright; its bytes begin at the index i.
#[tactic(auto, unfolding(refusal::specs::Verdicts::and_then))]
fn check_pixel(i: usize, pixel: &[u8; 4]) -> Result<(), Fault>
    requires { i + 2 < 2 ^ 64 }
    ensures { result ≡ first_refusal (pixel_of i pixel.now) }
{
    let [red, green, blue, exponent] = *pixel;
    verdict_at(i, rgbe_to_channel(red, exponent))?;
    verdict_at(i + 1, rgbe_to_channel(green, exponent))?;
    verdict_at(i + 2, rgbe_to_channel(blue, exponent))
}

// The words of a pixel whose red channel is channel k.
fn store_pixel(k: usize, pixel: &[u8; 4], body: &mut [u32])
    requires { k + 2 < length body.old }
    ensures { body.new ≡ slice_set (slice_set (slice_set body.old k (pixel_word k 0 pixel.now)) (k + 1) (pixel_word (k + 1) 1 pixel.now)) (k + 2) (pixel_word (k + 2) 2 pixel.now) }
{
    let [red, green, blue, exponent] = *pixel;
    body[k] = decoded_word(k, rgbe_to_channel(red, exponent));
    body[k + 1] = decoded_word(k + 1, rgbe_to_channel(green, exponent));
    body[k + 2] = decoded_word(k + 2, rgbe_to_channel(blue, exponent));
}

impl Format for Rgbe {
    type Element = u8;

    const PER_PIXEL: u8 = 4;

    ghost PER_PIXEL = { 4 };

    ghost decoded = { decoded_source rgbe };

    ghost three_a_pixel = { length_elements rgbe };

    #[tactic(auto, using(crate::proofs::Pixels::left_all, crate::proofs::Pixels::pixels_done))]
    fn check(source: &[u8]) -> Result<(), Fault> {
        let (pixels, _) = source.as_chunks::<4>();
        for (p, pixel) in pixels.iter().enumerate() {
            check_pixel(4 * p, pixel)?;
        }
        Ok(())
    }

    #[tactic(auto, using(crate::specs::loops::Counts::length_pixels, crate::proofs::Pixels::writing_all))]
    fn store(source: &[u8], body: &mut [u32]) {
        let (pixels, _) = source.as_chunks::<4>();
        for (p, pixel) in pixels.iter().enumerate() {
            store_pixel(3 * p, pixel, body);
        }
    }
}

// A picture of RGBE pixels, four bytes each, into the strip of a page; a refusal leaves the output as it was.
#[tactic(auto, unfolding(crate::specs::Converting::check_source))]
pub fn convert_rgbe(source: &[u8], header: Header, output: &mut [u32]) -> Result<(), Fault>
    ensures verdict { result ≡ check_source rgbe header source.now (length output.old) }
    ensures outcome { report_of result ≡ report_of (check_source rgbe header source.now (length output.old)) }
    ensures content { output.new ≡ after result (converted rgbe header source.now) output.old }
{
    convert::<Rgbe>(source, header, output)
}
