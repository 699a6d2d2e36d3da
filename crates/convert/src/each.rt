// Sources with one element a channel: each decoded by itself.
ghost use Rattle.std.specs.Prelude.{◌≡◌, ℕ, ◌≤◌, length, map};
ghost use Rattle.number.specs.Channels.{Decoded, code_of, channel_in};
ghost use Rattle.word.specs.Placing.{placed, first_refusal};
ghost use Rattle.convert.specs.loops.Counts.{length_each};
ghost use Rattle.word.specs.loops.Walks.{writing};

use crate::format::Format;
use number::channel::{Channel, decoded_code};
use refusal::{Fault, Refusal};
use std::marker::PhantomData;
use word::body::{channel_word, verdict_at};

// What one element of a source becomes.
pub trait Decoder {
    type Element: Copy;

    // The number that an element is.
    ghost number: { Self.Element → ℕ };

    // What a number decodes to.
    ghost channel: { ℕ → Decoded };

    fn decode(element: Self::Element) -> Result<Channel, Refusal>
        ensures { result ≡ channel (number element) };

    // The 16-bit form of the channel; 0, black, for a refusal.
    fn code(element: Self::Element) -> u16
        ensures { result ≡ code_of (channel_in (channel (number element))) }
    {
        decoded_code(Self::decode(element))
    }
}

// The first element that is refused.
#[tactic(auto, using(word::proofs::Walks::checking_all))]
pub fn check_each<D: Decoder>(source: &[D::Element]) -> Result<(), Fault>
    ensures { result ≡ first_refusal (placed (λ k. D.channel) 0 0 (map D.number source.now)) }
{
    for (k, element) in source.iter().enumerate() {
        verdict_at(k, D::decode(*element))?;
    }
    Ok(())
}

// The words of the elements from number `from` on, up to `end`. By the index: the kind of a word comes from it.
pub fn store_each<D: Decoder>(source: &[D::Element], from: usize, end: usize, body: &mut [u32])
    requires { (from ≤ end) × (end ≤ length source.now) × (length source.now ≤ length body.old) }
    ensures { let xs = map D.number source.now in writing (λ k. D.channel) xs end body.new ≡ writing (λ k. D.channel) xs from body.old }
{
    for k in from..end {
        body[k] = channel_word(k, D::code(source[k]));
    }
}

// The format of a source that a decoder reads, element by element.
pub struct Each<D> {
    decoder: PhantomData<D>,
}

impl<D: Decoder> Format for Each<D> {
    type Element = D::Element;

    const PER_PIXEL: u8 = 3;

    ghost PER_PIXEL = { 3 };

    ghost decoded = { λ xs. placed (λ k. D.channel) 0 0 (map D.number xs) };

    ghost three_a_pixel = { length_each (λ k. D.channel) D.number };

    fn check(source: &[D::Element]) -> Result<(), Fault> {
        check_each::<D>(source)
    }

    fn store(source: &[D::Element], body: &mut [u32]) {
        store_each::<D>(source, 0, source.len(), body);
    }
}
