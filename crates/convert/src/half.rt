// A picture of half floats into a strip.
ghost use Rattle.std.specs.Prelude.{◌≡◌, length};
ghost use Rattle.number.specs.Sources.{channel_of_value, half_value};
ghost use Rattle.refusal.specs.Output.{after};
ghost use Rattle.refusal.specs.Verdicts.{report_of};
ghost use Rattle.convert.specs.Formats.{half, decoded_source};
ghost use Rattle.convert.specs.Converting.{check_source, converted};
ghost use Rattle.convert.specs.loops.Counts.{length_elements};

use crate::each::{Decoder, check_each, store_each};
use crate::format::{Format, convert};
use crate::half_blocks::{all_finite, store_block};
use number::channel::Channel;
use number::source::{half_code, half_to_channel};
use refusal::{Fault, Refusal};
use word::header::Header;
use word::kinds::{BLOCK_WORDS, block_kinds};

pub(crate) struct Half;

impl Decoder for Half {
    type Element = u16;

    ghost number = { λ bits. bits };

    ghost channel = { λ bits. channel_of_value (half_value bits) };

    fn decode(bits: u16) -> Result<Channel, Refusal> {
        half_to_channel(bits)
    }

    fn code(bits: u16) -> u16 {
        half_code(bits)
    }
}

impl Format for Half {
    type Element = u16;

    const PER_PIXEL: u8 = 3;

    ghost PER_PIXEL = { 3 };

    ghost decoded = { decoded_source half };

    ghost three_a_pixel = { length_elements half };

    fn check(source: &[u16]) -> Result<(), Fault> {
        if all_finite(source) {
            return Ok(());
        }
        check_each::<Half>(source)
    }

    // Whole blocks, then the rest.
    #[tactic(auto, using(word::proofs::Walks::length_placed))]
    fn store(source: &[u16], body: &mut [u32]) {
        let kinds = block_kinds();
        let blocks = source.len() / BLOCK_WORDS;
        for block in 0..blocks {
            store_block(&kinds, source, block * BLOCK_WORDS, body);
        }
        store_each::<Half>(source, blocks * BLOCK_WORDS, source.len(), body);
    }
}

// A picture of half floats, 16 bits each, into the strip of a page; a refusal leaves the output as it was.
#[tactic(auto, unfolding(crate::specs::Converting::check_source))]
pub fn convert_half(source: &[u16], header: Header, output: &mut [u32]) -> Result<(), Fault>
    ensures verdict { result ≡ check_source half header source.now (length output.old) }
    ensures outcome { report_of result ≡ report_of (check_source half header source.now (length output.old)) }
    ensures content { output.new ≡ after result (converted half header source.now) output.old }
{
    convert::<Half>(source, header, output)
}
