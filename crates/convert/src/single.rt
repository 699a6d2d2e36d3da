// A picture of single floats into a strip.
ghost use Rattle.std.specs.Prelude.{◌≡◌, length};
ghost use Rattle.number.specs.Sources.{channel_of_value, single_value};
ghost use Rattle.refusal.specs.Output.{after};
ghost use Rattle.refusal.specs.Verdicts.{report_of};
ghost use Rattle.convert.specs.Formats.{single};
ghost use Rattle.convert.specs.Converting.{check_source, converted};

use crate::each::{Decoder, Each};
use crate::format::convert;
use number::channel::Channel;
use number::source::single_to_channel;
use refusal::{Fault, Refusal};
use word::header::Header;

struct Single;

impl Decoder for Single {
    type Element = u32;

    ghost number = { λ bits. bits };

    ghost channel = { λ bits. channel_of_value (single_value bits) };

    fn decode(bits: u32) -> Result<Channel, Refusal> {
        single_to_channel(bits)
    }
}

// A picture of single floats, 32 bits each, into the strip of a page; a refusal leaves the output as it was.
#[tactic(auto, unfolding(crate::specs::Converting::check_source))]
pub fn convert_single(source: &[u32], header: Header, output: &mut [u32]) -> Result<(), Fault>
    ensures verdict { result ≡ check_source single header source.now (length output.old) }
    ensures outcome { report_of result ≡ report_of (check_source single header source.now (length output.old)) }
    ensures content { output.new ≡ after result (converted single header source.now) output.old }
{
    convert::<Each<Single>>(source, header, output)
}
