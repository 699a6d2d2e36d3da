// A row of stored channels into a strip.
ghost use Rattle.std.specs.Prelude.{◌≡◌, length};
ghost use Rattle.number.specs.Channels.{channel_of_code};
ghost use Rattle.refusal.specs.Output.{after};
ghost use Rattle.refusal.specs.Verdicts.{report_of};
ghost use Rattle.convert.specs.Formats.{stored};
ghost use Rattle.convert.specs.Converting.{check_source, converted};

use crate::each::{Decoder, Each};
use crate::format::convert;
use number::channel::{Channel, code_to_channel};
use refusal::{Fault, Refusal};
use word::header::Header;

struct Stored;

impl Decoder for Stored {
    type Element = u16;

    ghost number = { λ code. code };

    ghost channel = { λ code. channel_of_code code };

    fn decode(code: u16) -> Result<Channel, Refusal> {
        code_to_channel(code)
    }
}

// A row of stored channels, 16 bits each, into the strip of a page; a refusal leaves the output as it was.
#[tactic(auto, unfolding(crate::specs::Converting::check_source))]
pub fn convert_stored(source: &[u16], header: Header, output: &mut [u32]) -> Result<(), Fault>
    ensures verdict { result ≡ check_source stored header source.now (length output.old) }
    ensures outcome { report_of result ≡ report_of (check_source stored header source.now (length output.old)) }
    ensures content { output.new ≡ after result (converted stored header source.now) output.old }
{
    convert::<Each<Stored>>(source, header, output)
}
