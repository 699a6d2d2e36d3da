// Source pictures converted into strips, a call for each format, since C has no generics. A refusal leaves the output as it was.
ghost use Rattle.std.specs.Prelude.{◌≡◌, length};
ghost use Rattle.convert.specs.Formats.{rgbe, half, single, stored};
ghost use Rattle.convert.specs.Converting.{check_source, converted};
ghost use Rattle.answers.specs.Answers.{header_of, Reports};

use answers::headers::Page;
use convert::half::convert_half;
use convert::rgbe::convert_rgbe;
use convert::single::convert_single;
use convert::stored::convert_stored;
use refusal::{Outcome, report};

// A picture of RGBE bytes, four a pixel.
#[unsafe(no_mangle)]
pub extern "C" fn dofnihet_convert_rgbe(source: &[u8], page: Page, output: &mut [u32]) -> Outcome
    ensures { Reports (check_source rgbe (header_of page) source.now (length output.old)) (converted rgbe (header_of page) source.now) output.old result output.new }
{
    report(convert_rgbe(source, page.into(), output))
}

// A picture of half floats, three a pixel, 16 bits each.
#[unsafe(no_mangle)]
pub extern "C" fn dofnihet_convert_half(source: &[u16], page: Page, output: &mut [u32]) -> Outcome
    ensures { Reports (check_source half (header_of page) source.now (length output.old)) (converted half (header_of page) source.now) output.old result output.new }
{
    report(convert_half(source, page.into(), output))
}

// A picture of single floats, three a pixel, 32 bits each.
#[unsafe(no_mangle)]
pub extern "C" fn dofnihet_convert_single(source: &[u32], page: Page, output: &mut [u32]) -> Outcome
    ensures { Reports (check_source single (header_of page) source.now (length output.old)) (converted single (header_of page) source.now) output.old result output.new }
{
    report(convert_single(source, page.into(), output))
}

// A picture of stored channels, three a pixel, 16 bits each.
#[unsafe(no_mangle)]
pub extern "C" fn dofnihet_convert_stored(source: &[u16], page: Page, output: &mut [u32]) -> Outcome
    ensures { Reports (check_source stored (header_of page) source.now (length output.old)) (converted stored (header_of page) source.now) output.old result output.new }
{
    report(convert_stored(source, page.into(), output))
}
