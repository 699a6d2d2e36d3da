// What stands before the levels in a picture, and the sample of each level for a screen.
ghost use Rattle.std.specs.Prelude.{◌≡◌, length};
ghost use Rattle.refusal.specs.Output.{onto};
ghost use Rattle.table.specs.Tables.{IsTable};
ghost use Rattle.screen.specs.Samples.{sample_of};
ghost use Rattle.ppm.specs.Answers.{front_of};

use ppm::text::front;
use screen::sample_table;

// The front of a P6 picture; answers how many bytes it has.
#[unsafe(no_mangle)]
pub extern "C" fn dofnihet_front_of(width: u64, height: u64, output: &mut [u8; 50]) -> u64
    ensures count { result ≡ length (front_of width height) }
    ensures content { output.new ≡ onto (front_of width height) output.old }
{
    front(width, height, output) as u64
}

// The sample of each level, for a host that shows it on a screen.
#[unsafe(no_mangle)]
pub extern "C" fn dofnihet_screen_table(output: &mut [u8; 256])
    ensures content { IsTable 256 sample_of output.new }
{
    *output = sample_table();
}
