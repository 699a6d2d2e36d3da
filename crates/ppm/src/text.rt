// The texts of an answer, each into the front of an output that has room for the longest, 50 bytes.
ghost use Rattle.std.specs.Prelude.{◌≡◌, length};
ghost use Rattle.refusal.specs.Output.{onto};
ghost use Rattle.ppm.specs.Answers.{front_of, refused_text};

use crate::put::put_numbers;

// The front of a P6 picture; answers how many bytes it has.
pub fn front(width: u64, height: u64, output: &mut [u8; 50]) -> usize
    ensures count { result ≡ length (front_of width height) }
    ensures content { output.new ≡ onto (front_of width height) output.old }
{
    put_numbers(b"P6\n", width, height, b"\n255\n", output)
}

// The line of a refusal; answers how many bytes it has.
pub fn refused(number: u64, place: u64, output: &mut [u8; 50]) -> usize
    ensures count { result ≡ length (refused_text number place) }
    ensures content { output.new ≡ onto (refused_text number place) output.old }
{
    put_numbers(b"refused ", number, place, b"\n", output)
}
