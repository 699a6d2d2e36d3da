// The picture program: a strip on standard input, its picture or its refusal on standard output. It only reads and writes; what it writes
// is `ppm`'s.
#![tactic(auto)]

use ppm::answer::answer_to;
use std::io::Read;

// The end of the input is a read of no bytes. A read that fails is told, and so is a write that fails.
fn main(rt: HostRuntime) {
    let mut input = [0u8; 65537];
    let size = io::read_full(0, &mut input);
    let is_cut = size < 65537 && !matches!(rt.stdin().read(&mut [0]), Ok(0));
    if is_cut {
        io::write_all(2, b"picture: the input was not read to its end\n");
        return;
    }
    let mut words = [0u32; 16384];
    let mut text = [0u8; 50];
    let mut samples = [0u8; 16380];
    let answer = answer_to(&input[..size], &mut words, &mut text, &mut samples);
    let is_written = io::write_all(1, &text[..answer.text])
        && io::write_all(1, &samples[..answer.samples]);
    if !is_written {
        io::write_all(2, b"picture: the output was not written\n");
    }
}
