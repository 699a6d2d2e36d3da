// Bytes put into an output, from an index on. Each call answers the index behind them.
ghost use Rattle.std.specs.Prelude.{◌+◌, ◌≤◌, ◌≡◌, length};
ghost use Rattle.std.proofs.lemmas.List.Edits.{sets};
ghost use Rattle.refusal.specs.Output.{onto};
ghost use Rattle.ppm.specs.Text.{decimal, two_numbers};

#[tactic(auto, using(crate::proofs::Texts::stored))]
pub fn put(text: &[u8], at: usize, output: &mut [u8]) -> usize
    requires { at + length text.now ≤ length output.old }
    ensures content { output.new ≡ sets output.old at text.now }
    ensures end { result ≡ at + length text.now }
{
    let end = at + text.len();
    output[at..end].copy_from_slice(text);
    end
}

// A number in decimal digits.
#[tactic(auto, using(crate::proofs::Texts::in_decimal, crate::proofs::Texts::length_decimal))]
pub fn put_decimal(n: u64, at: usize, output: &mut [u8]) -> usize
    requires { at + 20 ≤ length output.old }
    ensures content { output.new ≡ sets output.old at (decimal n) }
    ensures end { result ≡ at + length (decimal n) }
{
    let mut digits = [0u8; 20];
    let count = io::decimal(n, &mut digits);
    put(&digits[..count], at, output)
}

// Two numbers with a space between them, a text before and a text behind, from the output's front on.
// No `write!`: what it promises holds where it succeeds, and nothing promises that it does, in an output that has the room.
#[tactic(auto, using(crate::proofs::Texts::length_decimal))]
pub fn put_numbers(
    before: &[u8],
    first: u64,
    second: u64,
    behind: &[u8],
    output: &mut [u8; 50],
) -> usize
    requires { length before.now + length behind.now ≤ 9 }
    ensures count { result ≡ length (two_numbers before.now first second behind.now) }
    ensures content { output.new ≡ onto (two_numbers before.now first second behind.now) output.old }
{
    let first_at = put(before, 0, output);
    let space_at = put_decimal(first, first_at, output);
    let second_at = put(b" ", space_at, output);
    let behind_at = put_decimal(second, second_at, output);
    put(behind, behind_at, output)
}
