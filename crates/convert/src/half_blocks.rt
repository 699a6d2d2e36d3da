// Halves in blocks of 48, which are 16 pixels. A block without subnormal numbers is stored by loops that have no branches. A block is given by
// its source and the index where it begins; a struct of the two would be no plainer, since each contract names both.
ghost use Rattle.refusal.specs.Verdicts.{accepted};
ghost use Rattle.std.specs.Prelude.{◌≡◌, ◌+◌, ◌≤◌, true, length};
ghost use Rattle.word.specs.Placing.{first_refusal};
ghost use Rattle.convert.specs.Formats.{half, decoded_source};
ghost use Rattle.convert.specs.loops.HalfBlocks.{IsPlain, CodesOfHalves, BlockFits, StoresHalves};

use crate::each::store_each;
use crate::half::Half;
use number::source::plain_half_code;
use word::kinds::BLOCK_WORDS;

// Whether no half is an infinity or no number; then none is refused. The greatest of all and not `all`, which ends early: a compiler takes
// several at a time.
#[tactic(auto, using(word::proofs::Walks::checking_all, word::proofs::Walks::checking_done))]
pub fn all_finite(source: &[u16]) -> bool
    ensures { result ≡ true → first_refusal (decoded_source half source.now) ≡ accepted }
{
    let mut most: u16 = 0;
    for half in source {
        most = most.max(*half % 32768);
    }
    most < 31744
}

// Whether no half of the block that begins at `start` is a positive subnormal number: one less than its bits, and 65535 for 0, is below 1023
// for these alone.
fn is_plain(source: &[u16], start: usize) -> bool
    requires { start + 48 ≤ length source.now }
    ensures { result ≡ true → IsPlain source.now start }
{
    let mut least = u16::MAX;
    // By the index: over the slice of the block a page is converted a sixth slower.
    for j in 0..BLOCK_WORDS {
        least = least.min(source[start + j].wrapping_sub(1));
    }
    1023 <= least
}

// The codes of the block that begins at `start`, where no half is a positive subnormal number.
fn plain_codes(source: &[u16], start: usize) -> [u16; BLOCK_WORDS]
    requires { (start + 48 ≤ length source.now) × IsPlain source.now start }
    ensures { CodesOfHalves source.now start result }
{
    // A loop: from what `from_fn` says of its 48 calls the proof did not close.
    let mut codes = [0; BLOCK_WORDS];
    for j in 0..BLOCK_WORDS {
        codes[j] = plain_half_code(source[start + j]);
    }
    codes
}

// The words of the block that begins at `start`, where no half is a positive subnormal number. The codes are made first: they are half as
// long as words, so that twice as many are made at a time.
fn store_plain(kinds: &[u32], source: &[u16], start: usize, body: &mut [u32])
    requires { BlockFits kinds.now start source.now body.old × IsPlain source.now start }
    ensures { StoresHalves source.now start (start + 48) body.old body.new }
{
    let codes = plain_codes(source, start);
    for j in 0..BLOCK_WORDS {
        body[start + j] = kinds[j] + codes[j] as u32;
    }
}

// The words of the block that begins at `start`.
pub fn store_block(kinds: &[u32], source: &[u16], start: usize, body: &mut [u32])
    requires { BlockFits kinds.now start source.now body.old }
    ensures { StoresHalves source.now start (start + 48) body.old body.new }
{
    if is_plain(source, start) {
        store_plain(kinds, source, start, body);
    } else {
        store_each::<Half>(source, start, start + BLOCK_WORDS, body);
    }
}
