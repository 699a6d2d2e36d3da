// Channel words checked, many at a time. What they stand in is not known here.
#![tactic(auto)]

ghost use Rattle.std.specs.Prelude.{◌≡◌, ◌+◌, ◌*◌, ◌%◌, ◌≤◌, true, length};
ghost use Rattle.word.specs.Placing.{placed, first_refusal};
ghost use Rattle.word.specs.Fields.{decode_word};
ghost use Rattle.word.specs.loops.Kinds.{IsKinds};
ghost use Rattle.channels.specs.loops.Holding.{QuartersHold, NoFault, HoldsKind, AllHold, BlockWithin};
ghost use Rattle.refusal.specs.Verdicts.{report_of};

use refusal::Fault;
use word::body::{channel_word, decode_word, verdict_at};
use word::kinds::{BLOCK_WORDS, block_kinds};

// The 16-bit form of the least lit channel: exponent 72, mantissa 128.
const LEAST_LIT: u32 = 18560;

// 256 times the number of exponents of lit channels, 28928, lies this much below 2^15.
const BELOW_BIT_15: u32 = 3840;

// Bit 7 and the bits from 15 on are 0 only for a word that holds a channel of the kind of a black word. The 16-bit form of a lit channel
// lies above the least one by 256 times the exponent less 72, plus the mantissa less 128: by less than 28928, with bit 7 zero.
fn fault_bits(black: u32, word: u32) -> u32
    ensures { NoFault result → HoldsKind black word }
{
    let code = word.wrapping_sub(black);
    let above = code.wrapping_sub(LEAST_LIT);
    let bits = above | above.wrapping_add(BELOW_BIT_15);
    if code == 0 { 0 } else { bits }
}

// True only where neither bit 7 nor a bit from 15 on is set.
fn no_fault(bits: u32) -> bool
    ensures { result ≡ true → NoFault bits }
{
    bits < 32768 && bits / 128 % 2 == 0
}

// True only where every word of the block that begins at `start` holds a channel of its kind. No turn of the loop branches.
#[tactic(auto, using(crate::proofs::Held::or_none))]
fn block_holds(kinds: &[u32], words: &[u32], start: usize) -> bool
    requires { BlockWithin kinds.now start words.now }
    ensures { result ≡ true → AllHold words.now start (start + 48) }
{
    let mut bits: u32 = 0;
    for j in 0..BLOCK_WORDS {
        bits |= fault_bits(kinds[j], words[start + j]);
    }
    no_fault(bits)
}

// True only where every word from number `from` on holds a channel of its kind.
fn rest_holds(words: &[u32], from: usize) -> bool
    ensures { result ≡ true → AllHold words.now from (length words.now) }
{
    for k in from..words.len() {
        if !no_fault(fault_bits(channel_word(k, 0), words[k])) {
            return false;
        }
    }
    true
}

// True only where the block that begins at `start` holds in each of four quarters of the words.
fn quarters_hold(kinds: &[u32], words: &[u32], quarter: usize, start: usize) -> bool
    requires { IsKinds kinds.now × (start % 3 ≡ 0) × (quarter % 3 ≡ 0) × (start + 48 ≤ quarter) × (4 * quarter ≤ length words.now) }
    ensures { result ≡ true → QuartersHold words.now quarter start (start + 48) }
{
    block_holds(kinds, words, start)
        && block_holds(kinds, words, quarter + start)
        && block_holds(kinds, words, 2 * quarter + start)
        && block_holds(kinds, words, 3 * quarter + start)
}

// True only where every word holds a channel of its kind: whole blocks, then the rest. Four blocks are read at a time, far apart, since
// memory then answers sooner than for one row of words.
fn all_hold(words: &[u32]) -> bool
    ensures { result ≡ true → AllHold words.now 0 (length words.now) }
{
    let kinds = block_kinds();
    let quarter = words.len() / 192 * BLOCK_WORDS;
    for start in (0..quarter).step_by(BLOCK_WORDS) {
        if !quarters_hold(&kinds, words, quarter, start) {
            return false;
        }
    }
    rest_holds(words, 4 * quarter)
}

// The first word that is no channel of its kind ends the walk. The first word is that of channel 0, at the index `start`.
fn first_fault(start: u32, words: &[u32]) -> Result<(), Fault>
    ensures { result ≡ first_refusal (placed decode_word start 0 words.now) }
{
    for (k, word) in words.iter().enumerate() {
        verdict_at(start as usize + k, decode_word(k, *word))?;
    }
    Ok(())
}

// The first refusal of channel words, the first of which is that of channel 0 and has the index `start`.
#[tactic(auto, using(crate::proofs::Held::held_accepted))]
pub fn check_channels(start: u32, words: &[u32]) -> Result<(), Fault>
    ensures verdict { result ≡ first_refusal (placed decode_word start 0 words.now) }
    ensures outcome { report_of result ≡ report_of (first_refusal (placed decode_word start 0 words.now)) }
{
    if all_hold(words) {
        return Ok(());
    }
    first_fault(start, words)
}
