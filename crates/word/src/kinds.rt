// The kinds of channel words in blocks of 48, which are 16 pixels.
ghost use Rattle.word.specs.loops.Kinds.{IsKinds};

use crate::body::channel_word;

// The number of channel words in a block.
pub const BLOCK_WORDS: usize = 48;

// The kinds of a block's words, each the word of a black channel.
pub fn block_kinds() -> [u32; BLOCK_WORDS]
    ensures { IsKinds result }
{
    std::array::from_fn(|j| channel_word(j, 0))
}
