// Key, average and white point in one value.
use number::ratio::Stored;

// What the levels of a page are worked out under: its key, a stored average, the page's own or another, and its white point.
// Its limits (`IsTone`) stay a premise, not an invariant: the public calls that take one, listed in docs/DECISIONS.md, promise for any that fits.
#[derive(Clone, Copy)]
pub struct Tone {
    pub key: u64,
    pub average: Stored,
    pub white: Option<u64>,
}
