// The page reader: it keeps a lent strip and walks it pixel by pixel. Its methods are thin; the work is done on a plain slice and a position,
// in `steps`.
#![tactic(auto)]

mod steps;

ghost use Rattle.std.specs.Prelude.{◌≡◌};
ghost use Rattle.reader.specs.Steps.{opened_of, step_of, step_told, moved_of, step_number};
ghost use Rattle.reader.specs.Claims.{AnswersFor};

use crate::steps::{position_after, start_of, step_at, steps_before};
use number::channel::Pixel;
use refusal::Fault;

// A strip, and the index of the next pixel's red word; 0, where no pixel begins, over a refused strip. Only `open` makes one.
// A number and no `Option`: the reader is a strip and a position, as its rule says.
#[derive(Clone, Copy)]
pub struct PageReader<'a> {
    strip: &'a [u32],
    position: usize,
}

impl<'a> PageReader<'a> {
    // A reader before the strip's first pixel. It checks the strip, once; any run of steps from here answers as the list of the pixels.
    #[tactic(auto, using(crate::proofs::Runs::every_run))]
    pub fn open(strip: &'a [u32]) -> PageReader<'a>
        ensures { (result ≡ opened_of strip.entry) × AnswersFor strip.now result }
    {
        PageReader {
            strip,
            position: start_of(strip),
        }
    }

    // One step: the next pixel, or none where the page is over, or the strip's refusal; and the reader moved on.
    // No `Iterator`: a refused strip answers its refusal at every step. Inline, so that a step that is passed over (`step_after`) works out no pixel.
    #[inline(always)]
    pub fn next(&mut self) -> Result<Option<Pixel>, Fault>
        ensures { (result ≡ step_of self.old) × (step_told result ≡ step_told (step_of self.old)) × (self.new ≡ moved_of self.old) }
    {
        let strip = self.strip;
        let position = self.position;
        self.position = position_after(strip, position);
        step_at(strip, position)
    }
}

// The answer after so many steps: a reader is opened, takes them, and takes one more.
fn step_after(strip: &[u32], taken: u64) -> Result<Option<Pixel>, Fault>
    ensures { result ≡ step_number strip.now taken }
{
    let mut reader = PageReader::open(strip);
    for _ in 0..taken {
        let _ = reader.next();
    }
    reader.next()
}

// The answer of step n of a strip's reader, counted from 0.
#[tactic(auto, using(crate::proofs::Numbers::same_number))]
pub fn step_number(strip: &[u32], n: u64) -> Result<Option<Pixel>, Fault>
    ensures answer { result ≡ step_number strip.now n }
    ensures told { step_told result ≡ step_told (step_number strip.now n) }
{
    step_after(strip, steps_before(strip, n))
}
