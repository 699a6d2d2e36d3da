// A page's header: as C passes it, and as C is told of it.
ghost use Rattle.std.specs.Prelude.{◌≡◌};
ghost use Rattle.answers.specs.Answers.{header_of, header_answer};

use refusal::{Fault, Outcome};
use word::header::Header;

// What a page is converted with, as C passes it: `white` counts where `white_present` is not 0. C has no Option: a number says that the
// next one counts.
#[repr(C)]
#[derive(Clone, Copy)]
pub struct Page {
    pub width: u64,
    pub height: u64,
    pub key: u64,
    pub white_present: u64,
    pub white: u64,
}

// A page's header; a page without a white point has 0 in the last two fields, a refusal in all but number and place. C has no Result: number
// and place are 0 where there is no refusal.
#[repr(C)]
#[derive(Clone, Copy, Default)]
pub struct HeaderAnswer {
    pub number: u64,
    pub place: u64,
    pub width: u64,
    pub height: u64,
    pub key: u64,
    pub white_present: u64,
    pub white: u64,
}

// The header that a page's numbers stand for.
impl From<Page> for Header {
    ghost from_gives = { λ page header. header ≡ header_of page };

    #[tactic(auto, unfolding(crate::specs::Answers::header_of, crate::specs::Answers::white_given))]
    fn from(page: Page) -> Header {
        Header {
            width: page.width,
            height: page.height,
            key: page.key,
            white: (page.white_present != 0).then_some(page.white),
        }
    }
}

// A page's header or its refusal, in numbers.
impl From<Result<Header, Fault>> for HeaderAnswer {
    ghost from_gives = { λ answer numbers. numbers ≡ header_answer answer };

    fn from(answer: Result<Header, Fault>) -> HeaderAnswer {
        match answer {
            Ok(header) => HeaderAnswer {
                width: header.width,
                height: header.height,
                key: header.key,
                white_present: header.white.is_some() as u64,
                white: header.white.unwrap_or(0),
                ..HeaderAnswer::default()
            },
            Err(fault) => {
                let outcome = Outcome::from(fault);
                HeaderAnswer {
                    number: outcome.number,
                    place: outcome.place as u64,
                    ..HeaderAnswer::default()
                }
            },
        }
    }
}
