// The price of a table in cents.
#![tactic(auto)]

ghost use Rattle.std.specs.Prelude.{◌≡◌, ◌*◌, ◌^◌, ◌≤◌, ◌<◌};
ghost use Rattle.sizes.specs.Limits.{most_frames};
ghost use Rattle.price.specs.Price.{states_cents, risen, priced, price_figures};
ghost use Rattle.price.specs.Theorems.{Quoted, NeverFalls, FoldedCheapest};

use sizes::Sizes;
use table::head::states_below;
use verdict::{Figures, Refusal};

// A band of the tariff: how many states it takes, and what each of these costs.
#[derive(Clone, Copy)]
pub struct Band {
    pub width: usize,
    pub cents: usize,
}

// The tariff: the bands, of which the last takes whatever is left; what every table adds; the most frames without a rise; and the rise.
#[derive(Drop)]
pub struct Tariff;

impl Tariff {
    pub const BANDS: [Band; 3] = [
        Band {
            width: 32,
            cents: 1800,
        },
        Band {
            width: 224,
            cents: 950,
        },
        Band {
            width: usize::MAX,
            cents: 320,
        },
    ];

    pub const BASE: usize = 12000;

    pub const PLAIN_FRAMES: usize = 12;

    pub const RISE_THOUSANDTHS: usize = 75;
}

// What pricing answers: the cents.
pub type Priced = Result<usize, Refusal>;

// Document 01's number and place, and the cents.
#[derive(Clone, Copy)]
pub struct PriceFigures {
    pub number: usize,
    pub place: usize,
    pub cents: usize,
}

impl From<Priced> for PriceFigures {
    ghost from_gives = { λ price figures. figures ≡ price_figures price };

    fn from(price: Priced) -> PriceFigures {
        match price {
            Ok(cents) => PriceFigures {
                number: 0,
                place: 0,
                cents,
            },
            Err(refusal) => {
                let Figures { number, place } = Figures::from(refusal);
                PriceFigures {
                    number,
                    place,
                    cents: 0,
                }
            }
        }
    }
}

// What so many states cost: each band takes of them what it can.
fn states_cents(states: usize) -> usize
    requires { states ≤ 65536 * most_frames }
    ensures { result ≡ states_cents states }
{
    let mut cents = 0;
    let mut left = states;
    for band in Tariff::BANDS.iter() {
        let taken = left.min(band.width);
        cents += taken * band.cents;
        left -= taken;
    }
    cents
}

// A sum over so many frames, with its rise, which is rounded half upward.
fn risen(sum: usize, frames: usize) -> usize
    requires { sum < 2 ^ 32 }
    ensures { result ≡ risen frames sum }
{
    if frames <= Tariff::PLAIN_FRAMES {
        return sum;
    }
    sum + (sum * Tariff::RISE_THOUSANDTHS + 500) / 1000
}

// The price of a table that passes every check.
#[tactic(auto, using(crate::proofs::Theorems::quoted, crate::proofs::Theorems::never_falls, crate::proofs::Theorems::folded_cheapest))]
pub fn price(table: &[u8]) -> Priced
    ensures answer { price_figures result ≡ priced table.now }
    ensures quoted { Quoted }
    ensures rises { NeverFalls table.now }
    ensures least { FoldedCheapest table.now }
{
    table::check(table)?;
    let frames = Sizes::read(table).frames;
    let sum = Tariff::BASE + states_cents(states_below(table, frames));
    Ok(risen(sum, frames))
}
