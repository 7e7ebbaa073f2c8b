// What every call answers: accepted with a place, or refused for one of document 01's reasons, each with its place.
#![tactic(auto)]

ghost use Rattle.std.specs.Prelude.{◌≡◌};
ghost use Rattle.verdict.specs.Judgements.{figures, refusal_figures, and_then};

pub type Verdict = Result<usize, Refusal>;

// A case for each of document 01's numbers 1 to 12 and of document 02's from 13 on, in that order. Its value is the place.
#[derive(Clone, Copy, Debug, PartialEq, Eq)]
pub enum Refusal {
    Length(usize),
    Size(usize),
    Literal(usize),
    LookAhead(usize),
    Entry(usize),
    Scratch(usize),
    Room(usize),
    Gates(usize),
    Word(usize),
    End(usize),
    Position(usize),
    Count(usize),
    Sequences(usize),
    Plan(usize),
    Window(usize),
    Minute(usize),
    Mask(usize),
    Nodes(usize),
    Outside(usize),
    Taken(usize),
    Unmatched(usize),
}

// Document 01's number and place.
#[derive(Clone, Copy)]
pub struct Figures {
    pub number: usize,
    pub place: usize,
}

impl From<Refusal> for Figures {
    ghost from_gives = { λ refusal figures. figures ≡ refusal_figures refusal };

    fn from(refusal: Refusal) -> Figures {
        match refusal {
            Refusal::Length(place) => Figures { number: 1, place },
            Refusal::Size(place) => Figures { number: 2, place },
            Refusal::Literal(place) => Figures { number: 3, place },
            Refusal::LookAhead(place) => Figures { number: 4, place },
            Refusal::Entry(place) => Figures { number: 5, place },
            Refusal::Scratch(place) => Figures { number: 6, place },
            Refusal::Room(place) => Figures { number: 7, place },
            Refusal::Gates(place) => Figures { number: 8, place },
            Refusal::Word(place) => Figures { number: 9, place },
            Refusal::End(place) => Figures { number: 10, place },
            Refusal::Position(place) => Figures { number: 11, place },
            Refusal::Count(place) => Figures { number: 12, place },
            Refusal::Sequences(place) => Figures { number: 13, place },
            Refusal::Plan(place) => Figures { number: 14, place },
            Refusal::Window(place) => Figures { number: 15, place },
            Refusal::Minute(place) => Figures { number: 16, place },
            Refusal::Mask(place) => Figures { number: 17, place },
            Refusal::Nodes(place) => Figures { number: 18, place },
            Refusal::Outside(place) => Figures { number: 19, place },
            Refusal::Taken(place) => Figures { number: 20, place },
            Refusal::Unmatched(place) => Figures { number: 21, place },
        }
    }
}

impl From<Verdict> for Figures {
    ghost from_gives = { λ verdict f. f ≡ figures verdict };

    fn from(verdict: Verdict) -> Figures {
        match verdict {
            Ok(place) => Figures { number: 0, place },
            Err(refusal) => Figures::from(refusal),
        }
    }
}

// Two judgements one after the other: the first if it refuses, else the second.
pub fn and_then(first: Verdict, next: Verdict) -> Verdict
    ensures { figures result ≡ and_then (figures first) (figures next) }
{
    match first {
        Ok(_) => next,
        Err(_) => first,
    }
}
