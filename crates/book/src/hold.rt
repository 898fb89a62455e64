ghost use Rattle.std.specs.Prelude.{◌≡◌};
ghost use Rattle.book.specs.Holds.{answered, hold_again};

use states::refusal::Refusal;

// A hold on an entry of the book with this number. It is not let go: lift or withdraw ends it.
pub struct Hold {
    pub(crate) book: u32,
    pub(crate) entry: u16,
}

// A hold that was refused: it is made the same hold again or discarded.
pub struct RefusedHold {
    hold: Hold,
}

// Why a hold was not ended, and the hold.
pub struct Refused {
    pub refusal: Refusal,
    pub hold: RefusedHold,
}

impl Hold {
    fn end(self) {
        let Hold { book: _, entry: _ } = self;
    }

    // Ends the hold by what a call answered; a refusal sends it back.
    pub(crate) fn answer<A>(self, answer: Result<A, Refusal>) -> Result<A, Refused>
        ensures { result ≡ answered self answer }
    {
        match answer {
            Ok(x) => {
                self.end();
                Ok(x)
            }
            Err(refusal) => Err(Refused {
                refusal,
                hold: RefusedHold { hold: self },
            }),
        }
    }
}

impl RefusedHold {
    // The same hold again. A method and no `From`: what becomes of a hold that was refused is to be read where it is decided.
    pub fn into_hold(self) -> Hold
        ensures { result ≡ hold_again self }
    {
        let RefusedHold { hold } = self;
        hold
    }

    pub fn discard(self) {
        self.into_hold().end();
    }
}
