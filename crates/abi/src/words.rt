// What a call gives back to C: its number, and where the number sets a place the list and the position in two lent words.
ghost use Rattle.std.specs.Prelude.{◌≡◌};
ghost use Rattle.books.specs.Errors.{refusal_told};
ghost use Rattle.books.specs.Place.{no_place, place_in};
ghost use Rattle.books.specs.Words.{place_from};

use books::{Refusal, Refused};

// The number, 0 where the call is done. The place is 0 and 0 where the number sets none.
pub(crate) fn told(refusal: Refusal, place: &mut [u16; 2]) -> u16
    ensures number { result ≡ refusal.number }
    ensures place { place_from place.new ≡ place_in refusal }
{
    *place = [refusal.list, refusal.position];
    refusal.number
}

// The same of a call that may change the pool. Its place is 0 and 0 already, and is stored again only where the call is refused, so that a
// call that is done keeps nothing for it.
pub(crate) fn noted(answer: Result<(), Refused>, place: &mut [u16; 2]) -> u16
    requires { place_from place.old ≡ no_place }
    ensures number { result ≡ (refusal_told answer).number }
    ensures place { place_from place.new ≡ place_in (refusal_told answer) }
{
    match answer {
        Ok(()) => 0,
        Err(refused) => {
            *place = [refused.list, refused.position];
            refused.number.into()
        }
    }
}
