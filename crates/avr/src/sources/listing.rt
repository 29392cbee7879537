//! How lists of places are made and read.
ghost use Rattle.std.specs.Prelude.{◌≡◌, ◌+◌, ◌<◌, ◌++◌, [], ◌∷◌, length};
ghost use Rattle.std.specs.Option.{option_to_list};
ghost use Rattle.avr.specs.Lists.{list_of};

use crate::sources::Sources;

impl Sources {
    /// No places.
    pub(crate) fn none() -> Sources
        ensures list { list_of result ≡ [] }
        ensures count { result.count ≡ 0 }
    {
        Sources {
            places: [0; 4],
            count: 0,
        }
    }

    /// These places, and one more behind them.
    fn and(self, place: u16) -> Sources
        requires { self.count < 4 }
        ensures list { list_of result ≡ list_of self ++ place ∷ [] }
        ensures count { result.count ≡ self.count + 1 }
    {
        let mut places = self.places;
        places[self.count] = place;
        Sources {
            places,
            count: self.count + 1,
        }
    }

    /// The places, lent.
    pub fn as_slice(&self) -> &[u16]
        ensures { result.now ≡ list_of self.now }
    {
        &self.places[..self.count]
    }
}

/// Some places, and after them one more register, if there is one.
pub(crate) fn listed(first: &[u16], last: Option<u8>) -> Sources
    requires { length first.now < 4 }
    ensures { list_of result ≡ first.now ++ option_to_list last }
{
    let mut places = [0; 4];
    places[..first.len()].copy_from_slice(first);
    let sources = Sources {
        places,
        count: first.len(),
    };
    match last {
        Some(register) => sources.and(u16::from(register)),
        None => sources,
    }
}
