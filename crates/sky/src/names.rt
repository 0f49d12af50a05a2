//! Finding a star by its name.
ghost use Rattle.std.specs.Prelude.{◌≡◌, ◌<◌, length, IfSome};
ghost use Rattle.std.specs.Str.{bytes_eq};
ghost use Rattle.sky.specs.Stars.{star_name};
ghost use Rattle.sky.specs.Names.{place_of};

use crate::star::Star;

impl Star {
    /// Whether the star has this name. What is asked for may be no text, so bytes are compared.
    pub(crate) fn is_named(&self, name: &[u8]) -> bool
        ensures { result ≡ bytes_eq (star_name self.now) name.now }
    {
        self.name.as_bytes() == name
    }
}

/// The place of the first star with the name, counted from 0.
#[tactic(auto, using(crate::proofs::Lookups::place_position))]
pub fn find(stars: &[Star], name: &[u8]) -> Option<usize>
    ensures value { result ≡ place_of name.now stars.now }
    ensures within { IfSome result (λ k. k < length stars.now) }
{
    stars.iter().position(|star| star.is_named(name))
}
