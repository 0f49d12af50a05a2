//! Histories of a link of stations, the law that holds of each, and a night that shows that it speaks of something.
#![tactic(auto)]

ghost use Rattle.std.specs.Prelude.{◌≡◌, length};
ghost use Rattle.link.specs.Law.{TheLaw};
ghost use Rattle.link.specs.Witness.{night, Witnessed};

/// Every history that can happen keeps the law.
pub fn law()
    ensures { TheLaw }
{}

/// How many events the night has. It can happen, and in it transactions are answered, given up and withdrawn, a packet arrives twice,
/// and one is overtaken.
pub fn witness() -> usize
    ensures events { result ≡ length night }
    ensures witnessed { Witnessed }
{
    21
}
