ghost use Rattle.std.specs.Prelude.{◌≡◌, count_by, nat_eq};
ghost use Rattle.ossl_state.specs.Ordered.{LegalIsOrdered};

use crate::state::Given;

/// How many activations of the provider at a place stand in a library context: 0 too where the fallback alone keeps it
/// active (provider(7)).
pub fn count_given(given: &[Given], place: usize) -> usize
    ensures count { result ≡ count_by (λ g. nat_eq g.place place) given.now }
    // What makes such a count worth keeping: in each library context of every legal history no provider is active
    // twice, each activation is one of an active provider, and an active provider has one or is kept by the fallback.
    ensures ordered { LegalIsOrdered }
{
    given.iter().filter(|g| g.place == place).count()
}
