//! What two addresses have in common.
ghost use Rattle.std.specs.Prelude.{◌≡◌};
ghost use Rattle.address.specs.Addresses.{has_same_base, is_rewritable};

use crate::address::Address;

/// Whether two addresses are the same, their fragments aside.
#[tactic(auto, unfolding(crate::specs::Addresses::has_same_base))]
pub fn same_base(a: &Address, b: &Address) -> bool
    ensures { result ≡ has_same_base a.now b.now }
{
    a.base() == b.base()
}

/// Whether a document at an address may give itself another one without a navigation.
#[tactic(auto, unfolding(crate::specs::Addresses::is_rewritable))]
pub fn rewritable(from: &Address, to: &Address) -> bool
    ensures { result ≡ is_rewritable from.now to.now }
{
    from.origin() == to.origin()
}
