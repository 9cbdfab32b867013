//! The orders of user keys that a folder may have.

ghost use Rattle.std.specs.Prelude.{◌≡◌};
ghost use Rattle.folder.specs.Manifest.{order_name, order_named};

use ikey::{Comparator, Fault, FaultName};

/// The order of a folder's user keys. The comparator that its manifest names says which.
#[derive(Clone, Copy, PartialEq, Eq)]
pub enum Order {
    /// As unsigned bytes, a proper prefix first.
    Bytewise,
    /// A shorter key first, and keys of one length as unsigned bytes.
    Shortlex,
}

impl Order {
    /// The order of a comparator's `name`. Comparator if it is neither of the two.
    pub fn named(name: &str) -> Result<Order, Fault>
        ensures { result ≡ order_named name.now }
    {
        if name == ikey::Bytewise::name() {
            return Ok(Order::Bytewise);
        }
        if name == ikey::Shortlex::name() {
            return Ok(Order::Shortlex);
        }
        Err(Fault::of(FaultName::Comparator))
    }

    /// The name of the order's comparator.
    pub fn name(self) -> &'static str
        ensures { result.now ≡ order_name self }
    {
        match self {
            Order::Bytewise => ikey::Bytewise::name(),
            Order::Shortlex => ikey::Shortlex::name(),
        }
    }
}
