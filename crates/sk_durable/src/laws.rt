//! Laws of a store that grows. Each function has one as its contract, and does nothing.
ghost use Rattle.sk_device.specs.Disk.{Steps};
ghost use Rattle.sk_durable.specs.Growing.{GrowsSame, OnlyGrows};

use sk_device::Device;

/// An image grows to itself.
pub fn grows_same()
    ensures { GrowsSame }
{}

/// A disk that only grew, and then only grew again, only grew.
pub fn grows_on<D: Device>()
    ensures { (a b c : D) → Steps D.disk OnlyGrows a b → Steps D.disk OnlyGrows b c → Steps D.disk OnlyGrows a c }
{}
