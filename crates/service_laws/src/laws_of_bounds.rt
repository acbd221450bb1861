//! The laws, each the contract of a function that does nothing.
ghost use Rattle.service_laws.specs.BoundLaws.{BoundsStay, SizesFit};

/// What stands at the start is within its bounds, and what an event leaves is.
pub fn bounds_stay()
    ensures { BoundsStay }
{}

/// Within the bounds, what a read needs is below 2^32, and each answer fits a frame.
pub fn sizes_fit()
    ensures { SizesFit }
{}
