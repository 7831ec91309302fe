//! The law of listings: a function states it as its contract and does nothing.

ghost use Rattle.model_lister.specs.Listings.{OneListing};

/// Where the plain tree fits the limits, every listing of the problem is complete, and all are the same.
pub fn one_listing()
    ensures { OneListing }
{}
