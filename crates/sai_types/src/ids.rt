// Identifiers of objects.

/// The identifier that the chip gave to an object.
#[derive(Clone, Copy, Debug, PartialEq, Eq, PartialOrd, Ord)]
pub struct Rid(pub u64);

/// The identifier by which the service names an object before and after the chip knows it.
#[derive(Clone, Copy, Debug, PartialEq, Eq, PartialOrd, Ord)]
pub struct Vid(pub u64);
