// What calls of functions look at, and the values of those that pick from a reference.
pub(crate) mod arguments;
pub(crate) mod criteria;
pub(crate) mod lookups;
pub(crate) mod picks;
