// How many runs come out, each way once.

pub(crate) use case_lists::Outcomes;
