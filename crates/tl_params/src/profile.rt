//! The profile: a choice that the specification leaves open.

/// The cap that answers an AcquireBlock NtoB: toB under `One`. Under `Two` toT may answer it too, and the manager
/// grants toT if it has recorded no client with a copy.
#[derive(Clone, Copy, Debug, PartialEq, Eq)]
pub enum Profile {
    One,
    Two,
}
