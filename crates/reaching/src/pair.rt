use jworld::MethodId;

/// A method in a domain, by the domain's number.
#[derive(Clone, Copy, Debug, PartialEq, Eq)]
pub struct Pair {
    pub domain: u32,
    pub method: MethodId,
}
