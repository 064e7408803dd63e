// What a multiblock is read as: clauses 7.1.2 and 7.1.3.
use crate::headers::Headers;

// Its data octets, and its 32 headers.
#[derive(Clone, Copy, Debug, PartialEq, Eq)]
pub struct Multiblock {
    pub octets: [u8; 256],
    pub headers: Headers,
}

// What is read where there is none.
pub const NOTHING: Multiblock = Multiblock {
    octets: [0; 256],
    headers: Headers {
        first: 0,
        second: 0,
    },
};
