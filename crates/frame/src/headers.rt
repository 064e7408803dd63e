// Headers read: clause 7.3.2; document 01, "From octets to lane bits"; request 1. The 32 headers of a multiblock are two words, of their first
// bits and of their second bits, with block 0's the highest.
ghost use Rattle.std.specs.Prelude.{◌≡◌};
ghost use Rattle.bits.specs.Choice.{bit_of};
ghost use Rattle.bits.specs.Order.{number};
ghost use Rattle.frame.specs.Headers.{header_read, carries, invalid, header_in, invalid_among};

// What a header reads as: an invalid one holds the pair seen, its first bit times 2 plus its second.
#[derive(Clone, Copy, Debug, PartialEq, Eq)]
pub enum Header {
    One,
    Zero,
    Invalid(u8),
}

impl Header {
    // The bit that it carries: an invalid one is taken for 0.
    pub fn carries(self) -> u32
        ensures { result ≡ carries self }
    {
        match self {
            Header::One => 1,
            Header::Zero => 0,
            Header::Invalid(_) => 0,
        }
    }

    pub fn is_invalid(self) -> bool
        ensures { result ≡ invalid self }
    {
        matches!(self, Header::Invalid(_))
    }
}

// The header of this value. A number above 3 is no header's: it is invalid too, with that number.
#[tactic(auto, unfolding(crate::specs::Headers::header_read))]
pub fn read(value: u8) -> Header
    ensures { result ≡ header_read value }
{
    match value {
        1 => Header::One,
        2 => Header::Zero,
        _ => Header::Invalid(value),
    }
}

// The headers of a multiblock: their first bits and their second bits, with block 0's the highest.
#[derive(Clone, Copy, Debug, PartialEq, Eq)]
pub struct Headers {
    pub first: u32,
    pub second: u32,
}

impl Headers {
    // The header of a block; from 32 on there is none, and 00 is read.
    pub fn at(self, block: u32) -> Header
        ensures { result ≡ header_in self.first self.second block }
    {
        if block >= 32 {
            return read(0);
        }
        let place = 31 - block;
        let value = ((self.first >> place) & 1) * 2 + ((self.second >> place) & 1);
        read(value as u8)
    }

    // The bits that they carry: a header is valid where its bits differ, and then carries its second.
    pub fn carried(self) -> u32
        ensures { result ≡ number (λ t. carries (header_in self.first self.second t)) 0 32 }
    {
        self.second & (self.first ^ self.second)
    }

    // A 1 for each header that is invalid.
    pub(crate) fn invalid(self) -> u32
        ensures { result ≡ number (λ t. bit_of (invalid (header_in self.first self.second t))) 0 32 }
    {
        self.first ^ self.second ^ 0xffff_ffff
    }

    // How many are invalid.
    pub fn invalid_count(self) -> u8
        ensures { result ≡ invalid_among (header_in self.first self.second) }
    {
        self.invalid().count_ones() as u8
    }
}
