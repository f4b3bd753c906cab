/// The most octets that the body of a SimpleBlock or a BlockGroup has (2^26); a longer one is a
/// fault of the film.
pub const LARGEST_BLOCK: u64 = 67_108_864;

/// The most octets that the body of Info or Tracks has (2^24); a longer one is taken as broken.
pub const LARGEST_HEADER: u64 = 16_777_216;

/// The most octets that a film has (2^63 - 1), so that no octet stands at this offset.
pub const FILM_LIMIT: u64 = 0x7fff_ffff_ffff_ffff;
