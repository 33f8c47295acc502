use octets::ShortOctets;

// An address in memory of its own.
pub type AddressBuffer = ShortOctets<32>;
