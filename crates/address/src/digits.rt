use octets::ShortOctets;

// The digits of a title, 0 to 15 each.
pub type Digits = ShortOctets<56>;
