ghost use Rattle.std.specs.Prelude.{◌≡◌, ◌+◌, ◌≤◌, ◌++◌, length, take, drop};
ghost use Rattle.slot_parts.specs.Copies.{overwritten};

// Copies `from` over all of `to`. For the store, which lends equal lengths.
// Stays: a part of the store lent on to a copying function is a form that was asked for.
pub(crate) fn copy_into(to: &mut [u8], from: &[u8])
    requires { length to.old ≡ length from.now }
    ensures { to.new ≡ from.now }
{
    to.copy_from_slice(from);
}

// The octets in which the slots' stretches lie.
#[derive(Drop)]
pub struct Store<'a> {
    pub octets: &'a mut [u8],
}

impl<'a> Store<'a> {
    // Copies `from` into the middle of the store, all else staying as it is. For slots, which know that it fits.
    pub fn write(&mut self, at: usize, from: &[u8])
        requires { at + length from.now ≤ length self.old.octets.now }
        ensures after { self.new.octets.now ≡ overwritten at from.now self.old.octets.now }
        ensures lender { self.new.octets.ghost_name ≡ self.old.octets.ghost_name }
        ensures len { length self.new.octets.now ≡ length self.old.octets.now }
    {
        let end = at + from.len();
        copy_into(&mut self.octets[at..end], from);
    }

    // Copies n octets from the middle of the store to the front of a buffer. For slots, too.
    pub fn read(&self, at: usize, n: usize, to: &mut [u8])
        requires { (at + n ≤ length self.now.octets.now) × (n ≤ length to.old) }
        ensures { to.new ≡ take n (drop at self.now.octets.now) ++ drop n to.old }
    {
        let octets = &*self.octets;
        let end = at + n;
        copy_into(&mut to[0..n], &octets[at..end]);
    }
}
