ghost use Rattle.std.specs.Prelude.{◌≡◌, ℕ, List};
ghost use Rattle.timed_table.specs.Marks.{same_numbers};

// A mark is what the pieces of one unit share. It means a list of numbers, and two marks are the same exactly if their lists are equal.
// Stays: `==` by PartialEq would ask two laws of each kind of mark, where one equation says what it computes.
pub trait Mark {
    ghost numbers: { Self → List ℕ };

    fn same(&self, other: &Self) -> bool
        ensures { result ≡ same_numbers (numbers self.now) (numbers other.now) };
}
