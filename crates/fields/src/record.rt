// What one kind of field holds.
ghost use Rattle.std.specs.Prelude.{◌≡◌, ℕ, ◌<◌, List, length};
ghost use Rattle.std.specs.List.{AllByRecursion};

#[derive(Clone, Copy, PartialEq, Eq, Debug)]
pub enum FieldFault {
    // the header or the body passes the end
    Short,
    // another tag
    Tag,
    // not the tag's length
    Length,
}

// How many bytes of a field stand before its body: the tag, and the length in two.
pub const HEADER_LEN: usize = 3;

// Each kind of field has a fixed tag and a fixed length. The ghost members of the same names are what clauses call them by.
pub trait Record: Sized {
    const TAG: u8;

    const LEN: u16;

    ghost TAG: { ℕ };

    ghost LEN: { ℕ };

    // The record that a body holds, and the body of a record.
    ghost parse: { List ℕ → Self };

    ghost bytes: { Self → List ℕ };

    // Its numbers fit their types: this holds of every record that code can have.
    ghost fits: { Self → Type 0 };

    fn read(body: &[u8]) -> Self
        requires { length body.now ≡ LEN }
        ensures { result ≡ parse body.now };

    fn write(&self, body: &mut [u8])
        requires { length body.old ≡ LEN }
        ensures after { body.new ≡ bytes self.now }
        ensures fits { fits self.now };

    ghost long: { (x : Self) → length (bytes x) ≡ LEN };

    // What is written is read back as it was.
    ghost back: { (x : Self) → fits x → parse (bytes x) ≡ x };

    // What is read, written again, gives the same bytes.
    ghost again: { (xs : List ℕ) → length xs ≡ LEN → AllByRecursion (λ b. b < 256) xs → bytes (parse xs) ≡ xs };
}
