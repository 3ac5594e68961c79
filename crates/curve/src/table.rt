// The table of a curve, F(1)..F(n), in either of the forms that hold one: numbers of two bytes in a sheet, and whole numbers in a run.
ghost use Rattle.std.specs.Prelude.{◌≡◌, ℕ, List, ◌/◌, ◌<◌, ◌≤◌, length, get_or};
ghost use Rattle.words.specs.Words.{words};

// What every form of a table can do. The values count from 0: the i-th is F(i + 1).
pub trait Table {
    ghost values: { Self → List ℕ };

    // No value of this form is above it.
    ghost top: { ℕ };

    // n
    fn len(&self) -> usize
        ensures { result ≡ length (values self.now) };

    fn entry(&self, i: usize) -> u32
        requires { i < length (values self.now) }
        ensures value { result ≡ get_or (values self.now) i 0 }
        ensures bound { result ≤ top };
}

// Values of two bytes each.
#[derive(Clone, Copy)]
pub struct Words<'a>(pub &'a [u8]);

impl<'a> Table for Words<'a> {
    ghost values = { λ t. words t.0.now };

    ghost top = { 65535 };

    fn len(&self) -> usize {
        self.0.len() / 2
    }

    fn entry(&self, i: usize) -> u32 {
        words::word(self.0, 2 * i)
    }
}

// Values that are numbers already.
#[derive(Clone, Copy)]
pub struct Numbers<'a>(pub &'a [u32]);

impl<'a> Table for Numbers<'a> {
    ghost values = { λ t. t.0.now };

    ghost top = { 4294967295 };

    fn len(&self) -> usize {
        self.0.len()
    }

    fn entry(&self, i: usize) -> u32 {
        self.0[i]
    }
}
