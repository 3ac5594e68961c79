// An answer's numbers, put into a lent slice; a tally's numbers read back.
ghost use Rattle.std.specs.Prelude.{◌≡◌, ◌+◌, ◌≤◌, length};
ghost use Rattle.layout.specs.Over.{over};
ghost use Rattle.clib.specs.Numbers.{tally_of, figure_numbers};

use curve::Slots;
use run::tally::Tally;

// Some numbers, from a place on.
pub fn put<const N: usize>(slice: &mut [u32], at: usize, numbers: &[u32; N])
    requires { at + N ≤ length slice.old }
    ensures { slice.new ≡ over slice.old at numbers.now }
{
    slice[at..at + N].copy_from_slice(numbers);
}

// The tally of the six totals that a slice begins with, which C may lend longer.
pub fn tally_of(totals: &[u32]) -> Tally
    requires { 6 ≤ length totals.now }
    ensures { result ≡ tally_of totals.now }
{
    Tally::from([
        totals[0], totals[1], totals[2], totals[3], totals[4], totals[5],
    ])
}

// Sixteen figures as numbers of slots.
pub fn figures_of(figures: [Slots; 16]) -> [u32; 16]
    ensures { result ≡ figure_numbers figures }
{
    // a loop: of what `map` makes by a closure no clause is known here
    let mut numbers = [0u32; 16];
    for i in 0..16 {
        numbers[i] = figures[i].0;
    }
    numbers
}
