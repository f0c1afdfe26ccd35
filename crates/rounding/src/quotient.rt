// A quotient rounded up. Sums have 64 bits: exact for all numbers.
ghost use Rattle.std.specs.Prelude.{◌≡◌, ◌≤◌};
ghost use Rattle.rounding.specs.Rounding.{rounded_up};

// x divided by y and rounded up; 0 where y is 0.
pub fn rounded_up(x: u32, y: u8) -> u64
    ensures { (result ≡ rounded_up x y) × (result ≤ x) }
{
    if y < 1 {
        return 0;
    }
    let parts = y as u64;
    let rest = parts - 1;
    ((x as u64) + rest) / parts
}
