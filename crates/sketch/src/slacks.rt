// What the slack table says of whole plans. What the words do not hold is 0.
ghost use Rattle.std.specs.Prelude.{◌≡◌, true, false, ◌≤◌, get_or};
ghost use Rattle.sketch.specs.Slacks.{Slacked};

use crate::SIDE;

// The word i, 0 where there is none.
pub fn word_at(work: &[u32], i: usize) -> u32
    ensures { result ≡ get_or work.now i 0 }
{
    work.get(i).copied().unwrap_or(0)
}

// Whether some first module leaves a slack with b cores in all.
pub fn has_slack(work: &[u32], b: u8) -> bool
    ensures { (result ≡ true → Slacked work.now b) × (result ≡ false → Slacked work.now b → ⊥) }
{
    for q in 1..=b {
        if 0 < word_at(work, (q as usize) * SIDE + (b as usize)) {
            return true;
        }
    }
    false
}

// The fewest cores with which some first module leaves a slack, where so many do.
pub(crate) fn fewest(work: &[u32], cores: u8) -> u8
    ensures { result ≤ cores }
{
    for b in 0..cores {
        if has_slack(work, b) {
            return b;
        }
    }
    cores
}

// The cores of a first module that leaves a slack with b cores in all, b where none of fewer does.
pub(crate) fn first_cores(work: &[u32], b: u8) -> u8
    ensures { result ≤ b }
{
    for q in 0..b {
        if 0 < word_at(work, (q as usize) * SIDE + (b as usize)) {
            return q;
        }
    }
    b
}
