// What a law gives, in ticks. Sums have 64 bits: exact for all coefficients.
ghost use Rattle.std.specs.Prelude.{◌≡◌, ◌+◌, ◌*◌};
ghost use Rattle.rounding.specs.Rounding.{rounded_up};
ghost use Rattle.laws.specs.Laws.{law_at};

use crate::Law;
use rounding::rounded_up;

// The value of a law of three terms at p cores.
fn three(c1: u32, c2: u32, c3: u32, p: u8) -> u64
    ensures { result ≡ c1 + rounded_up c2 p + c3 * p }
{
    let shared = rounded_up(c2, p);
    let grows = (c3 as u64) * (p as u64);
    (c1 as u64) + shared + grows
}

// The value of a law of five terms at s sending and q receiving cores.
fn five(c1: u32, c2: u32, c3: u32, c4: u32, c5: u32, s: u8, q: u8) -> u64
    ensures { result ≡ c1 + rounded_up c2 s + rounded_up c3 q + c4 * s + c5 * q }
{
    let sent = rounded_up(c2, s);
    let received = rounded_up(c3, q);
    let sending = (c4 as u64) * (s as u64);
    let receiving = (c5 as u64) * (q as u64);
    (c1 as u64) + sent + received + sending + receiving
}

// The value of a law at s sending and q receiving cores or, of three terms, at s cores.
pub fn law_at(law: Law, s: u8, q: u8) -> u64
    ensures { result ≡ law_at law s q }
{
    match law {
        Law::Constant(c1) => c1 as u64,
        Law::Three { c1, c2, c3 } => three(c1, c2, c3, s),
        Law::Five { c1, c2, c3, c4, c5 } => five(c1, c2, c3, c4, c5, s, q),
    }
}
