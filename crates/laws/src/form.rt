// Records of laws, 24 bytes each: what they state, and whether each is the due one. Records are counted from 0; what lies past the
// end of the slice reads as 0.
ghost use Rattle.std.specs.Prelude.{◌≡◌, ◌+◌, ◌≤◌, ◌<◌, ◌&&◌, get_or, eqb};
ghost use Rattle.laws.specs.Form.{law_bytes, law_byte, number_at, coefficient, law_of, cost_at, form_meets, unused_meets, law_meets};

use crate::{Cost, Law};
use records::Key;

// The kind of the external costs.
pub const EXTERNAL: u32 = 5;

// The bytes of a record of laws.
pub const LAW_BYTES: u32 = 24;

// Byte i of the laws.
fn byte(laws: &[u8], i: u32) -> u8
    ensures { result ≡ get_or laws.now i 0 }
{
    laws.get(i as usize).copied().unwrap_or(0)
}

// Byte j of record n: 0 kind, 1 task, 2 form, 3 zero.
fn law_byte(laws: &[u8], n: u8, j: u32) -> u8
    requires { j < law_bytes }
    ensures { result ≡ law_byte laws.now n j }
{
    byte(laws, LAW_BYTES * (n as u32) + j)
}

// The number in the four bytes from i on, lowest first.
fn number_at(laws: &[u8], i: u32) -> u32
    requires { i < 65536 }
    ensures { result ≡ number_at laws.now i }
{
    u32::from_le_bytes([
        byte(laws, i),
        byte(laws, i + 1),
        byte(laws, i + 2),
        byte(laws, i + 3),
    ])
}

// Coefficient i of record n, counted from 1.
fn coefficient_at(laws: &[u8], n: u8, i: u32) -> u32
    requires { i ≤ 5 }
    ensures { result ≡ coefficient laws.now n i }
{
    number_at(laws, LAW_BYTES * (n as u32) + 4 * i)
}

// The law of record n.
fn law_of(laws: &[u8], n: u8) -> Law
    ensures { result ≡ law_of laws.now n }
{
    let c1 = coefficient_at(laws, n, 1);
    let c2 = coefficient_at(laws, n, 2);
    let c3 = coefficient_at(laws, n, 3);
    let c4 = coefficient_at(laws, n, 4);
    let c5 = coefficient_at(laws, n, 5);
    match law_byte(laws, n, 2) {
        0 => Law::Constant(c1),
        1 => Law::Three { c1, c2, c3 },
        _ => Law::Five { c1, c2, c3, c4, c5 },
    }
}

// The cost that record n states.
pub fn cost_at(laws: &[u8], n: u8) -> Cost
    ensures { result ≡ cost_at laws.now n }
{
    Cost {
        kind: law_byte(laws, n, 0),
        task: law_byte(laws, n, 1),
        law: law_of(laws, n),
    }
}

// Whether a cost of that kind may have that form.
fn form_meets(kind: u32, form: u8) -> bool
    ensures { result ≡ form_meets kind form }
{
    let several = if kind == EXTERNAL { 2 } else { 1 };
    form == 0 || form == several
}

// Whether coefficients i and i + 1 of record n are zero.
fn zeros(laws: &[u8], n: u8, i: u32) -> bool
    requires { i ≤ 4 }
    ensures { result ≡ (eqb (coefficient laws.now n i) 0 && eqb (coefficient laws.now n (i + 1)) 0) }
{
    coefficient_at(laws, n, i) == 0 && coefficient_at(laws, n, i + 1) == 0
}

// Whether the coefficients of record n that its form doesn't use are zero.
fn unused_meet(laws: &[u8], n: u8, form: u8) -> bool
    ensures { result ≡ unused_meets laws.now n form }
{
    (1 <= form || zeros(laws, n, 2)) && (2 <= form || zeros(laws, n, 4))
}

// Whether record n is a law for the due kind and task.
pub fn law_meets(laws: &[u8], n: u8, key: Key) -> bool
    ensures { result ≡ law_meets laws.now n key }
{
    let form = law_byte(laws, n, 2);
    (law_byte(laws, n, 0) as u32) == key.kind
        && (law_byte(laws, n, 1) as u32) == key.task
        && form_meets(key.kind, form)
        && law_byte(laws, n, 3) == 0
        && unused_meet(laws, n, form)
}
