// Bytes and values of a record. What lies past the end of the slice reads as 0.
ghost use Rattle.std.specs.Prelude.{◌≡◌, ◌+◌, ◌≤◌, ◌<◌, length, get_or};
ghost use Rattle.fields.specs.Fields.{byte_at, word_of, value_from, value_at};

// A byte as a number of 32 bits.
pub fn wide(x: u8) -> u32
    ensures { (result ≡ x) × (result < 256) }
{
    x as u32
}

// The number in four bytes, lowest first.
pub fn word(x: u8, y: u8, z: u8, w: u8) -> u32
    ensures { result ≡ word_of x y z w }
{
    u32::from_le_bytes([x, y, z, w])
}

// Byte i of the slice.
fn byte(costs: &[u8], i: usize) -> u8
    ensures { result ≡ get_or costs.now i 0 }
{
    costs.get(i).copied().unwrap_or(0)
}

// The byte at j of record n, records counted from 0.
pub fn byte_at(costs: &[u8], n: u32, j: u32) -> u32
    ensures { (result ≡ byte_at costs.now n j) × (result < 256) }
{
    wide(byte(costs, 8 * (n as usize) + (j as usize)))
}

// The value of the record whose first byte is at `start`, all of whose bytes are there.
fn value_inside(costs: &[u8], start: usize) -> u32
    requires { start + 8 ≤ length costs.now }
    ensures { result ≡ value_from costs.now start }
{
    word(
        costs[start + 4],
        costs[start + 5],
        costs[start + 6],
        costs[start + 7],
    )
}

// The value of the record whose first byte is at `start`, byte by byte.
fn value_cut(costs: &[u8], start: usize) -> u32
    requires { start ≤ 34359738360 }
    ensures { result ≡ value_from costs.now start }
{
    word(
        byte(costs, start + 4),
        byte(costs, start + 5),
        byte(costs, start + 6),
        byte(costs, start + 7),
    )
}

// The value of record n. One test for all four bytes of a record that is there makes every lookup faster.
pub fn value_at(costs: &[u8], n: u32) -> u32
    ensures { result ≡ value_at costs.now n }
{
    let start = 8 * (n as usize);
    if start + 8 <= costs.len() {
        value_inside(costs, start)
    } else {
        value_cut(costs, start)
    }
}
