// What modules that end with one task leave: the cheapest transfers to the rests after it, and beside them the times of one copy and of
// any copies. A row has an entry for each number of cores.
ghost use Rattle.std.specs.Prelude.{◌≡◌, ◌+◌, ◌-◌, ◌≤◌, ◌<◌, length, replicate};
ghost use Rattle.modules.specs.Model.{chain_of};
ghost use Rattle.slack.specs.Fill.{best_by};
ghost use Rattle.slack.specs.Problem.{none, top_threshold};
ghost use Rattle.offers.specs.Words.{time_at, row_of, unsent, Area, FirstServed, NoRest, FirstSent, NoneBelow, Settled, CheapestBy, LeftByOne, Offered};
ghost use Rattle.offers.specs.Leaving.{AboveFrom, RestBy};

use crate::words::{NONE, has_room};
use guess::GRAIN;
use records::Board;
use sketch::{SIDE, SQUARE};

// The first number of cores from `from` to `end` at which a rest, whose slacks stand after `at`, can still receive in the time e; one more
// than `end` where none can: a place of the row too, where what counts for nothing is written without a branch.
fn first_served(work: &[u32], at: usize, from: usize, end: usize, e: u32) -> usize
    requires { (at + end < length work.now) × (from ≤ end + 1) }
    ensures { FirstServed work.now at from end e result }
{
    for c in from..=end {
        if e < work[at + c] {
            return c;
        }
    }
    end + 1
}

// The same of any row and numbers: `from` where the row ends before, or nothing is asked.
pub fn first_above(row: &[u32], at: usize, from: usize, end: usize, e: u32) -> usize
    ensures { AboveFrom row.now at from end e result }
{
    if row.len() <= end || row.len() - end <= at || end < from {
        return from;
    }
    first_served(row, at, from, end, e)
}

// A number of cores below which no rest after task l has a slack: the fewest with which one has, one more than the board's where none has; 0
// behind the last task, and where the board is out of range or the words are too few. The slacks of rests that start with q cores are asked below the fewest so far.
pub fn least_rest(work: &[u32], board: Board, l: u8) -> usize
    ensures { RestBy board work.now l result }
{
    if !has_room(board, work.len()) || board.tasks <= l {
        return 0;
    }
    let base = (l as usize) * SQUARE;
    let mut least = (board.cores as usize) + 1;
    let mut q: usize = 1;
    // Each turn may move the end, which the range of a `for` does not.
    while q < least {
        least = first_served(work, base + q * SIDE, q, least - 1, 0);
        q += 1;
    }
    least
}

// Each entry becomes the least of those up to it; those before `from` are no transfers.
fn settle(row: &mut [u32], from: usize, end: usize)
    requires { end < length row.old }
    ensures { NoneBelow row.old from → Settled row.old row.new end }
{
    let mut m = NONE;
    for c in from..=end {
        m = m.min(row[c]);
        row[c] = m;
    }
}

// What stands for a transfer before any is known: nothing is sent behind the last of so many tasks.
pub(crate) fn blank(tasks: u8, l: u8) -> u32
    ensures { result ≡ unsent tasks l }
{
    if l == tasks { 0 } else { NONE }
}

// The cheapest transfers from a module of q cores that ends with task l, by the slacks of the rests after it: each next module counts from
// the fewest cores of a rest that it can lead, which are `least` or more, behind `end` where it can lead none. One that has no slack with all
// cores that are left is not asked for its transfer. Behind the last task nothing is sent.
pub(crate) fn cheapest(
    costs: &[u8],
    board: Board,
    work: &[u32],
    l: u8,
    q: u8,
    least: usize,
    row: &mut [u32],
)
    requires { Area board work.now × (1 ≤ l) × (l ≤ board.tasks) × (1 ≤ q) × (q + least ≤ board.cores)
        × (row.old ≡ replicate 33 (unsent board.tasks l)) }
    ensures { NoRest work.now l least → CheapestBy (chain_of costs.now board) work.now row.new l q }
{
    if l == board.tasks {
        return;
    }
    let end = (board.cores - q) as usize;
    let base = (l as usize) * SQUARE;
    for led in 1..=end {
        let at = base + led * SIDE;
        if work[at + end] == 0 {
            continue;
        }
        let e = modules::transfer(costs, board, l, q, led as u8);
        let c = first_served(work, at, led.max(least), end, e);
        row[c] = row[c].min(e);
    }
    settle(row, least, end);
}

// One more than what is left of a time, 0 where too much is taken.
fn beyond(time: u64, taken: u64) -> u32
    requires { time < none }
    ensures { result ≡ time + 1 - taken }
{
    (time + 1).saturating_sub(taken) as u32
}

// What one copy of q cores leaves in b cores, at the threshold n, beside the cheapest transfer.
fn one_at(n: u64, row: &[u32], q: usize, b: usize) -> u32
    requires { (n ≤ top_threshold) × (q ≤ b) × (b ≤ 32) × (33 ≤ length row.now) }
    ensures { LeftByOne n row.now q b result }
{
    beyond(n / GRAIN, u64::from(row[b - q]))
}

// The fewest cores of a rest that something can be sent to, by the first entry that is a transfer, which is none before `from`; one more
// than `end` where none is.
pub(crate) fn first_sent(row: &[u32], from: usize, end: usize) -> usize
    requires { (end < length row.now) × (from ≤ end + 1) }
    ensures { (result ≤ end + 1) × (NoneBelow row.now from → FirstSent row.now end result) }
{
    for low in from..=end {
        if row[low] != NONE {
            return low;
        }
    }
    end + 1
}

// What any copies leave beside `one`, what one does; several take `extra` more each (document 02, M-106). Copies after which fewer than
// `low` cores are left leave nothing, since nothing can be sent there.
fn any_at(n: u64, extra: u32, row: &[u32], q: usize, low: usize, b: usize, one: u32) -> u32
    requires { (n ≤ top_threshold) × (1 ≤ q) × (q + low ≤ b) × (b ≤ 32) × (33 ≤ length row.now) × LeftByOne n row.now q b one }
    ensures { NoneBelow row.now low → result ≡ best_by (time_at n) extra (row_of row.now) 0 q b }
{
    let most = b - low;
    let mut m = one;
    let mut r: u64 = 2;
    let mut used = q + q;
    // By the cores used: the copies, counted beside them, would need a division here for their end.
    while used <= most {
        let v = beyond(n * r / GRAIN, u64::from(row[b - used]) + u64::from(extra));
        m = m.max(v);
        r += 1;
        used += q;
    }
    m
}

// Both for all numbers of cores from q to the board's: that of one copy at b, that of any at 33 + b. With fewer than q + low cores, where
// nothing can be sent, they are the zeros that stand there.
pub(crate) fn offer(
    n: u64,
    extra: u32,
    row: &[u32],
    q: usize,
    low: usize,
    cores: usize,
    left: &mut [u32],
)
    requires { (n ≤ top_threshold) × (1 ≤ q) × (q + low ≤ cores + 1) × (cores ≤ 32) × (33 ≤ length row.now) × (length left.old ≡ 66) }
    ensures { NoneBelow row.now low → left.old ≡ replicate 66 0 → Offered n extra row.now q cores left.new }
{
    for b in q + low..=cores {
        let one = one_at(n, row, q, b);
        left[b] = one;
        left[SIDE + b] = any_at(n, extra, row, q, low, b, one);
    }
}
