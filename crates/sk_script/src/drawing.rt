//! Transfers of stock that a seed gives.

ghost use Rattle.std.specs.Prelude.{◌≡◌, IfOk};
ghost use Rattle.sk_script.specs.Generated as spec;

use sk_rows::NoMemory;
use std::alloc::Global;

/// Stock that is moved from one row to another.
#[derive(Clone, Copy, Debug, PartialEq, Eq)]
pub struct Transfer {
    /// Its number, counted from 1.
    pub number: u32,
    /// The row that it takes from.
    pub from: u32,
    /// The row that it gives to.
    pub to: u32,
    /// How many it moves.
    pub count: u32,
}

/// The number that follows in the sequence.
fn draw(x: u32) -> u32
    ensures { result ≡ spec.draw x }
{
    ((75 * x as u64 + 74) % 65_537) as u32
}

fn other(first: u32, second: u32) -> u32
    ensures { result ≡ spec.other first second }
{
    if second == first {
        first % 16 + 1
    } else {
        second
    }
}

/// The transfer that three drawn numbers give.
fn transfer_of(number: u32, p: u32, q: u32, r: u32) -> Transfer
    ensures { result ≡ spec.transfer_of number p q r }
{
    let from = p % 16 + 1;
    Transfer {
        number,
        from,
        to: other(from, q % 16 + 1),
        count: r % 9 + 1,
    }
}

/// So many transfers, numbered from 1.
pub fn transfers(alloc: Global, seed: u32, n: u32) -> Result<Vec<Transfer>, NoMemory>
    ensures { IfOk result (λ ts. ts.items ≡ spec.transfers seed 1 n) }
{
    let mut made = Vec::new(alloc);
    let mut last = seed;
    for i in 0..n {
        let p = draw(last);
        let q = draw(p);
        let r = draw(q);
        made.push(transfer_of(i + 1, p, q, r))?;
        last = r;
    }
    Ok(made)
}
