ghost use Rattle.std.specs.Prelude.{◌≡◌, true, OnOk};
ghost use Rattle.sk_chain.specs.Changing.{may_push, pushed};

use super::*;
use sk_model::{Label, Why};
use sk_rows::{NoMemory, Row, Value};
use std::process::Abort;
use std::test::Fail;

const A: Label = Label { session: 1, k: 1 };

const B: Label = Label { session: 2, k: 1 };

const C: Label = Label { session: 2, k: 2 };

fn row(rt: &HostRuntime) -> Result<Row, Fail> {
    let mut values = Row::new(rt.alloc());
    values.push(Value::Int(1))?;
    Ok(values)
}

fn push(chain: &mut Chain, by: Label, row: Option<Row>) -> Result<(), Fail>
    requires { may_push chain.old by ≡ true }
    ensures { OnOk result (chain.new ≡ pushed chain.old by row) }
{
    match chain.push(by, row) {
        Ok(()) => Ok(()),
        Err(NoMemory) => Err("memory was refused")?,
    }
}

// What each reader sees, and whom its write meets.
fn look(rt: &impl Abort, chain: &Chain, table: &[(Label, u32, Seen, Option<Why>)]) {
    for (by, snapshot, seen, why) in table {
        assert_eq!(rt; chain.seen_at(*by, *snapshot), *seen);
        assert_eq!(rt;
            chain.conflict(*by, *snapshot),
            why.map(|why| Blocked { by: A, why })
        );
    }
}

// Whether a row stands at each index, or no version at all.
fn rows(rt: &impl Abort, chain: &Chain, table: &[Option<bool>]) {
    for (at, want) in (0..).zip(table) {
        assert_eq!(rt;
            chain.version(at).map(|version| version.row.is_some()),
            *want
        );
    }
}

#[test]
fn a_version_is_written_closed_and_stamped(rt: HostRuntime) -> Result<(), Fail> {
    let mut chain = Chain::new(rt.alloc());
    look(&rt, &chain, &[(A, 9, Seen::Nothing, None)]);
    rows(&rt, &chain, &[None]);
    push(&mut chain, A, None)?;
    rows(&rt, &chain, &[Some(false), None]);
    push(&mut chain, A, Some(row(&rt)?))?;
    rows(&rt, &chain, &[Some(true), None]);
    look(
        &rt,
        &chain,
        &[
            (A, 0, Seen::At(0), None),
            (B, 9, Seen::Nothing, Some(Why::Open)),
        ],
    );
    chain.close(3);
    look(
        &rt,
        &chain,
        &[
            (A, 0, Seen::At(0), None),
            (B, 3, Seen::Nothing, Some(Why::Closed)),
            (B, 4, Seen::Busy { by: A }, Some(Why::Closed)),
        ],
    );
    chain.stamp(5);
    let past = Why::Past {
        number: 5,
        snapshot: 4,
    };
    look(
        &rt,
        &chain,
        &[(B, 4, Seen::Nothing, Some(past)), (B, 5, Seen::At(0), None)],
    );
    rows(&rt, &chain, &[Some(true), None]);
    Ok(())
}

#[test]
fn versions_are_voided_and_trimmed(rt: HostRuntime) -> Result<(), Fail> {
    let mut chain = Chain::new(rt.alloc());
    push(&mut chain, B, Some(row(&rt)?))?;
    chain.close(0);
    chain.stamp(5);
    push(&mut chain, A, None)?;
    chain.close(5);
    chain.stamp(7);
    push(&mut chain, C, Some(row(&rt)?))?;
    rows(&rt, &chain, &[Some(true), Some(false), Some(true), None]);
    chain.void();
    chain.trim(6);
    rows(&rt, &chain, &[Some(true), Some(false), None]);
    let past = Why::Past {
        number: 7,
        snapshot: 6,
    };
    look(
        &rt,
        &chain,
        &[
            (
                C,
                4,
                Seen::Nothing,
                Some(Why::Past {
                    number: 7,
                    snapshot: 4,
                }),
            ),
            (C, 6, Seen::At(0), Some(past)),
            (C, 7, Seen::At(1), None),
        ],
    );
    chain.trim(7);
    rows(&rt, &chain, &[Some(false), None]);
    look(
        &rt,
        &chain,
        &[(C, 6, Seen::Nothing, Some(past)), (C, 7, Seen::At(0), None)],
    );
    Ok(())
}
