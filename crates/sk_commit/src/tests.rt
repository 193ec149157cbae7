use super::*;
use sk_model::{EngineCall, EngineReply, Label, StepName};
use sk_weave::DrawFault;
use std::test::Fail;

const TX: Label = Label { session: 1, k: 1 };

#[test]
fn what_was_only_read_is_let_go(rt: HostRuntime) -> Result<(), Fail> {
    let read = Used {
        open_mem: true,
        open_store: false,
        wrote_mem: false,
        wrote_store: false,
    };
    let commit = Committing::start(TX, read);
    let wish = commit.wish();
    assert!(rt; matches!(&wish, Wish::Mem(EngineCall::DropTx { .. })));
    let end = CommitEnd::Committed {
        mem: None,
        store: None,
    };
    assert_eq!(rt;
        commit.take(Got::Engine(EngineReply::Done)),
        Taken::Step(Stepped::Ended(end))
    );
    Ok(())
}

#[test]
fn a_draw_below_the_floor_changes_nothing(rt: HostRuntime) -> Result<(), Fail> {
    let wrote = Used {
        open_mem: true,
        open_store: false,
        wrote_mem: true,
        wrote_store: false,
    };
    let commit = Committing::start(TX, wrote);
    let closed = commit.take(Got::Engine(EngineReply::Number(3)));
    let commit = match closed {
        Taken::Step(Stepped::Went(commit, StepName::CloseMem, None)) => commit,
        _ => Err("a close is a step")?,
    };
    let wish = commit.wish();
    assert!(rt; matches!(&wish, Wish::Reg(RegistryCall::DrawMem { floor: 3 })));
    let early = DrawFault::Early {
        floor: 3,
        counter: 2,
    };
    let got = Got::Reg(RegistryReply::NotDrawn(early));
    assert_eq!(rt; commit.take(got), Taken::Step(Stepped::Early(commit, 3, 2)));
    Ok(())
}
