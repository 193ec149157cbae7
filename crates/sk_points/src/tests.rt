ghost use Rattle.std.specs.Prelude.{◌≡◌, ◌≤◌};
ghost use Rattle.sk_points.specs.Stands.{Stands};

use super::*;
use sk_weave::{CutFound, DrawFault, Passed, Point, Recycled, Registry, Selected};
use std::test::Fail;

#[derive(Clone, Copy, Debug)]
enum Call {
    Begin,
    StoreNow,
    Select(u32),
    DrawMem(u32),
    DrawStore(u32),
    Check(u32, u32),
    Cut(u32, u32),
    Oldest,
}

#[derive(Clone, Copy, Debug, PartialEq)]
enum Answer {
    Number(u32),
    Chosen(u32, bool),
    Gone(u32, u32, u32),
    Early(u32, u32),
    Spent,
    Passes,
    Passed(u32, u32),
    Found(u32, u32, bool),
    NoCut,
    Oldest(u32, u32),
    NotDrawn,
}

fn drawn(answer: Result<u32, DrawFault>) -> Answer {
    match answer {
        Ok(n) => Answer::Number(n),
        Err(DrawFault::Early { floor, counter }) => Answer::Early(floor, counter),
        Err(DrawFault::Spent) => Answer::Spent,
    }
}

fn select(points: &mut Points, a: u32) -> Answer
    requires { Stands points.old }
    ensures { Stands points.new }
{
    if a > points.begin() {
        return Answer::NotDrawn;
    }
    match points.select(a) {
        Ok(selected) => Answer::Chosen(selected.b, selected.made),
        Err(gone) => Answer::Gone(gone.a, gone.oldest.a, gone.oldest.b),
    }
}

fn check(points: &mut Points, ca: u32, cb: u32) -> Answer
    requires { Stands points.old }
    ensures { Stands points.new }
{
    let mem = points.begin();
    let store = points.store_now();
    if ca > mem || cb > store {
        return Answer::NotDrawn;
    }
    match points.check(ca, cb) {
        Ok(()) => Answer::Passes,
        Err(passed) => Answer::Passed(passed.point.a, passed.point.b),
    }
}

fn cut(points: &mut Points, x: u32, y: u32) -> Answer
    requires { Stands points.old }
    ensures { Stands points.new }
{
    let mem = points.begin();
    let store = points.store_now();
    if x > mem || y > store {
        return Answer::NotDrawn;
    }
    let found = points.cut(x, y);
    match found.cut {
        Some(point) => Answer::Found(point.a, point.b, found.made),
        None => Answer::NoCut,
    }
}

fn answered(points: &mut Points, call: Call) -> Answer
    requires { Stands points.old }
    ensures { Stands points.new }
{
    match call {
        Call::Begin => Answer::Number(points.begin()),
        Call::StoreNow => Answer::Number(points.store_now()),
        Call::Select(a) => select(points, a),
        Call::DrawMem(floor) => drawn(points.draw_mem(floor)),
        Call::DrawStore(floor) => drawn(points.draw_store(floor)),
        Call::Check(ca, cb) => check(points, ca, cb),
        Call::Cut(x, y) => cut(points, x, y),
        Call::Oldest => {
            let oldest = points.oldest();
            Answer::Oldest(oldest.a, oldest.b)
        }
    }
}

#[test]
fn calls_are_answered_by_the_rules(rt: HostRuntime) -> Result<(), Fail> {
    let start = Point {
        a: 0,
        b: 0,
        commit: false,
    };
    let mut points = Points::new(rt.alloc(), 2, 4, start)?;
    for (call, want) in [
        (Call::Begin, Answer::Number(0)),
        (Call::DrawMem(0), Answer::Number(1)),
        (Call::DrawStore(0), Answer::Number(1)),
        (Call::Check(1, 1), Answer::Passes),
        (Call::Select(0), Answer::Chosen(0, false)),
        (Call::Begin, Answer::Number(1)),
        (Call::Select(1), Answer::Chosen(1, false)),
        (Call::DrawStore(0), Answer::Number(2)),
        (Call::Select(1), Answer::Chosen(2, true)),
        (Call::DrawMem(2), Answer::Early(2, 1)),
        (Call::DrawMem(0), Answer::Number(2)),
        (Call::DrawStore(0), Answer::Number(3)),
        (Call::Begin, Answer::Number(2)),
        (Call::StoreNow, Answer::Number(3)),
        (Call::Select(2), Answer::Chosen(3, true)),
        (Call::Check(2, 3), Answer::Passed(2, 3)),
        (Call::Cut(2, 3), Answer::Found(2, 3, false)),
        (Call::Oldest, Answer::Oldest(0, 0)),
    ] {
        assert_eq!(rt; answered(&mut points, call), want, "at {call:?}");
    }
    Ok(())
}

#[test]
fn the_eighth_selection_gives_up_the_first_partition(rt: HostRuntime) -> Result<(), Fail> {
    let start = Point {
        a: 0,
        b: 0,
        commit: false,
    };
    let mut points = Points::new(rt.alloc(), 2, 4, start)?;
    for n in 1..10 {
        let want = if n <= 8 {
            Answer::Chosen(0, false)
        } else {
            Answer::Gone(0, 4, 0)
        };
        assert_eq!(rt; answered(&mut points, Call::Select(0)), want, "before {n}");
        assert_eq!(rt; answered(&mut points, Call::DrawMem(0)), Answer::Number(n));
        assert_eq!(rt;
            answered(&mut points, Call::Select(n)),
            Answer::Chosen(0, true)
        );
    }
    assert_eq!(rt; answered(&mut points, Call::Oldest), Answer::Oldest(4, 0));
    assert_eq!(rt; answered(&mut points, Call::Cut(3, 0)), Answer::NoCut);
    assert_eq!(rt;
        answered(&mut points, Call::Cut(5, 0)),
        Answer::Found(5, 0, false)
    );
    Ok(())
}
