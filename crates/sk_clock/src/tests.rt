//! What no clause says: that calls succeed, and that two threads draw at once.

ghost use Rattle.std.specs.Prelude.{◌≡◌};
ghost use Rattle.sk_clock.specs.Of.{IsOf};

use crate::{Clock, CutFound, DrawFault, Pass, Passed, Point, Recycled, Selected};
use std::alloc::Global;
use std::test::Fail;
use std::thread::join;

fn point(a: u32, b: u32, commit: bool) -> Point
    ensures { result ≡ record { a = a; b = b; commit = commit } }
{
    Point { a, b, commit }
}

// Draws so many numbers, or fewer where memory runs out.
fn draw_many(clock: &Clock, alloc: Global, mut pass: Pass, count: usize) -> (Pass, Vec<u32>)
    requires { IsOf clock.now pass }
    ensures { IsOf clock.now result.0 }
{
    let mut drawn = Vec::new(alloc);
    for _ in 0..count {
        if drawn.reserve(1).is_err() {
            return (pass, drawn);
        }
        match clock.draw_mem(&mut pass, 0) {
            Ok(n) => drawn.push_reserved(n),
            Err(_) => return (pass, drawn),
        }
    }
    (pass, drawn)
}

// Draws a number of each engine and checks the commit of both.
fn commits(clock: &Clock, pass: &mut Pass) -> Option<Result<(), Passed>>
    requires { IsOf clock.now pass.old }
    ensures { IsOf clock.now pass.new }
{
    let Ok(ca) = clock.draw_mem(pass, 0) else {
        return None;
    };
    let Ok(cb) = clock.draw_store(pass, 0) else {
        return None;
    };
    Some(clock.check(pass, ca, cb))
}

// Draws a number of each engine, selects for the newest anchor, and then checks the commit of both.
fn commits_late(
    clock: &Clock,
    pass: &mut Pass,
) -> Option<(Result<Selected, Recycled>, Result<(), Passed>)>
    requires { IsOf clock.now pass.old }
    ensures { IsOf clock.now pass.new }
{
    let Ok(ca) = clock.draw_mem(pass, 0) else {
        return None;
    };
    let Ok(cb) = clock.draw_store(pass, 0) else {
        return None;
    };
    let a = clock.begin(pass);
    let selected = clock.select(pass, a);
    Some((selected, clock.check(pass, ca, cb)))
}

// The selection for an anchor that has been drawn, and whether it made a point.
fn chosen(clock: &Clock, pass: &mut Pass, a: u32) -> Option<(u32, bool)>
    requires { IsOf clock.now pass.old }
    ensures { IsOf clock.now pass.new }
{
    if clock.begin(pass) < a {
        return None;
    }
    match clock.select(pass, a) {
        Ok(selected) => Some((selected.b, selected.made)),
        Err(_) => None,
    }
}

// The cut at two horizons, of which the first has been drawn.
fn cut_at(clock: &Clock, pass: &mut Pass, x: u32, y: u32) -> Option<CutFound>
    requires { IsOf clock.now pass.old }
    ensures { IsOf clock.now pass.new }
{
    if clock.begin(pass) < x {
        return None;
    }
    Some(clock.cut(pass, x, y))
}

#[test]
fn calls_are_answered_by_the_rules(rt: HostRuntime) -> Result<(), Fail> {
    let (clock, mut one) = Clock::new(rt.alloc(), 2, 4, point(0, 0, false))?;
    assert!(rt; clock.begin(&mut one) == 0);
    assert_eq!(rt; commits(&clock, &mut one), Some(Ok(())));
    assert_eq!(rt; chosen(&clock, &mut one, 0), Some((0, false)));
    assert_eq!(rt; chosen(&clock, &mut one, 1), Some((1, false)));
    assert_eq!(rt; clock.draw_store(&mut one, 0), Ok(2));
    assert_eq!(rt; chosen(&clock, &mut one, 1), Some((2, true)));
    assert_eq!(rt;
        clock.draw_mem(&mut one, 2),
        Err(DrawFault::Early {
            floor: 2,
            counter: 1
        })
    );
    let selected = Selected { b: 3, made: true };
    let passed = Passed {
        point: point(2, 3, false),
    };
    assert_eq!(rt;
        commits_late(&clock, &mut one),
        Some((Ok(selected), Err(passed)))
    );
    assert!(rt; clock.begin(&mut one) == 2 && clock.store_now(&mut one) == 3);
    let found = CutFound {
        cut: Some(point(2, 3, false)),
        made: false,
    };
    assert_eq!(rt; cut_at(&clock, &mut one, 2, 3), Some(found));
    assert_eq!(rt; clock.oldest(&mut one), point(0, 0, false));
    Ok(())
}

#[test]
fn two_threads_draw_different_numbers(rt: HostRuntime) -> Result<(), Fail> {
    let alloc = rt.alloc();
    let (clock, mut one) = Clock::new(alloc, 2, 4, point(0, 0, false))?;
    let two = clock.split(&mut one);
    let ((mut one, first), (_, second)) = join(
        &rt,
        || -> (Pass, Vec<u32>)
            requires { IsOf clock one }
            ensures { IsOf clock result.0 }
        { draw_many(&clock, alloc, one, 1000) },
        || -> (Pass, Vec<u32>)
            requires { IsOf clock two }
            ensures { IsOf clock result.0 }
        { draw_many(&clock, alloc, two, 1000) },
    );
    assert!(rt; first.len() == 1000 && second.len() == 1000);
    let mut numbers = first;
    for n in &second {
        numbers.push(*n)?;
    }
    numbers.as_mut_slice().sort_unstable();
    let mut next = 0u32;
    for n in &numbers {
        next = next.wrapping_add(1);
        assert!(rt; *n == next);
    }
    assert!(rt; clock.begin(&mut one) == 2000);
    Ok(())
}

#[test]
fn the_first_partition_is_given_up_at_the_fourth_commit(rt: HostRuntime) -> Result<(), Fail> {
    let (clock, mut one) = Clock::new(rt.alloc(), 2, 2, point(0, 0, false))?;
    let mut two = clock.split(&mut one);
    for _ in 0..3 {
        assert_eq!(rt; commits(&clock, &mut one), Some(Ok(())));
    }
    assert_eq!(rt; clock.oldest(&mut one), point(0, 0, false));
    assert_eq!(rt; commits(&clock, &mut two), Some(Ok(())));
    let second = point(2, 2, true);
    assert!(rt; clock.oldest(&mut one) == second && clock.oldest(&mut two) == second);
    assert_eq!(rt; chosen(&clock, &mut two, 1), None);
    Ok(())
}

#[test]
fn an_older_anchor_is_found_among_200_points(rt: HostRuntime) -> Result<(), Fail> {
    let (clock, mut one) = Clock::new(rt.alloc(), 2, 128, point(0, 0, false))?;
    for n in 1..200 {
        assert_eq!(rt; clock.draw_mem(&mut one, 0), Ok(n));
        assert_eq!(rt; clock.draw_store(&mut one, 0), Ok(n));
        assert_eq!(rt; chosen(&clock, &mut one, n), Some((n, true)));
    }
    assert_eq!(rt; chosen(&clock, &mut one, 77), Some((78, false)));
    let found = CutFound {
        cut: Some(point(150, 150, false)),
        made: false,
    };
    assert_eq!(rt; cut_at(&clock, &mut one, 150, 199), Some(found));
    Ok(())
}

#[test]
fn two_passes_close(rt: HostRuntime) -> Result<(), Fail> {
    let alloc = rt.alloc();
    let (clock, mut one) = Clock::new(alloc, 2, 4, point(0, 0, false))?;
    let two = clock.split(&mut one);
    let mut passes = Vec::new(alloc);
    passes.push(one)?;
    passes.push(two)?;
    match clock.close(alloc, passes) {
        Ok(closed) => {
            assert!(rt; closed.points().len() == 1);
            assert_eq!(rt; closed.points().get(0), Some(&point(0, 0, false)));
        }
        Err(_) => assert!(rt; false),
    }
    Ok(())
}
