ghost use Rattle.std.specs.Prelude.{◌≡◌, ◌<◌, All, IfOk};
ghost use Rattle.rt_plan.specs.Plans.{AreLower, worker_of};

use crate::{Answer, Board, Callees, Event, apply};
use rt_base::Memory;
use std::alloc::Global;
use std::process::Abort;
use std::test::Fail;

// An event, which leaves the workers.
fn answer_to(board: &mut Board, event: Event) -> Answer
    requires { worker_of event < board.old.workers }
    ensures { board.new.workers ≡ board.old.workers }
{
    apply(board, event)
}

#[test]
fn one_group_after_another(rt: HostRuntime) -> Result<(), Fail> {
    let alloc = rt.alloc();
    let none = Callees::from_vec(Vec::new(alloc));
    let first = Callees::from_vec(vec![in alloc; 0]?);
    let callees = [none, first];
    let mut board = Board::new(alloc, &callees, 2)?;
    assert_eq!(rt; answer_to(&mut board, Event::Claim(0)), Answer::Done);
    assert_eq!(rt; answer_to(&mut board, Event::Claim(0)), Answer::Busy(0));
    assert_eq!(rt; answer_to(&mut board, Event::Claim(1)), Answer::NotReady(0));
    assert_eq!(rt; answer_to(&mut board, Event::Publish(1)), Answer::Idle);
    assert_eq!(rt; answer_to(&mut board, Event::Publish(0)), Answer::Done);
    assert_eq!(rt; answer_to(&mut board, Event::Claim(1)), Answer::Done);
    assert_eq!(rt; answer_to(&mut board, Event::Claim(0)), Answer::Idle);
    assert_eq!(rt; answer_to(&mut board, Event::Abandon(1)), Answer::Done);
    assert_eq!(rt; answer_to(&mut board, Event::Claim(0)), Answer::Done);
    assert_eq!(rt; answer_to(&mut board, Event::Publish(0)), Answer::Done);
    assert_eq!(rt; answer_to(&mut board, Event::Claim(1)), Answer::AllDone);
    Ok(())
}

// The groups that a group calls: that of half its number and, where its number is great, the one before it.
fn called_by(alloc: Global, group: u32) -> Result<Callees, Memory>
    ensures { IfOk result (λ called. All (λ c. c < group) called) }
{
    let mut called = Vec::new(alloc);
    if 0 < group {
        called.push(group / 2)?;
    }
    if 50_000 < group {
        called.push(group - 1)?;
    }
    Ok(Callees::from_vec(called))
}

// So many groups.
fn groups(alloc: Global, count: u32) -> Result<Vec<Callees>, Memory>
    ensures { IfOk result (λ groups. AreLower groups.items) }
{
    let mut groups = Vec::new(alloc);
    for group in 0..count {
        groups.push(called_by(alloc, group)?)?;
    }
    Ok(groups)
}

// The turns of four workers, one after another, until each group is published, or so many.
fn turns(board: &mut Board, most: u32) -> u32
    requires { board.old.workers ≡ 4 }
    ensures { board.new.workers ≡ 4 }
{
    for turn in 0..most {
        let worker = turn % 4;
        let answer = match board.held(worker) {
            Some(_) => answer_to(board, Event::Publish(worker)),
            None => answer_to(board, Event::Claim(worker)),
        };
        if answer == Answer::AllDone {
            return turn;
        }
    }
    most
}

#[test]
fn many_groups(rt: HostRuntime) -> Result<(), Fail> {
    let alloc = rt.alloc();
    let callees = groups(alloc, 60_000)?;
    let mut board = Board::new(alloc, callees.as_slice(), 4)?;
    assert!(rt; turns(&mut board, 300_000) < 300_000);
    assert_eq!(rt; answer_to(&mut board, Event::Claim(0)), Answer::AllDone);
    Ok(())
}
