// Plans over an object's groups: no command gives a group back, or says how far a plan came.
ghost use Rattle.std.specs.Prelude.{◌≡◌, ◌<◌, None, []};
ghost use Rattle.rt_calls.specs.Calls.{AreGroupsOf};
ghost use Rattle.rt_link.specs.Checks.{link_fault};
ghost use Rattle.rt_link.specs.Links.{AreLinksOf};
ghost use Rattle.rt_liveness.specs.Ends.{ends_of};
ghost use Rattle.rt_plan.specs.Plans.{worker_of};
ghost use Rattle.rt_proc.specs.Procs.{AreProcs};
ghost use Rattle.rt_table.specs.Facts.{IsFactsOf};

use rt_base::Memory;
use rt_calls::{Groups, groups_of};
use rt_elf::{Object, read};
use rt_lattice::{Lattice, standard};
use rt_lines::{Base, Dtv, Label, Line, Loc};
use rt_link::{Links, resolve};
use rt_make::object;
use rt_proc::{Procs, find};
use rt_scheme::Scheme;
use rt_sigs::Sigs;
use rt_solve::{Answer, Event, Run, Schedule, Steps, solve_all};
use rt_table::{Facts, ends, prepare};
use std::alloc::Global;
use std::test::Fail;

// An object of two procedures. The function f calls the code after it, which gives back its argument, once for each of two arguments. It
// loads through the first result, and gives the second.
const CALLER: [u8; 324] = [
    0x7F, 0x45, 0x4C, 0x46, 0x01, 0x01, 0x01, 0x00, 0x00, 0x00, 0x00, 0x00, 0x00, 0x00, 0x00, 0x00,
    0x01, 0x00, 0xF3, 0x00, 0x01, 0x00, 0x00, 0x00, 0x00, 0x00, 0x00, 0x00, 0x00, 0x00, 0x00, 0x00,
    0x7C, 0x00, 0x00, 0x00, 0x00, 0x00, 0x00, 0x00, 0x34, 0x00, 0x00, 0x00, 0x00, 0x00, 0x28, 0x00,
    0x05, 0x00, 0x03, 0x00, 0x13, 0x84, 0x05, 0x00, 0xEF, 0x00, 0x80, 0x01, 0x03, 0x20, 0x05, 0x00,
    0x13, 0x05, 0x04, 0x00, 0xEF, 0x00, 0xC0, 0x00, 0x63, 0x42, 0x05, 0x00, 0x67, 0x80, 0x00, 0x00,
    0x13, 0x05, 0x05, 0x00, 0x67, 0x80, 0x00, 0x00, 0x00, 0x00, 0x00, 0x00, 0x00, 0x00, 0x00, 0x00,
    0x00, 0x00, 0x00, 0x00, 0x00, 0x00, 0x00, 0x00, 0x01, 0x00, 0x00, 0x00, 0x00, 0x00, 0x00, 0x00,
    0x00, 0x00, 0x00, 0x00, 0x12, 0x00, 0x01, 0x00, 0x00, 0x66, 0x00, 0x00, 0x00, 0x00, 0x00, 0x00,
    0x00, 0x00, 0x00, 0x00, 0x00, 0x00, 0x00, 0x00, 0x00, 0x00, 0x00, 0x00, 0x00, 0x00, 0x00, 0x00,
    0x00, 0x00, 0x00, 0x00, 0x00, 0x00, 0x00, 0x00, 0x00, 0x00, 0x00, 0x00, 0x00, 0x00, 0x00, 0x00,
    0x00, 0x00, 0x00, 0x00, 0x00, 0x00, 0x00, 0x00, 0x01, 0x00, 0x00, 0x00, 0x06, 0x00, 0x00, 0x00,
    0x00, 0x00, 0x00, 0x00, 0x34, 0x00, 0x00, 0x00, 0x24, 0x00, 0x00, 0x00, 0x00, 0x00, 0x00, 0x00,
    0x00, 0x00, 0x00, 0x00, 0x04, 0x00, 0x00, 0x00, 0x00, 0x00, 0x00, 0x00, 0x00, 0x00, 0x00, 0x00,
    0x02, 0x00, 0x00, 0x00, 0x00, 0x00, 0x00, 0x00, 0x00, 0x00, 0x00, 0x00, 0x58, 0x00, 0x00, 0x00,
    0x20, 0x00, 0x00, 0x00, 0x03, 0x00, 0x00, 0x00, 0x01, 0x00, 0x00, 0x00, 0x04, 0x00, 0x00, 0x00,
    0x10, 0x00, 0x00, 0x00, 0x00, 0x00, 0x00, 0x00, 0x03, 0x00, 0x00, 0x00, 0x00, 0x00, 0x00, 0x00,
    0x00, 0x00, 0x00, 0x00, 0x78, 0x00, 0x00, 0x00, 0x03, 0x00, 0x00, 0x00, 0x00, 0x00, 0x00, 0x00,
    0x00, 0x00, 0x00, 0x00, 0x01, 0x00, 0x00, 0x00, 0x00, 0x00, 0x00, 0x00, 0x00, 0x00, 0x00, 0x00,
    0x04, 0x00, 0x00, 0x00, 0x00, 0x00, 0x00, 0x00, 0x00, 0x00, 0x00, 0x00, 0x58, 0x00, 0x00, 0x00,
    0x00, 0x00, 0x00, 0x00, 0x02, 0x00, 0x00, 0x00, 0x01, 0x00, 0x00, 0x00, 0x04, 0x00, 0x00, 0x00,
    0x0C, 0x00, 0x00, 0x00,
];

// What is to come of the groups of an object's procedures.
#[derive(Clone, Copy)]
enum Wanted {
    // Four workers who are driven by this number get the three groups so, as worker and group.
    Claims(u32, [(u32, u32); 3]),
    // Two workers, event by event, solve the second procedure and then the first.
    SecondThenFirst,
}

// Whether the event is done, and then the two procedures have schemes or not, as it is said.
fn comes_to(
    run: &mut Run<'_>,
    steps: &mut Steps<()>,
    event: Event,
    schemes: (bool, bool),
) -> Result<bool, Memory>
    requires { worker_of event < run.old.stage.board.workers }
    ensures { run.new.stage.board.workers ≡ run.old.stage.board.workers }
{
    rt_plan::laws::kept();
    let answer = run.step(event, steps)?;
    let (first, second) = (run.schemes().get(0), run.schemes().get(1));
    Ok(answer == Answer::Done && (first.is_some(), second.is_some()) == schemes)
}

// Whether a variable is procedure 1 with this letter alone.
fn is_port(variable: &Dtv, letter: Label) -> bool {
    match variable.word.items() {
        [only] => variable.base == Base::Proc(1) && *only == letter,
        _ => false,
    }
}

// Whether the scheme is `f1.in_a0 <= f1.out_a0`.
fn is_identity(scheme: &Scheme) -> bool {
    match scheme.lines.items() {
        [Line::Sub(x, y)] => is_port(x, Label::In(Loc::Arg(0))) && is_port(y, Label::Out(0)),
        _ => false,
    }
}

// Whether a group has schemes exactly when it is published, one worker gives back what it holds, and two groups are counted.
fn goes_by_hand(run: &mut Run<'_>) -> Result<bool, Memory>
    requires { run.old.stage.board.workers ≡ 2 }
{
    let mut steps = Steps::new(());
    let second = comes_to(run, &mut steps, Event::Claim(0), (false, false))?
        && comes_to(run, &mut steps, Event::Publish(0), (false, true))?
        && run.schemes().get(1).is_some_and(is_identity);
    let given_back = comes_to(run, &mut steps, Event::Claim(1), (false, true))?
        && comes_to(run, &mut steps, Event::Abandon(1), (false, true))?;
    let first = comes_to(run, &mut steps, Event::Claim(0), (false, true))?
        && comes_to(run, &mut steps, Event::Publish(0), (true, true))?
        && run
            .schemes()
            .get(0)
            .is_some_and(|scheme| scheme.lines.len() == 3);
    Ok(second && given_back && first && steps.count() == 2)
}

// Whether the workers' claims are these. Where memory runs out, the failure says after how many.
fn are_claimed(
    alloc: Global,
    facts: &Facts<'_>,
    groups: &Groups,
    sigs: &Sigs,
    lattice: &Lattice,
    number: u32,
    claims: [(u32, u32); 3],
) -> Result<bool, Fail>
    requires facts { IsFactsOf facts.now.object.now facts.now.procs.now facts.now.sigs.now facts.now }
    requires groups { AreGroupsOf facts.now.procs.now groups.now }
    requires sigs { sigs.now ≡ facts.now.sigs.now }
    requires none { sigs.now ≡ [] }
{
    let mut schedule = Schedule::new(alloc, number);
    let mut steps = Steps::new(());
    let solved = solve_all(
        alloc,
        facts,
        groups,
        sigs,
        lattice,
        &mut schedule,
        &mut steps,
    );
    if solved.is_err() {
        let count = schedule.claims().len();
        return Err(Fail::new(format_args!("out of memory after {count} claims")));
    }
    Ok(schedule.claims() == claims.as_slice() && steps.count() == 3)
}

fn of_groups(
    alloc: Global,
    facts: &Facts<'_>,
    groups: &Groups,
    sigs: &Sigs,
    wanted: Wanted,
) -> Result<bool, Fail>
    requires facts { IsFactsOf facts.now.object.now facts.now.procs.now facts.now.sigs.now facts.now }
    requires groups { AreGroupsOf facts.now.procs.now groups.now }
    requires sigs { sigs.now ≡ facts.now.sigs.now }
    requires none { sigs.now ≡ [] }
{
    let lattice = standard(alloc)?;
    match wanted {
        Wanted::Claims(number, claims) => are_claimed(
            alloc, facts, groups, sigs, &lattice, number, claims,
        ),
        Wanted::SecondThenFirst => {
            let mut run = Run::new(alloc, facts, groups, sigs, &lattice, 2)?;
            Ok(goes_by_hand(&mut run)?)
        }
    }
}

fn of_procs(
    alloc: Global,
    object: &Object,
    links: &Links,
    procs: &Procs,
    sigs: &Sigs,
    wanted: Wanted,
) -> Result<bool, Fail>
    requires linked { link_fault object.now ≡ None }
    requires links { AreLinksOf object.now links.now }
    requires procs { AreProcs object.now (ends_of object.now sigs.now) procs.now }
    requires none { sigs.now ≡ [] }
{
    let facts = prepare(alloc, object, links, procs, sigs)?;
    let groups = groups_of(alloc, procs)?;
    of_groups(alloc, &facts, &groups, sigs, wanted)
}

fn of_links(
    alloc: Global,
    object: &Object,
    links: &Links,
    sigs: &Sigs,
    wanted: Wanted,
) -> Result<bool, Fail>
    requires linked { link_fault object.now ≡ None }
    requires links { AreLinksOf object.now links.now }
    requires none { sigs.now ≡ [] }
{
    let ends = ends(alloc, object, sigs)?;
    let procs = find(alloc, object, links, ends.items())?;
    of_procs(alloc, object, links, &procs, sigs, wanted)
}

// Whether it comes of the object, without signatures.
fn comes_of(alloc: Global, bytes: &[u8], wanted: Wanted) -> Result<bool, Fail> {
    let object = read(alloc, bytes)?;
    let links = resolve(alloc, &object)?;
    of_links(alloc, &object, &links, &Sigs::empty(alloc), wanted)
}

#[test]
fn a_group_has_schemes_when_it_is_published(rt: HostRuntime) -> Result<(), Fail> {
    assert!(rt; comes_of(rt.alloc(), &CALLER, Wanted::SecondThenFirst)?);
    Ok(())
}

#[test]
fn a_number_drives_four_workers(rt: HostRuntime) -> Result<(), Fail> {
    let three = object(rt.alloc(), 3)?;
    let first = Wanted::Claims(0, [(2, 0), (0, 1), (1, 2)]);
    assert!(rt; comes_of(rt.alloc(), three.as_slice(), first)?);
    let second = Wanted::Claims(1, [(0, 0), (2, 1), (3, 2)]);
    assert!(rt; comes_of(rt.alloc(), three.as_slice(), second)?);
    Ok(())
}
