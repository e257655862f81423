// Which existentials are not idle.
ghost use Rattle.std.specs.Prelude.{◌≡◌, ◌↔◌, not, IfOk, IsTrue, OnOk};
ghost use Rattle.std.specs.BTreeSet.{contains};
ghost use Rattle.std.specs.Ordering.{nat_cmp};
ghost use Rattle.rt_lines.specs.declared.variable.Base.TheVariants.{Exist as Existential};
ghost use Rattle.rt_trim.specs.Idle.{AreIdle};
ghost use Rattle.rt_trim.specs.Trimming.{AreNoted, AreOfLines, HasOtherUser, HasRival, IsSpoiledAt, IsSpoiledBy};

use crate::users::{Users, letter_as_load, users};
use rt_base::Memory;
use rt_lines::{Base, Dtv, Line, Word};
use std::alloc::Global;
use std::collections::BTreeSet;

// Numbers of existentials.
pub(crate) type Existentials = BTreeSet<u32>;

// The existentials that are not idle.
pub(crate) fn spoiled(alloc: Global, lines: &[Line]) -> Result<Existentials, Memory>
    ensures { IfOk result (λ found. AreIdle lines.now (λ n. not (contains nat_cmp found n))) }
{
    let users = users(alloc, lines)?;
    let found = all_spoiled(alloc, lines, &users)?;
    Ok(found)
}

// The existentials that the lines spoil.
fn all_spoiled(alloc: Global, lines: &[Line], users: &Users) -> Result<Existentials, Memory>
    ensures { IfOk result (λ found.
        AreOfLines (IsSpoiledBy lines.now users.now.entries) lines.now (contains nat_cmp found)) }
{
    let mut found = BTreeSet::new(alloc);
    for line in lines {
        spoil(alloc, lines, users, line, &mut found)?;
    }
    Ok(found)
}

// Adds the existentials of the line that it spoils.
fn spoil(
    alloc: Global,
    lines: &[Line],
    users: &Users,
    line: &Line,
    found: &mut Existentials,
) -> Result<(), Memory>
    ensures { OnOk result (AreNoted (λ n. IsSpoiledBy lines.now users.now.entries n line.now)
        (contains nat_cmp found.old) (contains nat_cmp found.new)) }
{
    match line {
        Line::Var(_) | Line::Same(_, _) => Ok(()),
        Line::Sub(x, y) => {
            if x.base == y.base {
                note_base(found, x.base)?;
                return Ok(());
            }
            spoil_side(alloc, lines, users, line, x, found)?;
            spoil_side(alloc, lines, users, line, y, found)?;
            Ok(())
        }
        Line::Low(_, x) | Line::Up(x, _) => spoil_side(alloc, lines, users, line, x, found),
    }
}

// Adds the existential of a side of the line, if the side has a rival.
fn spoil_side(
    alloc: Global,
    lines: &[Line],
    users: &Users,
    line: &Line,
    x: &Dtv,
    found: &mut Existentials,
) -> Result<(), Memory>
    ensures { OnOk result (AreNoted (IsSpoiledAt lines.now users.now.entries line.now x.now)
        (contains nat_cmp found.old) (contains nat_cmp found.new)) }
{
    let Base::Exist(n) = x.base else {
        return Ok(());
    };
    if has_rival(alloc, lines, users, line, x)? {
        found.insert(n)?;
    }
    Ok(())
}

// Adds the base, where it is an existential.
fn note_base(found: &mut Existentials, base: Base) -> Result<(), Memory>
    ensures { OnOk result (AreNoted (λ n. base ≡ Existential n)
        (contains nat_cmp found.old) (contains nat_cmp found.new)) }
{
    if let Base::Exist(n) = base {
        found.insert(n)?;
    }
    Ok(())
}

// Whether a line is noted of a variable that begins the side, or another line is noted of the side.
fn has_rival(
    alloc: Global,
    lines: &[Line],
    users: &Users,
    line: &Line,
    x: &Dtv,
) -> Result<bool, Memory>
    ensures { IfOk result (λ yes. IsTrue yes ↔ HasRival lines.now users.now.entries line.now x.now) }
{
    let mut front = Dtv {
        base: x.base,
        word: Word::empty(alloc),
    };
    for letter in x.word.items() {
        if users.contains_key(&front) {
            return Ok(true);
        }
        front.word.push(letter_as_load(*letter))?;
    }
    Ok(has_other_user(lines, users, line, &front))
}

// Whether the line that is noted of the variable is another.
fn has_other_user(lines: &[Line], users: &Users, line: &Line, x: &Dtv) -> bool
    ensures { IsTrue result ↔ HasOtherUser lines.now users.now.entries line.now x.now }
{
    let Some(i) = users.get(x) else {
        return false;
    };
    match lines.get(*i) {
        Some(other) => other != line,
        None => false,
    }
}
