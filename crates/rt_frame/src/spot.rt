// Where an access to the frame goes.
ghost use Rattle.std.specs.Prelude.{◌≡◌, ◌-ℤ◌};
ghost use Rattle.std.specs.Int.{int_wrap, w32};
ghost use Rattle.std.specs.List.{list_any};
ghost use Rattle.rt_frame.specs.Frames.{AreAscending, greatest_upto, is_from_to, spot_at};

/// Where an access at an offset of the frame goes: on the object that begins at an offset, so many bytes from there, or to
/// the frame itself at an offset. Offsets are those from the stack pointer at the entry, in bytes.
#[derive(Clone, Copy)]
pub enum Spot {
    OnObject { start: i32, distance: i32 },
    Location(i32),
}

// The greatest of ascending offsets that isn't above one, found in time logarithmic in how many there are.
fn greatest_upto(offsets: &[i32], k: i32) -> Option<i32>
    requires { AreAscending offsets.now }
    ensures { result ≡ greatest_upto k offsets.now }
{
    let upto = offsets.partition_point(|offset| *offset <= k);
    if upto == 0 {
        return None;
    }
    Some(offsets[upto - 1])
}

// Whether one of ascending offsets lies from one to another, found in time logarithmic in how many there are.
fn any_from_to(offsets: &[i32], from: i32, to: i32) -> bool
    requires { AreAscending offsets.now }
    ensures { result ≡ list_any (is_from_to from to) offsets.now }
{
    let below = offsets.partition_point(|offset| *offset < from);
    if below == offsets.len() {
        return false;
    }
    offsets[below] <= to
}

// How far an offset is above another; it wraps at 32 bits.
fn distance(from: i32, to: i32) -> i32
    ensures { result ≡ int_wrap w32 (to -ℤ from) }
{
    to.wrapping_sub(from)
}

/// Where an access goes, by the offsets at which objects begin and those of the words in which registers are saved. It takes
/// no memory, and time logarithmic in how many there are.
pub(crate) fn spot_in(taken: &[i32], saved: &[i32], k: i32) -> Spot
    requires taken { AreAscending taken.now }
    requires saved { AreAscending saved.now }
    ensures { result ≡ spot_at (record { taken = taken.now; saved = saved.now }) k }
{
    match greatest_upto(taken, k) {
        Some(start) if !any_from_to(saved, start, k) => Spot::OnObject {
            start,
            distance: distance(start, k),
        },
        _ => Spot::Location(k),
    }
}
